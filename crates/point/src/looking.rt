// The legs of a machine as a point sees them.
ghost use Rattle.std.specs.Prelude.{◌≡◌};
ghost use Rattle.point.specs.Looks.{leg_status, known_leg, look};

use machine::{KNOWN_LEGS, Machine};
use records::{LegStatus, Snapshot};

// A missing leg shows no end position, and is off.
fn leg_status<M: Machine>(machine: &M, leg: u16) -> LegStatus
    ensures { result ≡ leg_status (M.meaning machine.now) leg }
{
    LegStatus {
        shows: machine.show(leg),
        driven: machine.driven(leg),
    }
}

#[tactic(auto, using(crate::proofs::Seen::leg_missing, crate::proofs::Seen::leg_there))]
fn known_leg<M: Machine>(machine: &M, leg: u16) -> Option<LegStatus>
    ensures { result ≡ known_leg (M.meaning machine.now) leg }
{
    (leg < machine.count().min(KNOWN_LEGS)).then(|| leg_status(machine, leg))
}

// Legs 0 to 4 as they are now, and whether there are more.
pub fn snapshot<M: Machine>(machine: &M) -> Snapshot
    ensures { result ≡ look (M.meaning machine.now) }
{
    Snapshot {
        first: leg_status(machine, 0),
        others: [1, 2, 3, 4].map(|leg| known_leg(machine, leg)),
        more: machine.count() > KNOWN_LEGS,
    }
}
