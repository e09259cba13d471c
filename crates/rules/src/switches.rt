// Which legs are to be switched off.
ghost use Rattle.std.specs.Prelude.{◌≡◌};
ghost use Rattle.rules.specs.Switches.{leg_arrived, legs_arrived, no_leg};

use records::{LegStatus, Snapshot};

// For each of legs 0 to 4, whether it is.
#[derive(Clone, Copy)]
pub struct Switches {
    pub legs: [bool; 5],
}

impl Switches {
    pub fn none() -> Switches
        ensures { result ≡ no_leg }
    {
        Switches { legs: [false; 5] }
    }

    // The legs that are where they are driven.
    pub fn arrived(legs: Snapshot) -> Switches
        ensures { result ≡ legs_arrived legs }
    {
        Switches {
            legs: legs.legs().map(has_arrived),
        }
    }
}

fn has_arrived(leg: Option<LegStatus>) -> bool
    ensures { result ≡ leg_arrived leg }
{
    leg.is_some_and(LegStatus::has_arrived)
}
