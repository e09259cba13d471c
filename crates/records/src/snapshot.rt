// The legs of a point as they are at one moment.
ghost use Rattle.std.specs.Prelude.{◌≡◌, ◌∷◌, Some};
ghost use Rattle.legs.specs.Combined.{combined};
ghost use Rattle.legs.specs.Ends.{reached};
ghost use Rattle.records.specs.Snapshots.{join_leg, shown_in};

use legs::{Drive, Position};

#[derive(Clone, Copy, PartialEq, Eq, Debug)]
pub struct LegStatus {
    pub shows: Position,
    pub driven: Drive,
}

impl LegStatus {
    // Whether the leg is where it is driven.
    pub fn has_arrived(self) -> bool
        ensures { result ≡ reached self.driven self.shows }
    {
        self.driven.has_reached(self.shows)
    }
}

#[derive(Clone, Copy, PartialEq, Eq, Debug)]
pub struct Snapshot {
    // Leg 0 is always there.
    pub first: LegStatus,
    // Legs 1 to 4, as far as they are there.
    pub others: [Option<LegStatus>; 4],
    // Whether there are more than five.
    pub more: bool,
}

impl Snapshot {
    // Legs 0 to 4, as far as they are there.
    pub fn legs(self) -> [Option<LegStatus>; 5]
        ensures { result ≡ Some self.first ∷ self.others }
    {
        let [leg1, leg2, leg3, leg4] = self.others;
        [Some(self.first), leg1, leg2, leg3, leg4]
    }

    // What these legs show together.
    pub fn combined_position(self) -> Position
        ensures { result ≡ combined (shown_in self) }
    {
        self.others.iter().copied().fold(self.first.shows, join_leg)
    }
}

// What a group of legs shows together with one more, if that is there.
fn join_leg(together: Position, leg: Option<LegStatus>) -> Position
    ensures { result ≡ join_leg together leg }
{
    leg.map_or(together, |leg| together.join(leg.shows))
}
