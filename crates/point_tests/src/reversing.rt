// Orders against a movement.
use crate::playing::{Line, plays_up, wired_at};
use makes::Model;
use records::CallKind::*;
use std::test::Fail;

// EULYNX: Reversing Point.
const ON_THE_WAY: &[Line] = &[
    (MovePoint, 2, 0, "L R O - -"),
    (Sense, 0, 0, "N R - PN -"),
    (MovePoint, 1, 0, "N L V - -"),
    (Sense, 0, 1, "L - E PL -"),
];

// EULYNX: Reversing Point directly after the position has been commanded.
const AT_ONCE: &[Line] = &[
    (MovePoint, 2, 0, "L R O - -"),
    (MovePoint, 1, 0, "L L V - -"),
    (Sense, 0, 0, "N L - PN -"),
    (Sense, 0, 1, "L - E PL -"),
];

// The same where the leg had not moved: the order only drives, and the next tick finds it there.
const BEFORE_IT_MOVED: &[Line] = &[
    (MovePoint, 2, 0, "L R O - -"),
    (MovePoint, 1, 0, "L L V - -"),
    (MovePoint, 1, 0, "L L G - -"),
    (Tick, 0, 0, "L - E PL -"),
];

// EULYNX: Reversing Point after end position is arrived.
const AFTER_ARRIVAL: &[Line] = &[
    (MovePoint, 2, 0, "L R O - -"),
    (Sense, 0, 0, "N R - PN -"),
    (Sense, 0, 2, "R - E PR -"),
    (MovePoint, 1, 0, "R L O - -"),
    (Sense, 0, 0, "N L - PN -"),
    (Sense, 0, 1, "L - E PL -"),
];

#[test]
fn reversing_point(rt: HostRuntime) -> Result<(), Fail> {
    plays_up(&rt, wired_at(1)?, 3, 1, ON_THE_WAY);
    plays_up(&rt, wired_at(1)?, 3, 1, AT_ONCE);
    plays_up(&rt, wired_at(1)?, 3, 1, BEFORE_IT_MOVED);
    plays_up(&rt, wired_at(1)?, 3, 1, AFTER_ARRIVAL);
    Ok(())
}

// A model that never gets far, with a limit of 2.
const BACK_AND_FORTH: &[Line] = &[
    (MovePoint, 2, 0, "L R O - -"),
    (Tick, 0, 0, "N R - PN -"),
    (MovePoint, 1, 0, "N L V - -"),
    (MovePoint, 2, 0, "N R V - -"),
    (Tick, 0, 0, "N R - - -"),
    (MovePoint, 1, 0, "N L V - -"),
    (Tick, 0, 0, "N L - - -"),
    (Tick, 0, 0, "L - E PL -"),
    (MovePoint, 2, 0, "L R O - -"),
    (Tick, 0, 0, "N R - PN -"),
    (MovePoint, 1, 0, "N L V - -"),
    (MovePoint, 2, 0, "N R V - -"),
    (Tick, 0, 0, "N R - - -"),
    (Tick, 0, 0, "N - X TO -"),
];

#[test]
fn a_reversal_restarts_the_clock(rt: HostRuntime) {
    plays_up(&rt, Model::new(9), 2, 1, BACK_AND_FORTH);
}
