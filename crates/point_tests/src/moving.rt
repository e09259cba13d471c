// Orders to move.
use crate::playing::{Line, plays_up, two_at_left, wired_at};
use makes::Model;
use records::CallKind::*;
use std::test::Fail;

// EULYNX: Moving of the Point, from an end position.
const FROM_AN_END: &[Line] = &[
    (MovePoint, 2, 0, "L R O - -"),
    (Tick, 0, 0, "L R - - -"),
    (Sense, 0, 0, "N R - PN -"),
    (Tick, 0, 0, "N R - - -"),
    (Sense, 0, 2, "R - E PR -"),
    (Tick, 0, 0, "R - - - -"),
];

// The same, from no end position.
const FROM_NO_END: &[Line] = &[
    (MovePoint, 1, 0, "N L O - -"),
    (Tick, 0, 0, "N L - - -"),
    (Sense, 0, 1, "L - E PL -"),
];

// The same, from a trailed position.
const FROM_TRAILED: &[Line] = &[
    (MovePoint, 2, 0, "T R O - -"),
    (Sense, 0, 0, "N R - PN -"),
    (Sense, 0, 2, "R - E PR -"),
];

// EULYNX: Moving of the Point with n-th Point machine. The first leg to leave its end makes the news; each is
// switched off by itself, and the point is there when both are.
const TWO_LEGS: &[Line] = &[
    (MovePoint, 2, 0, "LL RR O - -"),
    (Sense, 1, 0, "LN RR - PN -"),
    (Sense, 0, 0, "NN RR - - -"),
    (Sense, 0, 2, "RN -R - - -"),
    (Tick, 0, 0, "RN -R - - -"),
    (Sense, 1, 2, "RR -- E PR -"),
];

#[test]
fn moving_of_the_point(rt: HostRuntime) -> Result<(), Fail> {
    plays_up(&rt, wired_at(1)?, 3, 1, FROM_AN_END);
    plays_up(&rt, wired_at(0)?, 3, 1, FROM_NO_END);
    plays_up(&rt, wired_at(4)?, 3, 1, FROM_TRAILED);
    plays_up(&rt, two_at_left()?, 3, 1, TWO_LEGS);
    Ok(())
}

// EULYNX: Moving of the Point to the current End position. It is told though it is no news, and nothing moves.
const TO_THE_CURRENT_END: &[Line] = &[
    (MovePoint, 1, 0, "L - A PL -"),
    (MovePoint, 1, 9, "L - A PL -"),
    (Tick, 0, 0, "L - - - -"),
];

// EULYNX: Moving of the Point with repeated command of moving #1.
const REPEATED_ON_THE_WAY: &[Line] = &[
    (MovePoint, 2, 0, "L R O - -"),
    (Sense, 0, 0, "N R - PN -"),
    (MovePoint, 2, 0, "N R G - -"),
    (Sense, 0, 2, "R - E PR -"),
];

// EULYNX: Moving of the Point with repeated command of moving #2.
const REPEATED_AT_ONCE: &[Line] = &[
    (MovePoint, 2, 0, "L R O - -"),
    (MovePoint, 2, 0, "L R G - -"),
    (Sense, 0, 0, "N R - PN -"),
    (Sense, 0, 2, "R - E PR -"),
];

const TO_NO_END: &[Line] = &[
    (MovePoint, 0, 1, "L - 6 - -"),
    (MovePoint, 3, 2, "L - 6 - -"),
    (MovePoint, 257, 0, "L - 6 - -"),
    (MovePoint, 65535, 0, "L - 6 - -"),
    (MovePoint, 2, 0, "L R O - -"),
    (MovePoint, 258, 0, "L R 6 - -"),
];

#[test]
fn orders_that_move_nothing(rt: HostRuntime) -> Result<(), Fail> {
    plays_up(&rt, wired_at(1)?, 3, 1, TO_THE_CURRENT_END);
    plays_up(&rt, wired_at(1)?, 3, 1, REPEATED_ON_THE_WAY);
    plays_up(&rt, wired_at(1)?, 3, 1, REPEATED_AT_ONCE);
    plays_up(&rt, wired_at(1)?, 3, 1, TO_NO_END);
    Ok(())
}

const IN_TIME: &[Line] = &[
    (MovePoint, 2, 0, "L R O - -"),
    (Tick, 0, 0, "N R - PN -"),
    (Tick, 0, 0, "N R - - -"),
    (Tick, 0, 0, "R - E PR -"),
];

// One tick less; a second order then has a clock of its own.
const TOO_LATE: &[Line] = &[
    (MovePoint, 2, 0, "L R O - -"),
    (Tick, 0, 0, "N R - PN -"),
    (Tick, 0, 0, "N - X TO -"),
    (Tick, 0, 0, "N - - - -"),
    (MovePoint, 2, 0, "N R O - -"),
    (Tick, 0, 0, "R - E PR -"),
];

#[test]
fn a_travel_of_three_ticks(rt: HostRuntime) {
    plays_up(&rt, Model::new(3), 3, 1, IN_TIME);
    plays_up(&rt, Model::new(3), 2, 1, TOO_LATE);
}
