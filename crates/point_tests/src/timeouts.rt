// Movements that do not end in time.
use crate::playing::{Line, plays, plays_up, point_up, two_at_left, wired_at};
use makes::Model;
use records::CallKind::*;
use std::test::Fail;

// EULYNX: Handle and report Timeout with position change. The change comes before the last tick; an end that is
// reached after it is told as any other change.
const CHANGED_BEFORE: &[Line] = &[
    (MovePoint, 2, 0, "L R O - -"),
    (Sense, 0, 0, "N R - PN -"),
    (Tick, 0, 0, "N - X TO -"),
    (Sense, 0, 2, "R - - PR -"),
];

// EULYNX: Handle and report Timeout without position change.
const UNCHANGED: &[Line] = &[
    (MovePoint, 2, 0, "L R O - -"),
    (Tick, 0, 0, "L - X TO -"),
    (Tick, 0, 0, "L - - - -"),
];

// The last tick itself brings the change: the position is told first.
const CHANGED_THEN: &[Line] = &[
    (MovePoint, 2, 0, "L R O - -"),
    (Tick, 0, 0, "N - X PN TO"),
    (Tick, 0, 0, "N - - - -"),
];

// In profile 0 no timeout is told.
const UNCHANGED_IN_PROFILE_0: &[Line] = &[
    (MovePoint, 2, 0, "L R O - -"),
    (Tick, 0, 0, "L - X - -"),
];

const CHANGED_THEN_IN_PROFILE_0: &[Line] = &[
    (MovePoint, 2, 0, "L R O - -"),
    (Tick, 0, 0, "N - X PN -"),
];

#[test]
fn timeouts_are_told(rt: HostRuntime) -> Result<(), Fail> {
    plays_up(&rt, wired_at(1)?, 1, 1, CHANGED_BEFORE);
    plays_up(&rt, wired_at(1)?, 1, 1, UNCHANGED);
    plays_up(&rt, Model::new(3), 1, 1, CHANGED_THEN);
    plays_up(&rt, wired_at(1)?, 1, 0, UNCHANGED_IN_PROFILE_0);
    plays_up(&rt, Model::new(3), 1, 0, CHANGED_THEN_IN_PROFILE_0);
    Ok(())
}

// Nor is it told once the connection is made again.
const UNCHANGED_WHILE_LOST: &[Line] = &[
    (MovePoint, 2, 0, "L R O - -"),
    (LoseConnection, 0, 0, "L R - - -"),
    (Tick, 0, 0, "L - X - -"),
    (CheckVersion, 3, 0, "L - - V1 -"),
    (ReportStatus, 0, 0, "L - - SI PL"),
    (FinishReport, 0, 0, "L - - IC -"),
];

const CHANGED_WHILE_LOST: &[Line] = &[
    (MovePoint, 2, 0, "L R O - -"),
    (LoseConnection, 0, 0, "L R - - -"),
    (Tick, 0, 0, "N - X - -"),
    (CheckVersion, 3, 0, "N - - V1 -"),
    (ReportStatus, 0, 0, "N - - SI PN"),
    (FinishReport, 0, 0, "N - - IC -"),
];

// A connection that only reports is not up yet.
const WHILE_REPORTING: &[Line] = &[
    (MovePoint, 2, 0, "L R O - -"),
    (LoseConnection, 0, 0, "L R - - -"),
    (CheckVersion, 3, 0, "L R - V1 -"),
    (ReportStatus, 0, 0, "L R - SI PL"),
    (Tick, 0, 0, "N - X - -"),
    (FinishReport, 0, 0, "N - - IC PN"),
];

#[test]
fn timeouts_without_connection_are_not_told(rt: HostRuntime) -> Result<(), Fail> {
    for profile in 0..2 {
        plays_up(&rt, wired_at(1)?, 1, profile, UNCHANGED_WHILE_LOST);
        plays_up(&rt, Model::new(3), 1, profile, CHANGED_WHILE_LOST);
        plays_up(&rt, Model::new(3), 1, profile, WHILE_REPORTING);
    }
    Ok(())
}

// EULYNX: Handle and report Timeout with n-th Point machines with position change. Leg 0 arrives alone.
const ONE_OF_TWO: &[Line] = &[
    (MovePoint, 2, 0, "LL RR O - -"),
    (Sense, 0, 0, "NL RR - PN -"),
    (Tick, 0, 0, "NL RR - - -"),
    (Sense, 0, 2, "RL -R - - -"),
    (Tick, 0, 0, "RL -- X TO -"),
];

// EULYNX: Handle and report Timeout with n-th Point machines without position change.
const NONE_OF_TWO: &[Line] = &[
    (MovePoint, 2, 0, "LL RR O - -"),
    (Tick, 0, 0, "LL RR - - -"),
    (Tick, 0, 0, "LL -- X TO -"),
];

#[test]
fn timeouts_with_two_legs(rt: HostRuntime) -> Result<(), Fail> {
    plays_up(&rt, two_at_left()?, 2, 1, ONE_OF_TWO);
    plays_up(&rt, two_at_left()?, 2, 1, NONE_OF_TWO);
    Ok(())
}

#[test]
fn the_longest_limit_is_600_ticks(rt: HostRuntime) -> Result<(), Fail> {
    let mut point = point_up(&rt, wired_at(1)?, 600, 1);
    plays(&rt, &mut point, &[(MovePoint, 2, 0, "L R O - -")]);
    for _ in 1..600 {
        plays(&rt, &mut point, &[(Tick, 0, 0, "L R - - -")]);
    }
    plays(&rt, &mut point, &[(Tick, 0, 0, "L - X TO -")]);
    Ok(())
}
