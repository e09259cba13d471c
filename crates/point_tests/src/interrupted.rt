// A connection that is lost on the way: the movement runs on, and nothing is told.
use crate::playing::{Line, plays_up, wired_at};
use records::CallKind::*;
use std::test::Fail;

// EULYNX: Moving Point when safe communication protocol-connection is interrupted directly after the position has been
// commanded.
const DIRECTLY_AFTER_THE_ORDER: &[Line] = &[
    (MovePoint, 2, 0, "L R O - -"),
    (LoseConnection, 0, 0, "L R - - -"),
    (Sense, 0, 0, "N R - - -"),
    (Sense, 0, 2, "R - E - -"),
];

// EULYNX: Moving Point when safe communication protocol-connection is interrupted.
const ON_THE_WAY: &[Line] = &[
    (MovePoint, 2, 0, "L R O - -"),
    (Sense, 0, 0, "N R - PN -"),
    (LoseConnection, 0, 0, "N R - - -"),
    (MovePoint, 1, 0, "N R 5 - -"),
    (Sense, 0, 2, "R - E - -"),
    (CheckVersion, 3, 0, "R - - V1 -"),
    (ReportStatus, 0, 0, "R - - SI PR"),
    (FinishReport, 0, 0, "R - - IC -"),
];

// EULYNX: Handling of interrupted safe communication protocol-connection.
const NOT_MOVING: &[Line] = &[
    (LoseConnection, 0, 0, "L - - - -"),
    (MovePoint, 2, 0, "L - 5 - -"),
    (Sense, 0, 0, "N - - - -"),
    (Tick, 0, 0, "N - - - -"),
];

// The connection is made again before the movement is over: it is the same movement.
const MADE_AGAIN: &[Line] = &[
    (MovePoint, 2, 0, "L R O - -"),
    (LoseConnection, 0, 0, "L R - - -"),
    (CheckVersion, 3, 0, "L R - V1 -"),
    (Tick, 0, 0, "L R - - -"),
    (ReportStatus, 0, 0, "L R - SI PL"),
    (Sense, 0, 0, "N R - - -"),
    (FinishReport, 0, 0, "N R - IC PN"),
    (MovePoint, 2, 0, "N R G - -"),
    (Tick, 0, 0, "N R - - -"),
    (Tick, 0, 0, "N - X TO -"),
];

// There while the connection only reports: the end of the report tells it.
const THERE_WHILE_REPORTING: &[Line] = &[
    (MovePoint, 2, 0, "L R O - -"),
    (LoseConnection, 0, 0, "L R - - -"),
    (CheckVersion, 3, 0, "L R - V1 -"),
    (ReportStatus, 0, 0, "L R - SI PL"),
    (Sense, 0, 2, "R - E - -"),
    (FinishReport, 0, 0, "R - - IC PR"),
];

#[test]
fn interrupted_connections(rt: HostRuntime) -> Result<(), Fail> {
    plays_up(&rt, wired_at(1)?, 3, 1, DIRECTLY_AFTER_THE_ORDER);
    plays_up(&rt, wired_at(1)?, 3, 1, ON_THE_WAY);
    plays_up(&rt, wired_at(1)?, 3, 1, NOT_MOVING);
    plays_up(&rt, wired_at(1)?, 3, 1, MADE_AGAIN);
    plays_up(&rt, wired_at(1)?, 3, 1, THERE_WHILE_REPORTING);
    Ok(())
}
