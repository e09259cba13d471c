// The connection to the interlocking.
use crate::playing::{Line, plays, point_up, wired_at};
use legs::Position;
use makes::Wired;
use point::Point;
use records::CallKind::*;
use std::test::Fail;

// Every step in every state. An order to no end is refused for the connection first.
const STEPS: &[Line] = &[
    (StartService, 3, 1, "N - - - -"),
    // down
    (LoseConnection, 0, 0, "N - - - -"),
    (ReportStatus, 0, 0, "N - 5 - -"),
    (FinishReport, 0, 0, "N - 5 - -"),
    (MovePoint, 1, 0, "N - 5 - -"),
    (MovePoint, 3, 0, "N - 5 - -"),
    (CheckVersion, 2, 3, "N - - V0 -"),
    (CheckVersion, 259, 0, "N - - V0 -"),
    (ReportStatus, 0, 0, "N - 5 - -"),
    (CheckVersion, 3, 9, "N - - V1 -"),
    // checked
    (CheckVersion, 3, 0, "N - 5 - -"),
    (CheckVersion, 2, 0, "N - 5 - -"),
    (FinishReport, 0, 0, "N - 5 - -"),
    (MovePoint, 2, 0, "N - 5 - -"),
    (MovePoint, 0, 0, "N - 5 - -"),
    (LoseConnection, 3, 0, "N - - - -"),
    (ReportStatus, 0, 0, "N - 5 - -"),
    (CheckVersion, 3, 0, "N - - V1 -"),
    (ReportStatus, 7, 65535, "N - - SI PN"),
    // reporting
    (CheckVersion, 3, 0, "N - 5 - -"),
    (ReportStatus, 0, 0, "N - 5 - -"),
    (MovePoint, 1, 0, "N - 5 - -"),
    (MovePoint, 65535, 0, "N - 5 - -"),
    (LoseConnection, 0, 0, "N - - - -"),
    (FinishReport, 0, 0, "N - 5 - -"),
    (CheckVersion, 3, 0, "N - - V1 -"),
    (ReportStatus, 0, 0, "N - - SI PN"),
    (FinishReport, 65535, 7, "N - - IC -"),
    // up
    (CheckVersion, 3, 0, "N - 5 - -"),
    (CheckVersion, 4, 0, "N - 5 - -"),
    (ReportStatus, 0, 0, "N - 5 - -"),
    (FinishReport, 0, 0, "N - 5 - -"),
    (LoseConnection, 0, 0, "N - - - -"),
    (MovePoint, 1, 0, "N - 5 - -"),
];

#[test]
fn each_step_has_its_state(rt: HostRuntime) {
    plays(&rt, &mut Point::new(Wired::new()), STEPS);
}

// EULYNX: Report status. At an end, trailed, and at no end position. What changes between the report and its end is
// told once more, by its value then; before the connection is up no other change is told.
const REPORT_STATUS: &[Line] = &[
    (StartService, 3, 1, "N - - - -"),
    (Sense, 0, 1, "L - - - -"),
    (CheckVersion, 3, 0, "L - - V1 -"),
    (ReportStatus, 0, 0, "L - - SI PL"),
    (FinishReport, 0, 0, "L - - IC -"),
    (LoseConnection, 0, 0, "L - - - -"),
    (CheckVersion, 3, 0, "L - - V1 -"),
    (Sense, 0, 4, "T - - - -"),
    (ReportStatus, 0, 0, "T - - SI PT"),
    (Sense, 0, 0, "N - - - -"),
    (FinishReport, 0, 0, "N - - IC PN"),
    (Sense, 0, 0, "N - - - -"),
    (LoseConnection, 0, 0, "N - - - -"),
    (CheckVersion, 3, 0, "N - - V1 -"),
    (ReportStatus, 0, 0, "N - - SI PN"),
    (Sense, 0, 1, "L - - - -"),
    (Tick, 0, 0, "L - - - -"),
    (Sense, 0, 0, "N - - - -"),
    (FinishReport, 0, 0, "N - - IC -"),
    (Sense, 0, 2, "R - - PR -"),
];

// In profile 0 a trailed leg is at no end position, so that from the one to the other is no change.
const REPORT_IN_PROFILE_0: &[Line] = &[
    (StartService, 3, 0, "N - - - -"),
    (Sense, 0, 4, "T - - - -"),
    (CheckVersion, 3, 0, "T - - V1 -"),
    (ReportStatus, 0, 0, "T - - SI PN"),
    (Sense, 0, 0, "N - - - -"),
    (FinishReport, 0, 0, "N - - IC -"),
    (Sense, 0, 7, "T - - - -"),
];

#[test]
fn report_status(rt: HostRuntime) {
    plays(&rt, &mut Point::new(Wired::new()), REPORT_STATUS);
    plays(&rt, &mut Point::new(Wired::new()), REPORT_IN_PROFILE_0);
}

const LOST_AND_MOVED: &[Line] = &[
    (LoseConnection, 0, 0, "L - - - -"),
    (Sense, 0, 2, "R - - - -"),
    (CheckVersion, 3, 0, "R - - V1 -"),
];

#[test]
fn what_was_told_is_kept_over_a_loss(rt: HostRuntime) -> Result<(), Fail> {
    let mut point = point_up(&rt, wired_at(1)?, 3, 1);
    plays(&rt, &mut point, LOST_AND_MOVED);
    assert_eq!(rt; point.state().told, Some(Position::Left));
    plays(&rt, &mut point, &[(ReportStatus, 0, 0, "R - - SI PR")]);
    assert_eq!(rt; point.state().told, Some(Position::Right));
    Ok(())
}
