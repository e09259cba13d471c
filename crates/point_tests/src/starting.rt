// The start of service, and what a point does before it.
use crate::playing::{Line, plays};
use layers::Pair;
use legs::{Drive, End, Position};
use machine::Machine;
use makes::{Model, Wired};
use point::Point;
use records::CallKind::*;

// Each is the first call of a new point: a limit in ticks, and a profile.
const SETTINGS: &[Line] = &[
    (StartService, 1, 0, "N - - - -"),
    (StartService, 600, 1, "N - - - -"),
    (StartService, 0, 0, "N - 4 - -"),
    (StartService, 601, 0, "N - 4 - -"),
    (StartService, 65535, 1, "N - 4 - -"),
    (StartService, 600, 2, "N - 4 - -"),
    (StartService, 1, 256, "N - 4 - -"),
    (StartService, 1, 65535, "N - 4 - -"),
    (StartService, 0, 2, "N - 4 - -"),
];

// A refused start can be made good. In service, no setting is looked at.
const STARTS: &[Line] = &[
    (StartService, 0, 1, "N - 4 - -"),
    (StartService, 3, 1, "N - - - -"),
    (StartService, 3, 1, "N - 2 - -"),
    (StartService, 0, 1, "N - 2 - -"),
    (StartService, 601, 2, "N - 2 - -"),
    (StartService, 65535, 65535, "N - 2 - -"),
];

#[test]
fn limits_and_profiles(rt: HostRuntime) {
    for line in SETTINGS {
        plays(&rt, &mut Point::new(Wired::new()), &[*line]);
    }
    plays(&rt, &mut Point::new(Wired::new()), STARTS);
}

const FIVE: &[Line] = &[
    (StartService, 600, 1, "NNNNN ----- - - -"),
    (Sense, 4, 1, "NNNNL ----- - - -"),
    (Sense, 5, 1, "NNNNL ----- 7 - -"),
];

// The legs are counted before the settings are looked at. A point of six never enters service, and its machine is left
// as it was.
const SIX: &[Line] = &[
    (StartService, 600, 1, "NNNNN RRRRR 3 - -"),
    (StartService, 0, 2, "NNNNN RRRRR 3 - -"),
    (Sense, 4, 1, "NNNNN RRRRR 1 - -"),
    (Tick, 0, 0, "NNNNN RRRRR 1 - -"),
];

type Two = Pair<Wired, Wired>;

fn two() -> Two {
    Pair::new(Wired::new(), Wired::new())
}

fn five() -> Pair<Pair<Two, Two>, Wired> {
    Pair::new(Pair::new(two(), two()), Wired::new())
}

#[test]
fn five_legs_and_six(rt: HostRuntime) {
    plays(&rt, &mut Point::new(five()), FIVE);
    let mut machine = Pair::new(five(), Model::new(3));
    machine.drive(End::Right);
    let mut six = Point::new(machine);
    plays(&rt, &mut six, SIX);
    let (_, sixth) = six.into_machine().into_parts();
    assert_eq!(rt; sixth.show(0), Position::Left);
    assert_eq!(rt; sixth.driven(0), Drive::Right);
}

// A model of travel 3 that is driven right already. No tick passes it, or it would leave its end.
// EULYNX: Set Initial State of Outputs. The start switches the leg off, and moves nothing.
const OUT_OF_SERVICE: &[Line] = &[
    (Tick, 0, 0, "L R 1 - -"),
    (CheckVersion, 3, 0, "L R 1 - -"),
    (ReportStatus, 0, 0, "L R 1 - -"),
    (FinishReport, 0, 0, "L R 1 - -"),
    (LoseConnection, 0, 0, "L R 1 - -"),
    (MovePoint, 1, 0, "L R 1 - -"),
    (MovePoint, 3, 0, "L R 1 - -"),
    (Sense, 0, 3, "L R 1 - -"),
    (Sense, 0, 4, "L R 1 - -"),
    (Sense, 1, 0, "L R 1 - -"),
    (StartService, 0, 0, "L R 4 - -"),
    (Tick, 0, 0, "L R 1 - -"),
    (StartService, 3, 0, "L - - - -"),
    (Tick, 0, 0, "L - - - -"),
];

#[test]
fn out_of_service_only_a_start_is_taken(rt: HostRuntime) {
    let mut model = Model::new(3);
    model.drive(End::Right);
    plays(&rt, &mut Point::new(model), OUT_OF_SERVICE);
}
