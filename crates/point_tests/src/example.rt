// Fifteen calls over a wired leg and a model of travel 2, from the start of service to a timeout.
use crate::playing::{Line, check_seen, plays};
use layers::Pair;
use machine::Machine;
use makes::{Model, Wired};
use point::Point;
use records::CallKind::*;
use records::{Answer, Call};

const FIFTEEN: &[Line] = &[
    (StartService, 3, 1, "NL -- - - -"),
    (CheckVersion, 3, 0, "NL -- - V1 -"),
    (ReportStatus, 0, 0, "NL -- - SI PN"),
    (FinishReport, 0, 0, "NL -- - IC -"),
    (Sense, 0, 1, "LL -- - PL -"),
    (MovePoint, 1, 0, "LL -- A PL -"),
    (MovePoint, 2, 0, "LL RR O - -"),
    (Tick, 0, 0, "LN RR - PN -"),
    (Sense, 0, 2, "RN -R - - -"),
    (Sense, 0, 3, "RN -R 8 - -"),
    (Tick, 0, 0, "RR -- E PR -"),
    (MovePoint, 1, 0, "RR LL O - -"),
    (Tick, 0, 0, "RN LL - PN -"),
    (Tick, 0, 0, "RL L- - - -"),
    (Tick, 0, 0, "RL -- X TO -"),
];

#[test]
fn fifteen_calls(rt: HostRuntime) {
    let mut point = Point::new(Pair::new(Wired::new(), Model::new(2)));
    plays(&rt, &mut point, FIFTEEN);
}

fn call_by_name<M: Machine>(point: &mut Point<M>, call: Call) -> Answer {
    let Call { kind, a, b } = call;
    match kind {
        StartService => point.start_service(a, b),
        CheckVersion => point.check_version(a, b),
        ReportStatus => point.report_status(a, b),
        FinishReport => point.finish_report(a, b),
        LoseConnection => point.lose_connection(a, b),
        MovePoint => point.move_point(a, b),
        Sense => point.sense(a, b),
        Tick => point.tick(a, b),
    }
}

// The same calls, each by its own method, and the one that is not among them.
#[test]
fn fifteen_calls_by_their_names(rt: HostRuntime) {
    let mut point = Point::new(Pair::new(Wired::new(), Model::new(2)));
    for (number, (kind, a, b, expected)) in FIFTEEN.iter().enumerate() {
        let call = Call::new(*kind, *a, *b);
        let answer = call_by_name(&mut point, call);
        check_seen(&rt, number, call, &point, answer, expected);
    }
    let call = Call::new(LoseConnection, 0, 0);
    let answer = call_by_name(&mut point, call);
    check_seen(&rt, FIFTEEN.len(), call, &point, answer, "RL -- - - -");
    assert!(rt; !point.state().is_up());
}
