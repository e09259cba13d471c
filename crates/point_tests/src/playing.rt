// Plays tables of calls on a point, and compares what is seen after each.
use layers::Pair;
use machine::Machine;
use makes::Wired;
use point::Point;
use records::{Answer, Call, CallKind, Snapshot, Verdict};
use std::fmt;
use std::fmt::InlineText;
use std::process::Abort;
use std::test::Fail;

// A call with its two arguments, and what is seen after it: the positions of the legs, leg 0 first, their drives,
// the verdict and the two messages, by the letters that they have in every output.
pub type Line = (CallKind, u16, u16, &'static str);

// Five positions, five drives, a verdict, two messages and the blanks between them have 19 letters.
const ROOM: usize = 32;

#[derive(Clone, Copy)]
struct Seen {
    legs: Snapshot,
    answer: Answer,
}

impl fmt::Display for Seen {
    fn fmt<W: fmt::Write>(&self, f: &mut fmt::Formatter<W>) -> fmt::Result {
        for leg in self.legs.legs().into_iter().flatten() {
            write!(f, "{}", leg.shows)?;
        }
        write!(f, " ")?;
        for leg in self.legs.legs().into_iter().flatten() {
            write!(f, "{}", leg.driven)?;
        }
        let (verdict, first, second) = self.answer;
        write!(f, " {verdict} {first} {second}")
    }
}

// Compares what is seen after a call, which is the one in this line of its table.
pub fn check_seen<M: Machine>(
    rt: &impl Abort,
    line: usize,
    call: Call,
    point: &Point<M>,
    answer: Answer,
    expected: &str,
) {
    let legs = point.legs();
    assert_eq!(rt;
        InlineText::<ROOM>::of(Seen { legs, answer }).as_str(),
        expected,
        "line {line}, {call:?}"
    );
}

// A refused call changes nothing, whichever table it stands in.
fn play<M: Machine>(
    rt: &impl Abort,
    line: usize,
    point: &mut Point<M>,
    call: Call,
    expected: &str,
) {
    let state = point.state();
    let legs = point.legs();
    let answer = point.perform(call);
    check_seen(rt, line, call, point, answer, expected);
    if let (Verdict::Refused(_), _, _) = answer {
        assert_eq!(rt; point.state(), state, "line {line}, {call:?}");
        assert_eq!(rt; point.legs(), legs, "line {line}, {call:?}");
    }
}

pub fn plays<M: Machine>(rt: &impl Abort, point: &mut Point<M>, lines: &[Line]) {
    for (number, (kind, a, b, expected)) in lines.iter().enumerate() {
        let call = Call::new(*kind, *a, *b);
        play(rt, number, point, call, expected);
    }
}

// A new point over a machine, in service and with its connection up.
pub fn point_up<M: Machine + Drop>(
    rt: &impl Abort,
    machine: M,
    limit: u16,
    profile: u16,
) -> Point<M> {
    let mut point = Point::new(machine);
    point.start_service(limit, profile);
    point.check_version(3, 0);
    point.report_status(0, 0);
    point.finish_report(0, 0);
    assert!(rt; point.state().is_up());
    point
}

// The same, and then a table.
pub fn plays_up<M: Machine + Drop>(
    rt: &impl Abort,
    machine: M,
    limit: u16,
    profile: u16,
    lines: &[Line],
) {
    plays(rt, &mut point_up(rt, machine, limit, profile), lines);
}

// A wired leg that has read this word: 0, 1, 2 and 4 show N, L, R and T.
pub fn wired_at(word: u16) -> Result<Wired, Fail> {
    let mut wired = Wired::new();
    wired.read(0, word)?;
    Ok(wired)
}

// Two wired legs, both at the left end.
pub fn two_at_left() -> Result<Pair<Wired, Wired>, Fail> {
    Ok(Pair::new(wired_at(1)?, wired_at(1)?))
}
