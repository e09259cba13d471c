// A make that the point was not written for: its legs do what no motor should.
use crate::playing::{Line, plays_up, wired_at};
use crate::scripted::Scripted;
use layers::Pair;
use legs::Position::*;
use records::CallKind::*;
use std::test::Fail;

// From one end straight to the other, driven and not.
const JUMPS: &[Line] = &[
    (MovePoint, 2, 0, "L R O - -"),
    (Tick, 0, 0, "R - E PR -"),
    (Tick, 0, 0, "L - - PL -"),
    (Sense, 0, 9, "R - - PR -"),
    (Sense, 0, 10, "R - 8 - -"),
];

// Trailed in the middle of a movement, which goes on.
const TRAILED_ON_THE_WAY: &[Line] = &[
    (MovePoint, 2, 0, "L R O - -"),
    (Tick, 0, 0, "N R - PN -"),
    (Tick, 0, 0, "T R - PT -"),
    (Tick, 0, 0, "R - E PR -"),
];

// At an end that nobody drove it to, and then away from the end that it is driven to.
const UNASKED: &[Line] = &[
    (Tick, 0, 0, "R - - PR -"),
    (MovePoint, 2, 0, "R - A PR -"),
    (MovePoint, 1, 0, "R L O - -"),
    (Tick, 0, 0, "T L - PT -"),
    (Tick, 0, 0, "R L - PR -"),
    (Tick, 0, 0, "R - X TO -"),
];

// Beside a wired leg: there on the first tick, gone on the second, and back without a drive when the other is there.
const GONE_AND_BACK: &[Line] = &[
    (MovePoint, 2, 0, "LL RR O - -"),
    (Tick, 0, 0, "RL -R - PN -"),
    (Tick, 0, 0, "NL -R - - -"),
    (Sense, 1, 2, "NR -- - - -"),
    (Tick, 0, 0, "RR -- E PR -"),
];

#[test]
fn scripted_legs_are_taken_as_they_come(rt: HostRuntime) -> Result<(), Fail> {
    plays_up(&rt, Scripted::new(Left, Right, Left, Right), 3, 1, JUMPS);
    let trailed = Scripted::new(Left, NoEndPosition, Trailed, Right);
    plays_up(&rt, trailed, 3, 1, TRAILED_ON_THE_WAY);
    let unasked = Scripted::new(NoEndPosition, Right, Trailed, Right);
    plays_up(&rt, unasked, 3, 1, UNASKED);
    let gone_and_back = Scripted::new(Left, Right, NoEndPosition, Right);
    let two = Pair::new(gone_and_back, wired_at(1)?);
    plays_up(&rt, two, 3, 1, GONE_AND_BACK);
    Ok(())
}
