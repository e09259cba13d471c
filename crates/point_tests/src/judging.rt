// Four rules that are easily read another way.
use crate::playing::{Line, plays_up, two_at_left, wired_at};
use layers::{Crossed, Pair};
use machine::Machine;
use makes::Model;
use records::CallKind::*;
use std::test::Fail;

const REPEATED: &[Line] = &[
    (MovePoint, 2, 0, "L R O - -"),
    (Tick, 0, 0, "L R - - -"),
    (MovePoint, 2, 0, "L R G - -"),
    (Tick, 0, 0, "L - X TO -"),
];

#[test]
fn a_repeated_order_does_not_restart_the_clock(rt: HostRuntime) -> Result<(), Fail> {
    plays_up(&rt, wired_at(1)?, 2, 1, REPEATED);
    Ok(())
}

// Leg 0 was there and is off. It leaves the end again, and neither a tick nor the same order drives it anew.
const LOST_AGAIN: &[Line] = &[
    (MovePoint, 2, 0, "LL RR O - -"),
    (Sense, 0, 2, "RL -R - PN -"),
    (Sense, 0, 0, "NL -R - - -"),
    (Tick, 0, 0, "NL -R - - -"),
    (MovePoint, 2, 0, "NL -R G - -"),
    (Sense, 1, 2, "NR -- - - -"),
    (MovePoint, 1, 0, "NR LL V - -"),
    (Sense, 0, 1, "LR -L - - -"),
    (Sense, 1, 1, "LL -- E PL -"),
];

#[test]
fn a_leg_that_left_its_end_again_stays_off_until_a_reversal(rt: HostRuntime) -> Result<(), Fail> {
    plays_up(&rt, two_at_left()?, 9, 1, LOST_AGAIN);
    Ok(())
}

const ON_THE_LAST_TICK: &[Line] = &[
    (MovePoint, 2, 0, "L R O - -"),
    (Tick, 0, 0, "R - E PR -"),
    (Tick, 0, 0, "R - - - -"),
];

#[test]
fn an_arrival_on_the_last_tick_is_an_arrival(rt: HostRuntime) {
    plays_up(&rt, Model::new(1), 1, 1, ON_THE_LAST_TICK);
}

const ONE_AFTER_ANOTHER: &[Line] = &[
    (MovePoint, 2, 0, "LLL RRR O - -"),
    (Tick, 0, 0, "RNN -RR - PN -"),
    (Tick, 0, 0, "RNR -R- - - -"),
    (Tick, 0, 0, "RRR --- E PR -"),
];

// Three models of travel 1, 3 and 2. The last is crossed, and its word 2 puts it to its left end.
#[test]
fn each_leg_is_switched_off_when_it_is_there(rt: HostRuntime) -> Result<(), Fail> {
    let crossed = Crossed::new(Model::new(2));
    let mut three = Pair::new(Model::new(1), Pair::new(Model::new(3), crossed));
    three.read(2, 2)?;
    plays_up(&rt, three, 3, 1, ONE_AFTER_ANOTHER);
    Ok(())
}
