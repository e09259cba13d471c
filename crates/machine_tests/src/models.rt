// Models through whole throws.
use crate::checks::{refuses, shows};
use crate::throws::ticks_to;
use legs::{Drive, End, Position};
use machine::Machine;
use makes::Model;

// A travel as given, and the ticks that a throw then takes.
const TRAVELS: [(u16, u16); 6] = [(0, 1), (1, 1), (3, 3), (600, 600), (601, 600), (65535, 600)];

#[test]
fn throws_take_the_travel(rt: HostRuntime) {
    for (travel, ticks) in TRAVELS {
        let mut model = Model::new(travel);
        assert_eq!(rt; model.show(0), Position::Left);
        assert_eq!(rt; model.driven(0), Drive::Off);
        assert_eq!(rt; ticks_to(&mut model, End::Right, 1000), Some(ticks));
        assert_eq!(rt; ticks_to(&mut model, End::Left, 1000), Some(ticks));
        assert_eq!(rt; ticks_to(&mut model, End::Right, ticks - 1), None);
    }
}

#[test]
fn words_set_the_place(rt: HostRuntime) {
    for (travel, ticks) in TRAVELS {
        let mut model = Model::new(travel);
        shows(&rt, &mut model, 0, ticks, Position::Right);
        refuses(&rt, &mut model, 0, ticks + 1);
        refuses(&rt, &mut model, 0, 65535);
        shows(&rt, &mut model, 0, 0, Position::Left);
    }
    let mut model = Model::new(3);
    shows(&rt, &mut model, 0, 1, Position::NoEndPosition);
    shows(&rt, &mut model, 0, 2, Position::NoEndPosition);
}

#[test]
fn an_undriven_model_stays(rt: HostRuntime) {
    let mut model = Model::new(3);
    model.drive(End::Right);
    model.pass();
    model.halt();
    for _ in 0..5 {
        model.pass();
        assert_eq!(rt; model.show(0), Position::NoEndPosition);
    }
    assert_eq!(rt; ticks_to(&mut model, End::Left, 5), Some(1));
}

#[test]
fn a_reversal_turns_at_once(rt: HostRuntime) {
    let mut model = Model::new(4);
    assert_eq!(rt; ticks_to(&mut model, End::Right, 3), None);
    assert_eq!(rt; ticks_to(&mut model, End::Left, 3), Some(3));
    assert_eq!(rt; model.driven(0), Drive::Left);
    model.pass();
    assert_eq!(rt; model.show(0), Position::Left);
}
