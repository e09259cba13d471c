// Crossed machines: once, twice and over a pair.
use crate::checks::{misses, refuses, shows};
use crate::throws::ticks_to;
use layers::{Crossed, Pair};
use legs::{Drive, End, Position};
use machine::Machine;
use makes::{Model, Wired};

#[test]
fn crossed_once(rt: HostRuntime) {
    let mut crossed = Crossed::new(Wired::new());
    assert_eq!(rt; crossed.count(), 1);
    let table = [
        (1, Position::Right),
        (2, Position::Left),
        (4, Position::Trailed),
        (0, Position::NoEndPosition),
    ];
    for (word, position) in table {
        shows(&rt, &mut crossed, 0, word, position);
    }
    refuses(&rt, &mut crossed, 0, 3);
    misses(&rt, &mut crossed, 1, 1);
    crossed.drive(End::Left);
    assert_eq!(rt; crossed.driven(0), Drive::Left);
    assert_eq!(rt; crossed.into_below().driven(0), Drive::Right);
}

#[test]
fn crossed_twice_is_as_mounted(rt: HostRuntime) {
    let mut plain = Wired::new();
    let mut twice = Crossed::new(Crossed::new(Wired::new()));
    for word in 0..9 {
        assert_eq!(rt; twice.read(0, word), plain.read(0, word));
        assert_eq!(rt; twice.show(0), plain.show(0));
    }
    for end in [End::Left, End::Right] {
        twice.drive(end);
        assert_eq!(rt; twice.driven(0), Drive::from(end));
    }
    twice.halt();
    assert_eq!(rt; twice.driven(0), Drive::Off);
}

#[test]
fn a_crossed_pair_throws_the_other_way(rt: HostRuntime) {
    let mut crossed = Crossed::new(Pair::new(Model::new(2), Model::new(5)));
    assert_eq!(rt; crossed.show(0), Position::Right);
    assert_eq!(rt; crossed.show(1), Position::Right);
    assert_eq!(rt; ticks_to(&mut crossed, End::Left, 9), Some(5));
    crossed.switch_off(0);
    assert_eq!(rt; crossed.driven(0), Drive::Off);
    assert_eq!(rt; crossed.driven(1), Drive::Left);
    assert_eq!(rt; ticks_to(&mut crossed, End::Right, 4), None);
    assert_eq!(rt; ticks_to(&mut crossed, End::Right, 1), Some(1));
}
