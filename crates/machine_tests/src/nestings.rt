// Pairs of one to seven legs in both nestings.
ghost use Rattle.std.specs.Prelude.{◌≡◌};
ghost use Rattle.layers.specs.Pair.{pair};
ghost use Rattle.makes.specs.Wired.{new_wired};

use crate::checks::{misses, shows};
use layers::Pair;
use legs::{Drive, End, Position};
use machine::Machine;
use makes::{Model, Wired};
use std::process::Abort;

type Two = Pair<Wired, Wired>;

type LeftFour = Pair<Pair<Two, Wired>, Wired>;

type RightFour = Pair<Wired, Pair<Wired, Two>>;

fn two() -> Two
    ensures { result ≡ pair new_wired new_wired }
{
    Pair::new(Wired::new(), Wired::new())
}

fn left_four() -> LeftFour {
    Pair::new(Pair::new(two(), Wired::new()), Wired::new())
}

fn right_four() -> RightFour {
    Pair::new(Wired::new(), Pair::new(Wired::new(), two()))
}

// The count, and that each known leg takes its word and is switched off by itself.
fn has_legs<M: Machine>(rt: &impl Abort, machine: &mut M, legs: u16) {
    assert_eq!(rt; machine.count(), legs.min(6));
    for leg in 0..legs.min(5) {
        one_leg_alone(rt, machine, leg, legs.min(5));
    }
    for leg in [legs.min(5), 5, 6, 256, 65535] {
        misses(rt, machine, leg, 1);
    }
}

// Of so many legs, only this one takes its word and is switched off.
fn one_leg_alone<M: Machine>(rt: &impl Abort, machine: &mut M, leg: u16, legs: u16) {
    for other in 0..legs {
        shows(rt, machine, other, 1, Position::Left);
    }
    machine.drive(End::Right);
    shows(rt, machine, leg, 4, Position::Trailed);
    machine.switch_off(leg);
    for other in 0..legs {
        let is_it = other == leg;
        assert_eq!(rt; machine.show(other) == Position::Trailed, is_it);
        assert_eq!(rt; machine.driven(other) == Drive::Off, is_it);
    }
    machine.halt();
    assert_eq!(rt; machine.driven(0), Drive::Off);
}

#[test]
fn one_to_four_legs(rt: HostRuntime) {
    has_legs(&rt, &mut Wired::new(), 1);
    has_legs(&rt, &mut two(), 2);
    has_legs(&rt, &mut Pair::new(two(), Wired::new()), 3);
    has_legs(&rt, &mut Pair::new(Wired::new(), two()), 3);
    has_legs(&rt, &mut left_four(), 4);
    has_legs(&rt, &mut right_four(), 4);
}

#[test]
fn five_to_seven_legs_nested_left(rt: HostRuntime) {
    has_legs(&rt, &mut Pair::new(left_four(), Wired::new()), 5);
    has_legs(
        &rt,
        &mut Pair::new(Pair::new(left_four(), Wired::new()), Wired::new()),
        6,
    );
    has_legs(
        &rt,
        &mut Pair::new(
            Pair::new(Pair::new(left_four(), Wired::new()), Wired::new()),
            Wired::new(),
        ),
        7,
    );
}

#[test]
fn five_to_seven_legs_nested_right(rt: HostRuntime) {
    has_legs(&rt, &mut Pair::new(Wired::new(), right_four()), 5);
    has_legs(
        &rt,
        &mut Pair::new(Wired::new(), Pair::new(Wired::new(), right_four())),
        6,
    );
    has_legs(
        &rt,
        &mut Pair::new(
            Wired::new(),
            Pair::new(Wired::new(), Pair::new(Wired::new(), right_four())),
        ),
        7,
    );
}

// Legs 5 and 6 cannot be asked for, but what is done to all legs reaches them.
#[test]
fn all_legs_of_seven(rt: HostRuntime) {
    let models = Pair::new(Model::new(1), Model::new(2));
    let mut seven = Pair::new(Pair::new(left_four(), Wired::new()), models);
    assert_eq!(rt; seven.count(), 6);
    seven.drive(End::Right);
    seven.pass();
    seven.switch_off(5);
    seven.switch_off(6);
    let (five, models) = seven.into_parts();
    assert_eq!(rt; models.show(0), Position::Right);
    assert_eq!(rt; models.show(1), Position::NoEndPosition);
    assert_eq!(rt; models.driven(0), Drive::Right);
    assert_eq!(rt; models.driven(1), Drive::Right);
    let mut seven = Pair::new(five, models);
    seven.halt();
    let (_, models) = seven.into_parts();
    assert_eq!(rt; models.driven(0), Drive::Off);
    assert_eq!(rt; models.driven(1), Drive::Off);
}
