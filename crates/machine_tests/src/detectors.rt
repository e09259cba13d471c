// What the words of a detector show, and which words and legs are refused.
ghost use Rattle.std.specs.Prelude.{◌≡◌};
ghost use Rattle.makes.specs.Coded.{new_coded};
ghost use Rattle.makes.specs.Wired.{new_wired};

use crate::checks::{misses, refuses, shows};
use legs::{Drive, Numbered, Position, ReadRefusal};
use machine::Machine;
use makes::{Coded, Wired};

// The one constructor of all detectors, at each of the two.
fn new_wired() -> Wired
    ensures { result ≡ new_wired }
{
    Wired::new()
}

fn new_coded() -> Coded
    ensures { result ≡ new_coded }
{
    Coded::new()
}

#[test]
fn wired_words(rt: HostRuntime) {
    let mut wired = new_wired();
    assert_eq!(rt; wired.show(0), Position::NoEndPosition);
    shows(&rt, &mut wired, 0, 1, Position::Left);
    refuses(&rt, &mut wired, 0, 3);
    shows(&rt, &mut wired, 0, 2, Position::Right);
    for word in 4..8 {
        shows(&rt, &mut wired, 0, word, Position::Trailed);
    }
    for word in [3, 8, 256, 257, 258, 260, 65535] {
        refuses(&rt, &mut wired, 0, word);
    }
    shows(&rt, &mut wired, 0, 0, Position::NoEndPosition);
}

#[test]
fn coded_words(rt: HostRuntime) {
    let mut coded = new_coded();
    assert_eq!(rt; coded.show(0), Position::NoEndPosition);
    let table = [
        (510, Position::Left),
        (765, Position::Right),
        (1020, Position::Trailed),
        (255, Position::NoEndPosition),
    ];
    for (word, position) in table {
        shows(&rt, &mut coded, 0, word, position);
        refuses(&rt, &mut coded, 0, word - 1);
        refuses(&rt, &mut coded, 0, word + 1);
    }
    for word in [0, 1, 2, 4, 254, 1275, 65280, 65535] {
        refuses(&rt, &mut coded, 0, word);
    }
}

#[test]
fn detectors_stay_where_they_are(rt: HostRuntime) {
    let mut wired = new_wired();
    shows(&rt, &mut wired, 0, 1, Position::Left);
    wired.drive(legs::End::Right);
    wired.pass();
    assert_eq!(rt; wired.show(0), Position::Left);
    assert_eq!(rt; wired.driven(0), Drive::Right);
    let mut coded = new_coded();
    shows(&rt, &mut coded, 0, 765, Position::Right);
    coded.drive(legs::End::Left);
    coded.pass();
    assert_eq!(rt; coded.show(0), Position::Right);
    assert_eq!(rt; coded.driven(0), Drive::Left);
}

#[test]
fn missing_legs(rt: HostRuntime) {
    let mut wired = new_wired();
    wired.drive(legs::End::Left);
    for leg in [1, 4, 5, 256, 65535] {
        misses(&rt, &mut wired, leg, 1);
        misses(&rt, &mut wired, leg, 3);
        wired.switch_off(leg);
        assert_eq!(rt; wired.driven(0), Drive::Left);
    }
    assert_eq!(rt; wired.show(0), Position::NoEndPosition);
}

#[test]
fn refusal_numbers(rt: HostRuntime) {
    assert_eq!(rt; ReadRefusal::MissingLeg.number(), 7);
    assert_eq!(rt; ReadRefusal::UnreadableWord.number(), 8);
}
