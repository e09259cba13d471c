// What the tests ask of a leg again and again.
use legs::{Drive, Position, ReadRefusal};
use machine::Machine;
use std::process::Abort;

const UNREADABLE: Result<(), ReadRefusal> = Err(ReadRefusal::UnreadableWord);

const MISSING: Result<(), ReadRefusal> = Err(ReadRefusal::MissingLeg);

// The leg reads the word, and then shows this.
pub fn shows<M: Machine>(
    rt: &impl Abort,
    machine: &mut M,
    leg: u16,
    word: u16,
    position: Position,
) {
    assert_eq!(rt; machine.read(leg, word), Ok(()));
    assert_eq!(rt; machine.show(leg), position);
}

// The leg does not read the word, and shows what it showed.
pub fn refuses<M: Machine>(rt: &impl Abort, machine: &mut M, leg: u16, word: u16) {
    let before = machine.show(leg);
    assert_eq!(rt; machine.read(leg, word), UNREADABLE);
    assert_eq!(rt; machine.show(leg), before);
}

// There is no such leg, whatever the word.
pub fn misses<M: Machine>(rt: &impl Abort, machine: &mut M, leg: u16, word: u16) {
    assert_eq!(rt; machine.read(leg, word), MISSING);
    assert_eq!(rt; machine.show(leg), Position::NoEndPosition);
    assert_eq!(rt; machine.driven(leg), Drive::Off);
}
