// Words from the detectors, and the positions that they make the point report.
use crate::playing::{Line, plays_up, two_at_left, wired_at};
use records::CallKind::*;
use std::test::Fail;

// The leg is looked at before the word. After the reversal the leg is where it is driven: each word that is taken has
// it judged and switched off, and a refused one does not.
const REFUSED: &[Line] = &[
    (Sense, 1, 1, "L - 7 - -"),
    (Sense, 5, 1, "L - 7 - -"),
    (Sense, 256, 1, "L - 7 - -"),
    (Sense, 65535, 1, "L - 7 - -"),
    (Sense, 1, 3, "L - 7 - -"),
    (Sense, 0, 3, "L - 8 - -"),
    (Sense, 0, 8, "L - 8 - -"),
    (Sense, 0, 258, "L - 8 - -"),
    (MovePoint, 2, 0, "L R O - -"),
    (MovePoint, 1, 0, "L L V - -"),
    (Sense, 1, 1, "L L 7 - -"),
    (Sense, 0, 3, "L L 8 - -"),
    (Sense, 0, 1, "L - E PL -"),
];

#[test]
fn refused_words_are_not_judged(rt: HostRuntime) -> Result<(), Fail> {
    plays_up(&rt, wired_at(1)?, 3, 1, REFUSED);
    Ok(())
}

// EULYNX: Handle and report No end position.
const NO_END_POSITION: &[Line] = &[
    (Sense, 0, 0, "N - - PN -"),
    (Sense, 0, 0, "N - - - -"),
    (Tick, 0, 0, "N - - - -"),
];

// EULYNX: Handle and report Trailed Position. A second trailed word is no change.
const TRAILED_POSITION: &[Line] = &[
    (Sense, 0, 4, "T - - PT -"),
    (Sense, 0, 7, "T - - - -"),
    (Sense, 0, 0, "N - - PN -"),
];

// EULYNX: Handle and report End Position, from no end position, from trailed and from the other end.
const END_POSITION: &[Line] = &[
    (Sense, 0, 1, "L - - PL -"),
    (Sense, 0, 4, "T - - PT -"),
    (Sense, 0, 1, "L - - PL -"),
    (Sense, 0, 2, "R - - PR -"),
    (Tick, 0, 0, "R - - - -"),
];

// In profile 0 trailed is told as no end position, and the two are one.
const IN_PROFILE_0: &[Line] = &[
    (Sense, 0, 4, "T - - PN -"),
    (Sense, 0, 0, "N - - - -"),
    (Sense, 0, 5, "T - - - -"),
    (Sense, 0, 1, "L - - PL -"),
];

// One leg makes the whole point trailed, and two legs at different ends are at none.
const OF_TWO_LEGS: &[Line] = &[
    (Sense, 1, 2, "LR -- - PN -"),
    (Sense, 0, 6, "TR -- - PT -"),
    (Sense, 1, 1, "TL -- - - -"),
    (Sense, 0, 1, "LL -- - PL -"),
];

#[test]
fn positions_are_reported(rt: HostRuntime) -> Result<(), Fail> {
    plays_up(&rt, wired_at(1)?, 3, 1, NO_END_POSITION);
    plays_up(&rt, wired_at(1)?, 3, 1, TRAILED_POSITION);
    plays_up(&rt, wired_at(0)?, 3, 1, END_POSITION);
    plays_up(&rt, wired_at(1)?, 3, 0, IN_PROFILE_0);
    plays_up(&rt, two_at_left()?, 3, 1, OF_TWO_LEGS);
    Ok(())
}
