// What came of a call.
ghost use Rattle.std.specs.Prelude.{◌≡◌, [], ◌∷◌, Some};
ghost use Rattle.records.specs.Verdicts.{verdict_letter};
ghost use Rattle.std.proofs.Common.{rules};

use crate::refusal::Refusal;
use legs::{Lettered, Numbered};
use std::fmt;

#[derive(Clone, Copy, PartialEq, Eq, Debug)]
pub enum Verdict {
    Plain,
    AlreadyThere,
    Opened,
    AlreadyMoving,
    Reversed,
    Arrived,
    TimedOut,
    Refused(Refusal),
}

// A refusal has its digit.
impl Lettered for Verdict {
    ghost letter_of = { verdict_letter };

    ghost told_apart = { Prim.search rules };

    fn letter(self) -> char {
        match self {
            Verdict::Plain => '-',
            Verdict::AlreadyThere => 'A',
            Verdict::Opened => 'O',
            Verdict::AlreadyMoving => 'G',
            Verdict::Reversed => 'V',
            Verdict::Arrived => 'E',
            Verdict::TimedOut => 'X',
            Verdict::Refused(refusal) => (b'0' + refusal.number()) as char,
        }
    }
}

impl fmt::Display for Verdict {
    ghost output = { λ x. Some (verdict_letter x ∷ []) };

    fn fmt<W: fmt::Write>(&self, f: &mut fmt::Formatter<W>) -> fmt::Result {
        f.write_char(self.letter())
    }
}
