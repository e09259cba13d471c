// Why a machine does not take a word.
ghost use Rattle.legs.specs.Refusals.{read_refusal_number};
ghost use Rattle.std.proofs.Common.{rules};

use crate::numbered::Numbered;

#[derive(Clone, Copy, PartialEq, Eq, Debug)]
pub enum ReadRefusal {
    MissingLeg = 7,
    UnreadableWord = 8,
}

impl Numbered for ReadRefusal {
    ghost number_of = { read_refusal_number };

    ghost told_apart = { Prim.search rules };

    fn number(self) -> u8 {
        self as u8
    }
}
