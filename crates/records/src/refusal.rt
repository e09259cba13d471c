// Why a point refuses a call.
ghost use Rattle.std.specs.Prelude.{◌≡◌};
ghost use Rattle.records.specs.Refusals.{read_refused, refusal_number};
ghost use Rattle.std.proofs.Common.{rules};
ghost use Rattle.records.specs.declared.refusal.Refusal.TheVariants as refusal;

use legs::{NoSuchEnd, Numbered, ReadRefusal};

#[derive(Clone, Copy, PartialEq, Eq, Debug)]
pub enum Refusal {
    OutOfService = 1,
    AlreadyInService = 2,
    TooManyLegs = 3,
    UnusableSettings = 4,
    WrongConnection = 5,
    NoSuchEnd = 6,
    MissingLeg = 7,
    UnreadableWord = 8,
}

impl Numbered for Refusal {
    ghost number_of = { refusal_number };

    ghost told_apart = { Prim.search rules };

    fn number(self) -> u8 {
        self as u8
    }
}

// What the point answers where its machine did not take a word.
impl From<ReadRefusal> for Refusal {
    ghost from_gives = { λ e r. r ≡ read_refused e };

    fn from(refusal: ReadRefusal) -> Refusal {
        match refusal {
            ReadRefusal::MissingLeg => Refusal::MissingLeg,
            ReadRefusal::UnreadableWord => Refusal::UnreadableWord,
        }
    }
}

// And where an order names no end.
impl From<NoSuchEnd> for Refusal {
    ghost from_gives = { λ _ r. r ≡ refusal.NoSuchEnd };

    fn from(_none: NoSuchEnd) -> Refusal {
        Refusal::NoSuchEnd
    }
}
