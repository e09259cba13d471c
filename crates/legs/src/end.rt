// Where a point can be ordered to go.
ghost use Rattle.std.specs.Prelude.{◌≡◌, [], ◌∷◌, Some, ok_or};
ghost use Rattle.legs.specs.Crossing.{opposite_end};
ghost use Rattle.legs.specs.Ends.{end_asked, no_such_end};
ghost use Rattle.legs.specs.Letters.{end_letter};
ghost use Rattle.std.proofs.Common.{rules};

use crate::lettered::Lettered;
use crate::sided::Sided;
use std::fmt;

#[derive(Clone, Copy, PartialEq, Eq, Debug)]
pub enum End {
    Left,
    Right,
}

// A number that names no end.
#[derive(Clone, Copy, PartialEq, Eq, Debug)]
pub struct NoSuchEnd;

// The end that the argument of an order names.
impl TryFrom<u16> for End {
    type Error = NoSuchEnd;

    ghost try_from_gives = { λ number r. r ≡ ok_or (end_asked number) no_such_end };

    fn try_from(number: u16) -> Result<End, NoSuchEnd> {
        match number {
            1 => Ok(End::Left),
            2 => Ok(End::Right),
            _ => Err(NoSuchEnd),
        }
    }
}

impl Lettered for End {
    ghost letter_of = { end_letter };

    ghost told_apart = { Prim.search rules };

    fn letter(self) -> char {
        match self {
            End::Left => 'L',
            End::Right => 'R',
        }
    }
}

impl Sided for End {
    ghost opposite_of = { opposite_end };

    ghost undone = { Prim.search rules };

    fn opposite(self) -> End {
        match self {
            End::Left => End::Right,
            End::Right => End::Left,
        }
    }
}

impl fmt::Display for End {
    ghost output = { λ x. Some (end_letter x ∷ []) };

    fn fmt<W: fmt::Write>(&self, f: &mut fmt::Formatter<W>) -> fmt::Result {
        f.write_char(self.letter())
    }
}
