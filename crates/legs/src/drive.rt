// What the motor of a leg is commanded to do.
ghost use Rattle.std.specs.Prelude.{◌≡◌, [], ◌∷◌, Some};
ghost use Rattle.legs.specs.Crossing.{opposite_drive};
ghost use Rattle.legs.specs.Ends.{drive_towards, reached};
ghost use Rattle.legs.specs.Letters.{drive_letter};
ghost use Rattle.std.proofs.Common.{rules};

use crate::end::End;
use crate::lettered::Lettered;
use crate::position::Position;
use crate::sided::Sided;
use std::fmt;

#[derive(Clone, Copy, PartialEq, Eq, Debug)]
pub enum Drive {
    Left,
    Right,
    Off,
}

impl Drive {
    // Whether a leg that shows this position is where this drive moves it.
    pub fn has_reached(self, shown: Position) -> bool
        ensures { result ≡ reached self shown }
    {
        matches!(
            (self, shown),
            (Drive::Left, Position::Left) | (Drive::Right, Position::Right)
        )
    }
}

// The drive that moves a leg to an end.
impl From<End> for Drive {
    ghost from_gives = { λ e d. d ≡ drive_towards e };

    fn from(end: End) -> Drive {
        match end {
            End::Left => Drive::Left,
            End::Right => Drive::Right,
        }
    }
}

impl Lettered for Drive {
    ghost letter_of = { drive_letter };

    ghost told_apart = { Prim.search rules };

    fn letter(self) -> char {
        match self {
            Drive::Left => 'L',
            Drive::Right => 'R',
            Drive::Off => '-',
        }
    }
}

impl Sided for Drive {
    ghost opposite_of = { opposite_drive };

    ghost undone = { Prim.search rules };

    fn opposite(self) -> Drive {
        match self {
            Drive::Left => Drive::Right,
            Drive::Right => Drive::Left,
            Drive::Off => Drive::Off,
        }
    }
}

impl fmt::Display for Drive {
    ghost output = { λ x. Some (drive_letter x ∷ []) };

    fn fmt<W: fmt::Write>(&self, f: &mut fmt::Formatter<W>) -> fmt::Result {
        f.write_char(self.letter())
    }
}
