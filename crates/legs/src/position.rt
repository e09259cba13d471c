// What the detector of a leg, or a whole point, shows.
ghost use Rattle.std.specs.Prelude.{◌≡◌, [], ◌∷◌, Some};
ghost use Rattle.legs.specs.Combined.{joined};
ghost use Rattle.legs.specs.Crossing.{opposite_position};
ghost use Rattle.legs.specs.Ends.{position_at};
ghost use Rattle.legs.specs.Letters.{position_letter};
ghost use Rattle.std.proofs.Common.{rules};

use crate::end::End;
use crate::lettered::Lettered;
use crate::sided::Sided;
use std::fmt;

#[derive(Clone, Copy, PartialEq, Eq, Debug)]
pub enum Position {
    Left,
    Right,
    NoEndPosition,
    Trailed,
}

impl Position {
    // What two legs show together, or a group of legs and one more.
    pub fn join(self, other: Position) -> Position
        ensures { result ≡ joined self other }
    {
        match (self, other) {
            (Position::Trailed, _) | (_, Position::Trailed) => Position::Trailed,
            (Position::Left, Position::Left) => Position::Left,
            (Position::Right, Position::Right) => Position::Right,
            _ => Position::NoEndPosition,
        }
    }
}

// What a leg shows at an end.
impl From<End> for Position {
    ghost from_gives = { λ e p. p ≡ position_at e };

    fn from(end: End) -> Position {
        match end {
            End::Left => Position::Left,
            End::Right => Position::Right,
        }
    }
}

impl Lettered for Position {
    ghost letter_of = { position_letter };

    ghost told_apart = { Prim.search rules };

    fn letter(self) -> char {
        match self {
            Position::Left => 'L',
            Position::Right => 'R',
            Position::NoEndPosition => 'N',
            Position::Trailed => 'T',
        }
    }
}

impl Sided for Position {
    ghost opposite_of = { opposite_position };

    ghost undone = { Prim.search rules };

    fn opposite(self) -> Position {
        match self {
            Position::Left => Position::Right,
            Position::Right => Position::Left,
            Position::NoEndPosition => Position::NoEndPosition,
            Position::Trailed => Position::Trailed,
        }
    }
}

impl fmt::Display for Position {
    ghost output = { λ x. Some (position_letter x ∷ []) };

    fn fmt<W: fmt::Write>(&self, f: &mut fmt::Formatter<W>) -> fmt::Result {
        f.write_char(self.letter())
    }
}
