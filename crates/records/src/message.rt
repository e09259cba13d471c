// What a point tells the interlocking: a plain code, so that an answer can be kept and compared as it is.
ghost use Rattle.std.specs.Prelude.{◌≡◌, Some};
ghost use Rattle.records.specs.Messages.{message_code, message_text, position_message};
ghost use Rattle.std.proofs.Common.{rules};

use legs::{Numbered, Position};
use std::fmt;

#[derive(Clone, Copy, PartialEq, Eq, Debug)]
pub enum Message {
    Nothing = 0,
    VersionMatches = 1,
    VersionDiffers = 2,
    StartInitialisation = 3,
    InitialisationCompleted = 4,
    PositionLeft = 5,
    PositionRight = 6,
    PositionNoEnd = 7,
    PositionTrailed = 8,
    Timeout = 9,
}

impl Message {
    // What stands for this message in every output.
    pub fn text(self) -> &'static str
        ensures { result.now ≡ message_text self }
    {
        match self {
            Message::Nothing => "-",
            Message::VersionMatches => "V1",
            Message::VersionDiffers => "V0",
            Message::StartInitialisation => "SI",
            Message::InitialisationCompleted => "IC",
            Message::PositionLeft => "PL",
            Message::PositionRight => "PR",
            Message::PositionNoEnd => "PN",
            Message::PositionTrailed => "PT",
            Message::Timeout => "TO",
        }
    }
}

impl Numbered for Message {
    ghost number_of = { message_code };

    ghost told_apart = { Prim.search rules };

    fn number(self) -> u8 {
        self as u8
    }
}

// The message that tells a position.
impl From<Position> for Message {
    ghost from_gives = { λ p m. m ≡ position_message p };

    fn from(position: Position) -> Message {
        match position {
            Position::Left => Message::PositionLeft,
            Position::Right => Message::PositionRight,
            Position::NoEndPosition => Message::PositionNoEnd,
            Position::Trailed => Message::PositionTrailed,
        }
    }
}

impl fmt::Display for Message {
    ghost output = { λ m. Some (message_text m) };

    fn fmt<W: fmt::Write>(&self, f: &mut fmt::Formatter<W>) -> fmt::Result {
        f.write_str(self.text())
    }
}
