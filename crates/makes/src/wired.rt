// A leg whose detector contacts are wired straight to the bits of a word.
ghost use Rattle.makes.specs.Wired.{decode_wired};

use crate::detected::{Decoder, Detected};
use legs::Position;

// Bit 0 is the left contact, bit 1 the right one, bit 2 says that the point was trailed.
#[derive(Clone, Copy, Default)]
pub struct WiredWords;

pub type Wired = Detected<WiredWords>;

impl Decoder for WiredWords {
    ghost decodes = { decode_wired };

    fn decode(&self, word: u16) -> Option<Position> {
        match word {
            0 => Some(Position::NoEndPosition),
            1 => Some(Position::Left),
            2 => Some(Position::Right),
            4..=7 => Some(Position::Trailed),
            _ => None,
        }
    }
}
