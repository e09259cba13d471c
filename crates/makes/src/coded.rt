// A leg whose detector sends a code in the high byte of a word, and in the low byte what the code lacks of 255.
ghost use Rattle.makes.specs.Coded.{decode_coded};

use crate::detected::{Decoder, Detected};
use legs::Position;

#[derive(Clone, Copy, Default)]
pub struct CodedWords;

pub type Coded = Detected<CodedWords>;

impl Decoder for CodedWords {
    ghost decodes = { decode_coded };

    // A word is readable if its two bytes agree and there is such a code.
    fn decode(&self, word: u16) -> Option<Position> {
        let [code, check] = word.to_be_bytes();
        if check != 255 - code {
            return None;
        }
        match code {
            0 => Some(Position::NoEndPosition),
            1 => Some(Position::Left),
            2 => Some(Position::Right),
            3 => Some(Position::Trailed),
            _ => None,
        }
    }
}
