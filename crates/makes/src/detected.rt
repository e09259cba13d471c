// A leg that shows what its detector last said. The makes of this kind differ in how the detector says it.
ghost use Rattle.std.specs.Prelude.{◌≡◌, ℕ, Option};
ghost use Rattle.legs.specs.declared.position.Position.{Position};
ghost use Rattle.makes.specs.Detected.{detected_driving, detected_reading, detected_leg, detected_passing, new_detected, NewByDefault};
ghost use Rattle.std.proofs.Common.{rules};

use legs::{Drive, Position, ReadRefusal};
use machine::SingleLeg;

// How a detector writes positions into words.
pub trait Decoder {
    // What a word shows, or nothing where it is unreadable.
    ghost decodes: { ℕ → Option Position };

    fn decode(&self, word: u16) -> Option<Position>
        ensures { result ≡ decodes word };
}

#[derive(Drop)]
pub struct Detected<D> {
    decoder: D,
    position: Position,
    drive: Drive,
}

impl<D> Detected<D> {
    // It starts at no end position with the drive off.
    pub fn by(decoder: D) -> Detected<D>
        ensures { result ≡ new_detected decoder }
    {
        Detected {
            decoder,
            position: Position::NoEndPosition,
            drive: Drive::Off,
        }
    }
}

impl<D: Default> Detected<D> {
    // The same with the decoder of its kind.
    pub fn new() -> Detected<D>
        ensures { NewByDefault D.is_default result }
    {
        Detected::by(D::default())
    }
}

impl<D: Decoder> SingleLeg for Detected<D> {
    ghost leg = { detected_leg D.Decoder.decodes };

    ghost driving = { detected_driving };

    ghost reading = { detected_reading D.Decoder.decodes };

    ghost passing = { detected_passing };

    ghost kept = { Prim.search rules };

    fn position(&self) -> Position {
        self.position
    }

    fn current_drive(&self) -> Drive {
        self.drive
    }

    fn set_drive(&mut self, drive: Drive) {
        self.drive = drive;
    }

    fn take_word(&mut self, word: u16) -> Result<(), ReadRefusal> {
        self.position = self
            .decoder
            .decode(word)
            .ok_or(ReadRefusal::UnreadableWord)?;
        Ok(())
    }

    // The detector alone tells where the leg is.
    fn pass_tick(&mut self) {}
}
