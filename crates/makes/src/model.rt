// A simulated leg: a tongue that takes a known number of ticks from end to end.
ghost use Rattle.std.specs.Prelude.{◌≡◌};
ghost use Rattle.makes.specs.Throws.{Arrives, StaysInRange};
ghost use Rattle.makes.specs.Model.{model_driving, model_reading, model_leg, model_passing, new_model};
ghost use Rattle.std.proofs.Common.{rules};

use legs::{Drive, Position, ReadRefusal};
use machine::SingleLeg;

const LONGEST_TRAVEL: u16 = 600;

// The tongue is at `place`, 0 at the left end and `travel` at the right one.
#[derive(Drop)]
pub struct Model {
    travel: u16,
    place: u16,
    drive: Drive,
}

impl Model {
    // At the left end with the drive off. A travel outside 1 to 600 becomes the nearer of the two.
    pub fn new(travel: u16) -> Model
        ensures { result ≡ new_model travel }
    {
        Model {
            travel: travel.clamp(1, LONGEST_TRAVEL),
            place: 0,
            drive: Drive::Off,
        }
    }
}

impl SingleLeg for Model {
    ghost leg = { model_leg };

    ghost driving = { model_driving };

    ghost reading = { model_reading };

    ghost passing = { model_passing };

    ghost kept = { Prim.search rules };

    fn position(&self) -> Position {
        if self.place == 0 {
            Position::Left
        } else if self.place == self.travel {
            Position::Right
        } else {
            Position::NoEndPosition
        }
    }

    fn current_drive(&self) -> Drive {
        self.drive
    }

    fn set_drive(&mut self, drive: Drive) {
        self.drive = drive;
    }

    fn take_word(&mut self, word: u16) -> Result<(), ReadRefusal> {
        if word > self.travel {
            return Err(ReadRefusal::UnreadableWord);
        }
        self.place = word;
        Ok(())
    }

    // The tongue moves one place towards the driven end, until it is there.
    fn pass_tick(&mut self) {
        match self.drive {
            Drive::Left if self.place > 0 => self.place -= 1,
            Drive::Right if self.place < self.travel => self.place += 1,
            _ => {}
        }
    }
}

// A model never leaves its range.
#[tactic(auto, using(crate::proofs::Throwing::stays_in_range))]
pub fn model_stays_in_range()
    ensures { StaysInRange }
{}

// A model reaches an end on the very tick that the way to it needs.
#[tactic(auto, using(crate::proofs::Throwing::arrives))]
pub fn model_arrives()
    ensures { Arrives }
{}
