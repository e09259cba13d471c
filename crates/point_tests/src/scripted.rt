// A make for tests: a leg that shows what a script says, whatever it is driven to.
ghost use Rattle.std.specs.Prelude.{◌≡◌};
ghost use Rattle.point_tests.specs.Scripted.{new_scripted, scripted_driving, scripted_leg, scripted_passing, scripted_reading, scripted_stepped};
ghost use Rattle.std.proofs.Common.{rules};

use legs::{Drive, Position, ReadRefusal};
use machine::SingleLeg;

// Words up to this one are read.
const LAST_WORD: u16 = 9;

// What is shown now, and what the next three steps show. The last of them stays.
#[derive(Drop)]
pub struct Scripted {
    shown: Position,
    second: Position,
    third: Position,
    fourth: Position,
    drive: Drive,
}

impl Scripted {
    // At the first step with the drive off.
    pub fn new(first: Position, second: Position, third: Position, fourth: Position) -> Scripted
        ensures { result ≡ new_scripted first second third fourth }
    {
        Scripted {
            shown: first,
            second,
            third,
            fourth,
            drive: Drive::Off,
        }
    }

    fn step(&mut self)
        ensures { self.new ≡ scripted_stepped self.old }
    {
        self.shown = self.second;
        self.second = self.third;
        self.third = self.fourth;
    }
}

impl SingleLeg for Scripted {
    ghost leg = { scripted_leg };

    ghost driving = { scripted_driving };

    ghost reading = { scripted_reading };

    ghost passing = { scripted_passing };

    ghost kept = { Prim.search rules };

    fn position(&self) -> Position {
        self.shown
    }

    fn current_drive(&self) -> Drive {
        self.drive
    }

    fn set_drive(&mut self, drive: Drive) {
        self.drive = drive;
    }

    // A word is a step as well, so that a test can make one between two ticks.
    fn take_word(&mut self, word: u16) -> Result<(), ReadRefusal> {
        if word > LAST_WORD {
            return Err(ReadRefusal::UnreadableWord);
        }
        self.step();
        Ok(())
    }

    fn pass_tick(&mut self) {
        self.step();
    }
}
