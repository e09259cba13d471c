// A machine of one leg: one motor with its detector.
ghost use Rattle.std.specs.Prelude.{◌≡◌, ℕ, MatchResult, Some};
ghost use Rattle.legs.specs.declared.drive.Drive.{Drive};
ghost use Rattle.machine.specs.LegNumbers.{answer_of};
ghost use Rattle.machine.specs.Legs.{Leg};
ghost use Rattle.machine.specs.SingleLegs.{SingleLaws, single_does, single_legs};
ghost use Rattle.machine.specs.OneLeg.{single_laws};

use crate::interface::Machine;
use legs::{Drive, End, Position, ReadRefusal};

// What the makes of one leg differ in. Each is a machine by this alone.
pub trait SingleLeg {
    // The one leg.
    ghost leg: { Self → Leg };

    // The value after it was given this drive.
    ghost driving: { Drive → Self → Self };

    // The value after this word, if the leg reads it.
    ghost reading: { ℕ → Self → Self };

    // The value after a tick.
    ghost passing: { Self → Self };

    // What the leg shows.
    fn position(&self) -> Position
        ensures { result ≡ (leg self.now).shows };

    // How the leg is driven.
    fn current_drive(&self) -> Drive
        ensures { result ≡ (leg self.now).driven };

    // Drives the leg like this, or switches it off.
    fn set_drive(&mut self, drive: Drive)
        ensures { self.new ≡ driving drive self.old };

    // Takes a word, or refuses one that is unreadable and keeps all.
    fn take_word(&mut self, word: u16) -> Result<(), ReadRefusal>
        ensures answer { result ≡ answer_of (Some (leg self.old)) word }
        ensures after { MatchResult result (λ _. self.new ≡ reading word self.old) (λ _. self.new ≡ self.old) };

    // Lets one tick pass.
    fn pass_tick(&mut self)
        ensures { self.new ≡ passing self.old };

    ghost kept: { SingleLaws leg driving reading passing };
}

impl<M: SingleLeg> Machine for M {
    ghost meaning = { single_legs M.SingleLeg.leg };

    ghost does = { single_does M.SingleLeg.driving M.SingleLeg.reading M.SingleLeg.passing };

    ghost kept = { single_laws M.SingleLeg.kept };

    fn count(&self) -> u16 {
        1
    }

    fn show(&self, leg: u16) -> Position {
        if leg == 0 {
            self.position()
        } else {
            Position::NoEndPosition
        }
    }

    fn driven(&self, leg: u16) -> Drive {
        if leg == 0 {
            self.current_drive()
        } else {
            Drive::Off
        }
    }

    fn drive(&mut self, end: End) {
        self.set_drive(Drive::from(end));
    }

    fn halt(&mut self) {
        self.set_drive(Drive::Off);
    }

    fn switch_off(&mut self, leg: u16) {
        if leg == 0 {
            self.halt();
        }
    }

    fn read(&mut self, leg: u16, word: u16) -> Result<(), ReadRefusal> {
        if leg != 0 {
            return Err(ReadRefusal::MissingLeg);
        }
        self.take_word(word)
    }

    fn pass(&mut self) {
        self.pass_tick();
    }
}
