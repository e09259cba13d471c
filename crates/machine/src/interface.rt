// The interface of every machine: all the motors of one point, each with its detector.
ghost use Rattle.std.specs.Prelude.{◌≡◌, List, map, MatchResult};
ghost use Rattle.machine.specs.Actions.{Action, Driving, Halting, ReadingWord, Passing, SwitchingOff, drive_to, halted, off_at};
ghost use Rattle.machine.specs.Laws.{Laws};
ghost use Rattle.machine.specs.Legs.{Leg, frame};
ghost use Rattle.machine.specs.LegNumbers.{count_of, driven_at, read_answer, shown_at};

use legs::{Drive, End, Position, ReadRefusal};

// So many legs, from leg 0 on, can be asked one by one; a leg with any other number is missing.
pub const KNOWN_LEGS: u16 = 5;

// No machine counts more legs than this, however many it has.
pub const MOST_COUNTED: u16 = 6;

pub trait Machine {
    // The legs, leg 0 first: what each shows, how it is driven, which words it reads.
    ghost meaning: { Self → List Leg };

    // The make's own rule: its value before and after each action.
    ghost does: { Self → Action → Self → Type 0 };

    // How many legs there are, but never more than 6.
    fn count(&self) -> u16
        ensures { result ≡ count_of (meaning self.now) };

    // What a leg shows; a missing leg shows no end position.
    fn show(&self, leg: u16) -> Position
        ensures { result ≡ shown_at (meaning self.now) leg };

    // How a leg is driven; a missing leg is off.
    fn driven(&self, leg: u16) -> Drive
        ensures { result ≡ driven_at (meaning self.now) leg };

    // Drives every leg to an end.
    fn drive(&mut self, end: End)
        ensures legs { meaning self.new ≡ drive_to end (meaning self.old) }
        ensures done { does self.old (Driving end) self.new };

    // Switches every leg off.
    fn halt(&mut self)
        ensures legs { meaning self.new ≡ halted (meaning self.old) }
        ensures done { does self.old Halting self.new };

    // Switches one leg off; nothing for a missing leg.
    fn switch_off(&mut self, leg: u16)
        ensures legs { meaning self.new ≡ off_at leg (meaning self.old) }
        ensures done { does self.old (SwitchingOff leg) self.new };

    // Gives a word of its detector to a leg. By the law below, all that can change is what this leg shows;
    // a refusal leaves the machine as it was.
    fn read(&mut self, leg: u16, word: u16) -> Result<(), ReadRefusal>
        ensures answer { result ≡ read_answer (meaning self.old) leg word }
        ensures done { MatchResult result (λ _. does self.old (ReadingWord leg word) self.new) (λ _. self.new ≡ self.old) };

    // Lets one tick pass.
    fn pass(&mut self)
        ensures legs { map frame (meaning self.new) ≡ map frame (meaning self.old) }
        ensures done { does self.old Passing self.new };

    // It has a leg, and no action does more to its legs than is allowed.
    ghost kept: { Laws meaning does };
}
