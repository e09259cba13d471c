// A machine mounted the other way round: left and right are exchanged in what it shows and in how it is driven.
ghost use Rattle.std.specs.Prelude.{◌≡◌};
ghost use Rattle.layers.specs.Crossed.{crossed, crossed_does, crossed_legs};
ghost use Rattle.layers.specs.Mirrors.{crossed_laws};

use legs::{Drive, End, Position, ReadRefusal, Sided};
use machine::Machine;

#[derive(Drop)]
pub struct Crossed<M> {
    below: M,
}

impl<M> Crossed<M> {
    pub fn new(below: M) -> Crossed<M>
        ensures { result ≡ crossed below }
    {
        Crossed { below }
    }

    // The machine below again, as it is now.
    pub fn into_below(self) -> M
        ensures { self ≡ crossed result }
    {
        let Crossed { below } = self;
        below
    }
}

impl<M: Machine> Machine for Crossed<M> {
    ghost meaning = { crossed_legs M.Machine.meaning };

    ghost does = { crossed_does M.Machine.does };

    ghost kept = { crossed_laws M.Machine.kept };

    fn count(&self) -> u16 {
        self.below.count()
    }

    fn show(&self, leg: u16) -> Position {
        self.below.show(leg).opposite()
    }

    fn driven(&self, leg: u16) -> Drive {
        self.below.driven(leg).opposite()
    }

    #[tactic(auto, using(crate::specs::Mirrors::drive_to_mirrored))]
    fn drive(&mut self, end: End) {
        self.below.drive(end.opposite());
    }

    #[tactic(auto, using(crate::specs::Mirrors::halted_mirrored))]
    fn halt(&mut self) {
        self.below.halt();
    }

    #[tactic(auto, using(crate::specs::Mirrors::off_at_mirrored))]
    fn switch_off(&mut self, leg: u16) {
        self.below.switch_off(leg);
    }

    // Words come from the detectors as they are.
    fn read(&mut self, leg: u16, word: u16) -> Result<(), ReadRefusal> {
        self.below.read(leg, word)
    }

    #[tactic(auto, using(crate::specs::Mirrors::frame_mirrored))]
    fn pass(&mut self) {
        self.below.pass();
    }
}
