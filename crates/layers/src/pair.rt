// Two machines as one: the legs of the first, then those of the second.
ghost use Rattle.std.specs.Prelude.{◌≡◌};
ghost use Rattle.layers.specs.Pair.{pair, pair_does, pair_legs, part_of};
ghost use Rattle.layers.specs.Parts.{pair_laws};
ghost use Rattle.machine.specs.LegNumbers.{count_of};

use legs::{Drive, End, Position, ReadRefusal};
use machine::{KNOWN_LEGS, MOST_COUNTED, Machine};

#[derive(Drop)]
pub struct Pair<A, B> {
    first: A,
    second: B,
}

impl<A, B> Pair<A, B> {
    pub fn new(first: A, second: B) -> Pair<A, B>
        ensures { result ≡ pair first second }
    {
        Pair { first, second }
    }

    // The two machines again, as they are now.
    pub fn into_parts(self) -> (A, B)
        ensures { self ≡ pair result.0 result.1 }
    {
        let Pair { first, second } = self;
        (first, second)
    }
}

// Where a leg of a pair is, with its number there.
#[derive(Clone, Copy)]
pub enum Part {
    First(u16),
    Second(u16),
}

impl<A: Machine, B> Pair<A, B> {
    // The part that has a leg; none has a missing leg.
    fn part(&self, leg: u16) -> Option<Part>
        ensures { result ≡ part_of (count_of (A.meaning self.now.first)) leg }
    {
        let first_count = self.first.count();
        if leg >= KNOWN_LEGS {
            None
        } else if leg < first_count {
            Some(Part::First(leg))
        } else {
            Some(Part::Second(leg - first_count))
        }
    }
}

impl<A: Machine, B: Machine> Machine for Pair<A, B> {
    ghost meaning = { pair_legs A.Machine.meaning B.Machine.meaning };

    ghost does = { pair_does A.Machine.meaning A.Machine.does B.Machine.does };

    ghost kept = { pair_laws A.Machine.kept B.Machine.kept };

    fn count(&self) -> u16 {
        (self.first.count() + self.second.count()).min(MOST_COUNTED)
    }

    #[tactic(auto, using(crate::specs::Parts::leg_by_part))]
    fn show(&self, leg: u16) -> Position {
        match self.part(leg) {
            Some(Part::First(leg)) => self.first.show(leg),
            Some(Part::Second(leg)) => self.second.show(leg),
            None => Position::NoEndPosition,
        }
    }

    #[tactic(auto, using(crate::specs::Parts::leg_by_part))]
    fn driven(&self, leg: u16) -> Drive {
        match self.part(leg) {
            Some(Part::First(leg)) => self.first.driven(leg),
            Some(Part::Second(leg)) => self.second.driven(leg),
            None => Drive::Off,
        }
    }

    fn drive(&mut self, end: End) {
        self.first.drive(end);
        self.second.drive(end);
    }

    fn halt(&mut self) {
        self.first.halt();
        self.second.halt();
    }

    #[tactic(auto, using(crate::specs::Parts::change_by_part))]
    fn switch_off(&mut self, leg: u16) {
        match self.part(leg) {
            Some(Part::First(leg)) => self.first.switch_off(leg),
            Some(Part::Second(leg)) => self.second.switch_off(leg),
            None => {}
        }
    }

    #[tactic(auto, using(crate::specs::Parts::leg_by_part))]
    fn read(&mut self, leg: u16, word: u16) -> Result<(), ReadRefusal> {
        match self.part(leg).ok_or(ReadRefusal::MissingLeg)? {
            Part::First(leg) => self.first.read(leg, word),
            Part::Second(leg) => self.second.read(leg, word),
        }
    }

    fn pass(&mut self) {
        self.first.pass();
        self.second.pass();
    }
}
