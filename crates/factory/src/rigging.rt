// The five motors of the test.
ghost use Rattle.std.specs.Prelude.{◌≡◌, MatchResult};
ghost use Rattle.factory.specs.Rigging.{five_motors, rig_of};
ghost use Rattle.machine.specs.Actions.{ReadingWord};
ghost use Rattle.machine.specs.LegNumbers.{read_answer};

use layers::{Crossed, Pair};
use legs::ReadRefusal;
use machine::Machine;
use makes::Model;

pub type Rig = Pair<Pair<Model, Pair<Crossed<Model>, Model>>, Pair<Model, Model>>;

// The leg that is mounted the other way round, and its travel.
pub const CROSSED_LEG: u16 = 1;

pub const CROSSED_TRAVEL: u16 = 4;

// Legs 0 to 4 are models with these travels; leg 1 is crossed.
pub fn rig(travels: [u16; 5]) -> Rig
    ensures { result ≡ rig_of travels }
{
    let [zero, one, two, three, four] = travels.map(Model::new);
    let front = Pair::new(zero, Pair::new(Crossed::new(one), two));
    Pair::new(front, Pair::new(three, four))
}

// The rig with the travels of the test: 3, 4, 5, 1 and 6.
pub fn five_motors() -> Rig
    ensures { result ≡ five_motors }
{
    rig([3, CROSSED_TRAVEL, 5, 1, 6])
}

// A new model stands at its left end, which is the right end of a crossed leg: a word puts that leg over.
pub fn put_over<M: Machine>(machine: &mut M) -> Result<(), ReadRefusal>
    ensures answer { result ≡ read_answer (M.meaning machine.old) 1 4 }
    ensures done { MatchResult result (λ _. M.does machine.old (ReadingWord 1 4) machine.new) (λ _. machine.new ≡ machine.old) }
{
    machine.read(CROSSED_LEG, CROSSED_TRAVEL)
}
