// What holds of every machine.
ghost use Rattle.machine.specs.Laws.{FixedLegs};

use crate::interface::Machine;

// The legs and the words that each reads are fixed for a machine's life.
#[tactic(auto, using(crate::proofs::Effects::effect_words, crate::proofs::Effects::effect_length))]
pub fn legs_are_fixed<M: Machine>()
    ensures { FixedLegs M.Machine.meaning M.Machine.does }
{}
