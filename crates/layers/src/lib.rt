// Machines over other machines.
#![tactic(auto)]

mod crossed;
mod pair;

pub use crossed::Crossed;
pub use pair::Pair;
