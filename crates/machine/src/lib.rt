// The interface of every machine, what holds of all of them, and what the makes of one leg share.
#![tactic(auto)]

mod combined;
mod interface;
mod laws;
mod single_leg;

pub use combined::combined_position;
pub use interface::{KNOWN_LEGS, MOST_COUNTED, Machine};
pub use laws::legs_are_fixed;
pub use single_leg::SingleLeg;
