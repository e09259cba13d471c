// The factory test: the motors it rigs, the calls it makes, and how its movements ended.
#![tactic(auto)]

mod calling;
mod ending;
mod rigging;

pub use calling::test_calls;
pub use ending::{Ending, endings};
pub use factory::Rig;
pub use rigging::five_motors;
