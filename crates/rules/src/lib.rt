// What a point decides on each call: from its state, what was read and what the legs show, with no machine in it.
#![tactic(auto)]

mod connecting;
mod deciding;
mod decision;
mod judging;
mod moving;
mod starting;
mod switches;

pub use deciding::{Reading, decide, reads_first};
pub use decision::{Command, Commands, Decision};
pub use switches::Switches;
