// What the factory test rigs, and what it does with the legs after a tick.
#![tactic(auto)]

mod naming;
mod rigging;
mod switching;

pub use naming::end_name;
pub use rigging::{CROSSED_LEG, CROSSED_TRAVEL, Rig, five_motors, put_over, rig};
pub use switching::{all_off, switch_off_arrived};
