// Lists of calls over a point, with a record of each, and what is promised of them all.
#![tactic(auto)]

mod promises;
mod running;

pub use promises::promises_kept;
pub use running::{NoMemory, Ran, run_more, run_new};
