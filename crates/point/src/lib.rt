// A point over any machine.
#![tactic(auto)]

mod carrying;
mod looking;
mod point;

pub use looking::snapshot;
pub use point::Point;
