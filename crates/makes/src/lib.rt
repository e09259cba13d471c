// The three makes of one leg.
#![tactic(auto)]

mod coded;
mod detected;
mod model;
mod wired;

pub use coded::{Coded, CodedWords};
pub use detected::{Decoder, Detected};
pub use model::{Model, model_arrives, model_stays_in_range};
pub use wired::{Wired, WiredWords};
