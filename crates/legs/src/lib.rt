// The words for one leg: what it shows, how it is driven, where it can go, and why it refuses a word.
#![tactic(auto)]

mod drive;
mod end;
mod lettered;
mod numbered;
mod position;
mod read_refusal;
mod sided;

pub use drive::Drive;
pub use end::{End, NoSuchEnd};
pub use lettered::Lettered;
pub use numbered::Numbered;
pub use position::Position;
pub use read_refusal::ReadRefusal;
pub use sided::Sided;
