// What a point remembers from call to call.
#![tactic(auto)]

mod service;
mod state;

pub use service::{LONGEST_LIMIT, NoSuchProfile, Profile, Service};
pub use state::{Connection, Movement, State};
