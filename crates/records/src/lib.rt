// What goes into a point and what comes out of it: calls, verdicts, messages, refusals, and the record of one call.
#![tactic(auto)]

mod call;
mod entry;
mod message;
mod refusal;
mod snapshot;
mod verdict;

pub use call::{Call, CallKind};
pub use entry::{Answer, Entry, silent};
pub use message::Message;
pub use refusal::Refusal;
pub use snapshot::{LegStatus, Snapshot};
pub use verdict::Verdict;
