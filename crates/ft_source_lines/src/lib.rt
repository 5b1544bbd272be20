//! What a run writes for a source that has no commands, and its status.
#![tactic(auto)]

mod lines;
mod statuses;

pub use lines::fault_line;
pub use statuses::fault_status;
