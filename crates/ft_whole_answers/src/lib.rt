//! What the program answers in the whole language: the statuses of calls. What is answered stands in specs/.
#![tactic(auto)]

mod status;

pub use status::Status;
