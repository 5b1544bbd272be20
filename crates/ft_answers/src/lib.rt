//! What the program answers: the jobs that words ask for, and the statuses of calls. What is answered stands in specs/.
#![tactic(auto)]

mod status;
mod wanted;
mod words;

pub use status::Status;
pub use wanted::Wanted;
pub use words::Job;
