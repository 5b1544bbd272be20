//! The call that the program makes: words and an input in, a text and a status out.
#![tactic(auto)]

mod call;
mod checking;
mod exporting;
mod laws;
mod reading;
mod running;
mod statuses;
mod verdicts;
mod words;
mod writing;

pub use call::top;
pub use laws::{headline, one_verdict};
