//! The words of the command line, as what they ask for.
#![tactic(auto)]

mod command;
mod number;
mod words;

pub use command::accepted_words;
pub use words::{WordsFault, wanted};
