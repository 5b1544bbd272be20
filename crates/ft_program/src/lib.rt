//! The run of a source: what `run` writes for its bytes.
#![tactic(auto)]

mod commands;
mod halts;
mod lines;
mod whole;

pub use commands::{Run, Step};
pub use whole::{Written, run};
