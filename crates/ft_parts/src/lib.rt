//! What an application tells, over a kernel.
#![tactic(auto)]

mod arguments;
mod filling;
mod opening;
mod putting;
mod reading;
mod symbols;
mod types;

pub use arguments::argument;
pub use types::natural;
