//! Which part of a source asks the equality checker.
#![tactic(auto)]

mod commands;
mod expressions;

pub use commands::first_unbuilt;
