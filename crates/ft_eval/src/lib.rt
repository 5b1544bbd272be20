//! The evaluator: a machine with a stack of its own.
#![tactic(auto)]

mod entering;
mod frames;
mod machine;
mod places;
mod resuming;
mod unwinding;

pub use machine::evaluate;
