//! The types of a source: a type for each form and the scope after each command, or the first fault
//! in the order of the text.
#![tactic(auto)]

mod checker;
mod commands;
mod expressions;
mod fault;
mod names;
mod patterns;
mod premises;
mod scope;
mod shared;
mod types;

pub use fault::{TypeFault, TypeWhy, Wanted};
pub use scope::{Scope, Typed, check_command};
pub use shared::SharedType;
pub use types::{KnownType, Row};
