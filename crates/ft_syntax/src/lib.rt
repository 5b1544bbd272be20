//! A table of expressions. An expression is a number in it; its tree never changes.
#![tactic(auto)]

mod change;
mod copy;
mod crowded;
mod index;
mod instance;
mod instantiate;
mod marks;
mod syntax;
mod table;

pub use instance::{Instance, Pairs};
pub use syntax::{Arg, E, Node, SynFault};
pub use table::Terms;
