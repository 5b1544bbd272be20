//! Sets of assumptions: of the metavariables and free variables that a statement rests on.
#![tactic(auto)]

mod assume;
mod atom;

pub use assume::Assume;
pub use atom::Atom;
