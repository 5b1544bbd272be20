//! Metavariables over a kernel: at their bound variables, at terms, and at equal terms.
#![tactic(auto)]

mod applying;
mod bounds;
mod congruence;
mod named;
mod operands;
mod putting;

pub use applying::meta_apply;
pub use bounds::generic;
pub use congruence::meta_congruence;
