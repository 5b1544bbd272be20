//! The structural calls of the nucleus, over a kernel.
#![tactic(auto)]

mod abstraction;
mod boundaries;
mod declaring;
mod equal_substitution;
mod equality;
mod naming;
mod parts;
mod substitution;
mod variables;

pub use abstraction::{abstract_boundary, abstract_var};
pub use boundaries::{boundary_eq_term, boundary_eq_type, boundary_term, boundary_type};
pub use declaring::{new_meta, new_var};
pub use equal_substitution::substitute_equal;
pub use equality::{convert, convert_equation, refl, sym, trans, widen};
pub use parts::{Which, boundary, side, side_of_boundary};
pub use substitution::{substitute, substitute_boundary};
pub use variables::variable;
