//! Theses and boundaries over a table of expressions, and the refusals of the calls that work on them.
#![tactic(auto)]

mod compare;
mod fault;
mod judgement;
mod moving;
mod parts;

pub use compare::fits;
pub use fault::{Differ, Fault, Refusal, Stop};
pub use judgement::{Boundary, Domains, Form, Goal, Thesis};
pub use moving::{close_over, close_over_boundary, open_first, open_first_boundary};
pub use parts::{boundary_of, fill, head_of, head_of_form};
