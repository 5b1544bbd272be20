//! Metavariables at terms: the terms are put for the variables of the boundary's domains.
#![tactic(auto)]

mod expressions;
mod generic;
mod opening;
mod placing;
mod sides;
mod telling;

pub use expressions::{bodies_of, is_bound, is_generic, is_same_expression};
pub use generic::is_generic_thesis;
pub use opening::{is_applied, is_opened};
pub use placing::is_placed;
pub use sides::{At, Sides, sides_of};
pub use telling::{
    arguments_of, is_term_of_meta, is_type_left, is_type_of_meta, left_of, plain_head,
};
