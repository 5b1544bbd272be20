//! The evaluator. So far: units, and what the calls of the nucleus tell of a run.
#![tactic(auto)]

mod halt;
mod laws;
mod spending;

pub use halt::{Halt, Why, halted, halted_boundary, halted_variable};
pub use laws::{
    boundary_words_tell, calls_tell, list_goes_on, pair_words_tell, rules_tell, variables_tell,
    words_tell,
};
pub use spending::spend;
