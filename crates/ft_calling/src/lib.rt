//! The calls of the nucleus, as the evaluator makes them.
#![tactic(auto)]

mod binding;
mod bounds;
mod laws;
mod rules;
mod words;

pub use binding::{
    abstract_boundary, abstract_judgement, new_variable, substitute_boundary, substitute_judgement,
    variable,
};
pub use bounds::fits;
pub use laws::rules_stay;
pub use rules::{apply, congruence, next_boundary, rule_of_name};
pub use words::{argument, boundaryof, word_at, word_at_boundary, word_at_two};
