//! The texts of judgements, refusals, types and places, and the lines of a run, exactly as they are defined.
#![tactic(auto)]

mod atoms;
mod expressions;
mod faults;
mod fixed;
mod lines;
mod mentioned;
mod names;
mod places;
mod refusals;
mod rule_faults;
mod sequents;
mod shape_faults;
mod sources;
mod statements;
mod type_faults;
mod types;
mod variables;

pub use faults::{error_line, no_match_text, refused_text, spent_line, unhandled_text};
pub use lines::{accepted_line, none_line, sequent_lines};
pub use places::line_col;
pub use refusals::refusal_text;
pub use rule_faults::{
    duplicate_rule_text, open_conclusion_text, open_premise_text, too_many_rules_text,
};
pub use sequents::sequent_text;
pub use shape_faults::{
    bad_left_text, equation_premise_text, not_equation_text, undetermined_text,
};
pub use sources::{no_text_line, not_yet_line, too_long_line, too_nested_line, unexpected_line};
pub use type_faults::type_why_text;
pub use types::type_text;
