//! The language of applications: rules whose premises have no binders, and shown applications of rules.
#![tactic(auto)]

mod cursor;
mod fault;
mod laws;
mod reader;
mod source;

pub use fault::Fault;
pub use laws::{
    at_most_one_tree, lines_go_on, one_line_for_each_command, one_transcript,
    what_is_in_the_grammar_is_read, what_is_read_is_in_the_grammar,
};
pub use source::read_source;
