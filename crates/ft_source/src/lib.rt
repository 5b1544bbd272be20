//! What the bytes of a source are: the text of commands, or why they are the source of none.
#![tactic(auto)]

mod fault;
mod source;

pub use fault::SourceFault;
pub use source::{commands_of, read_source, text_of};
