//! The tokens of a source.
#![tactic(auto)]

mod front;
pub mod laws;
mod scan;

pub use ft_base::Word;
pub use ft_grammar::{Kind, Mark, Token};
pub use scan::tokens;
