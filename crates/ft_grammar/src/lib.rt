//! The tokens and the syntax trees of a source. The definitions of the tokens of a text, of the grammar of sources, and of reading
//! by it as a function on lists of tokens, stand in specs/.
#![tactic(auto)]

mod fault;
mod form;
mod syntax;
mod token;

pub use fault::SyntaxFault;
pub use form::{OneForm, TwoForm};
pub use syntax::{
    AmlType, Ast, Binder, Body, Case, Command, Conclusion, Named, OpCase, Pattern, Premise, ValCase,
};
pub use token::{Kind, Mark, Token};
