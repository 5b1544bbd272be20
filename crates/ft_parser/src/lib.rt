//! The parser of sources.
#![tactic(auto)]

mod applications;
mod atoms;
mod commands;
mod computations;
mod cursor;
mod expressions;
mod form;
mod matching;
mod patterns;
mod premises;
mod source;
mod types;

pub use ft_grammar::{
    AmlType, Ast, Binder, Body, Case, Command, Conclusion, Named, OpCase, Pattern, Premise,
    SyntaxFault, ValCase,
};
pub use source::parse;
