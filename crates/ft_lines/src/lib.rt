//! Reading derivation files of version 1: numbers, names, sets, expressions, statements, steps and lines.
#![tactic(auto)]

pub mod cursor;
pub mod entries;
pub mod expressions;
pub mod fault;
pub mod laws;
mod lines;
pub mod sets;
pub mod statements;
pub mod steps;
pub mod words;
mod written;

pub use fault::Fault;
pub use lines::line;
