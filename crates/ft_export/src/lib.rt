//! Derivation files, as they are written.
#![tactic(auto)]

mod expressions;
mod lines;
mod pieces;
mod sets;
mod statements;
mod steps;
mod write;

pub use ft_outside::WriteErr;
pub use write::write_derivation;
