//! Instances of rules: their boundaries and conclusions at arguments, over a kernel.
#![tactic(auto)]

mod applying;
mod equating;
mod fitting;
mod moving;
mod named;
mod putting;
mod starting;

pub use applying::{apply, apply_with, next_boundary};
pub use equating::congruence;
pub use moving::convert_premise;
