//! What steps conclude from statements of one table.
#![tactic(auto)]

mod binding;
mod claims;
mod equal;
mod equating;
mod moving;
mod parts;
mod rows;

pub use binding::{is_abstracted, is_substituted, is_variable, plain_type};
pub use equal::is_same;
pub use equating::is_equally_substituted;
pub use parts::{Claim, Parts, boundary_parts, thesis_parts};
pub use rows::{FromOne, FromTwo, from_one, from_three, from_two};
