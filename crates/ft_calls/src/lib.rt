//! What a call of the nucleus answers over a kernel, and what all calls share.
#![tactic(auto)]

mod concluding;
mod reading;
mod testing;

pub use concluding::{conclude, conclude_boundary, plain, plain_boundary};
pub use reading::{form_named, forms_named};
pub use testing::{same, same_side, same_type};
