//! The values of the language over a kernel's list of items, and what names stand for.
#![tactic(auto)]

mod laws;
mod names;
mod scopes;
mod values;

pub use laws::{members_are, scopes_stay, values_stay};
pub use names::{Entry, Names};
pub use scopes::{Binding, Scope, Scopes};
pub use values::{Row, Value, Values};
