//! Commands: rules are declared, values named, operations declared, values shown.
#![tactic(auto)]

mod binders;
mod bodies;
mod claims;
mod done;
mod faults;
mod marking;
mod premises;
mod rules;
mod running;
mod showing;

pub use binders::Bindings;
pub use done::{Done, EvalFault, EvalWhy};
pub use running::run_command;
