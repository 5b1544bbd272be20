//! Rules that are declared over a kernel, what expressions claim over them, and the lines of commands that are run.
#![tactic(auto)]

mod accepting;
mod asking;
mod claiming;
mod declaring;
mod given;
mod judging;
mod running;
mod session;
mod texts;

pub use running::run;
pub use session::{Claimed, Ending, Known, Run, Session};
pub use texts::push_claim;
