//! The language of applications: its trees. What they mean, its grammar and its transcripts stand in specs/.
#![tactic(auto)]

mod syntax;

pub use syntax::{Application, Command, Conclusion, Premise};
