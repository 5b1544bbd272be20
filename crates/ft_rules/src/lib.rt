//! Drafts of rules: a rule is made premise by premise, and then declared.
#![tactic(auto)]

mod drafts;
mod fault;
mod laws;
mod outside;

pub use drafts::Draft;
pub use fault::RuleFault;
pub use laws::drafts_stay;
