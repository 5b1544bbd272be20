//! The state of an evaluation, and patterns against values.
#![tactic(auto)]

mod applications;
mod arguing;
mod asking;
mod concluding;
mod ending;
mod laws;
mod literals;
mod matching;
mod names;
mod paired;
mod state;
mod values;
mod worded;

pub use ending::{End, Operation};
pub use laws::{
    calls_go_further, goes_further, judgements_are_read, lists_go_further, lists_may_grow,
    scopes_stay_further, values_stay_further,
};
pub use state::State;
