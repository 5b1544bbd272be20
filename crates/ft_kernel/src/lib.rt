//! The list of items: append-only, and good at every moment.
#![tactic(auto)]

mod item;
mod kernel;
mod laws;
mod line;
mod step;
mod token;

pub use item::{Item, MetItem, RuleItem, VarItem};
pub use kernel::Kernel;
pub use laws::tokens_stay;
pub use step::{Part, Step};
pub use token::{
    B, J, Judgements, M, Metavariables, OfBoundary, OfMetavariable, OfRule, OfThesis, OfVariable,
    RuleId, Token, V,
};
