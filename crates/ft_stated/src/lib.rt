//! The items of a file as it states them, before they are checked.
#![tactic(auto)]

mod firsts;
mod index;
mod items;
mod numbers;
mod stated;
mod step;

pub use items::StatedItems;
pub use numbers::Numbers;
pub use stated::Stated;
pub use step::StatedStep;
