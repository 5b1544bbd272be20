//! What every crate stands on: names, the words, texts, sequences, units of budget, the limits, and the answer that memory was refused.
#![tactic(auto)]

pub mod limits;
mod memory;
mod name;
mod sequence;
mod text;
mod units;
mod word;

pub use memory::Memory;
pub use name::Name;
pub use sequence::Sequence;
pub use text::Text;
pub use units::Units;
pub use word::Word;
