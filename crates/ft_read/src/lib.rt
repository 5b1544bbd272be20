//! Reading whole derivation files of version 1.
#![tactic(auto)]

mod fault;
mod file;
mod lines;
mod version;

pub use fault::FileFault;
pub use file::read_items;
