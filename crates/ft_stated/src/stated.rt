//! The lines of a file.

use crate::numbers::Numbers;
use crate::step::StatedStep;
use ft_assume::Assume;
use ft_base::Name;
use ft_judge::{Boundary, Thesis};

/// An item as a line of a file states it, with the parts of the line in order.
#[derive(Debug, Drop)]
pub enum Stated {
    /// A variable: its number, its name and the entry of its type.
    Var(u64, Name, u64),
    /// A metavariable: its name and the entry of its boundary.
    Met(Name, u64),
    /// A rule: its name, the metavariables of its premises, and the entry of its conclusion's boundary.
    Rule(Name, Numbers, u64),
    /// A thesis, its set and its step.
    Thesis(Thesis, Assume, StatedStep),
    /// A boundary, its set and its step.
    Boundary(Boundary, Assume, StatedStep),
    /// The entry that is shown.
    Shown(u64),
}
