//! Items as they are kept.

use crate::item::{MetItem, RuleItem, VarItem};
use crate::step::Step;
use crate::token::J;
use ft_assume::Assume;
use ft_judge::{Boundary, Thesis};

/// What is kept of an item.
#[derive(Debug, Drop)]
pub enum Content {
    Variable(VarItem),
    Metavariable(MetItem),
    Rule(RuleItem),
    Thesis(Thesis, Assume, Step),
    Boundary(Boundary, Assume, Step),
    Shown(J),
}

/// An item, with its number among the metavariables, the rules or the entries.
#[derive(Debug, Drop)]
pub struct Line {
    pub number: u64,
    pub content: Content,
}
