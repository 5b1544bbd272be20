//! Items as they are handed in and shown.

use crate::step::Step;
use crate::token::{B, J, M, Metavariables, RuleId, V};
use ft_base::Name;

/// A variable: its number, its name, and the thesis that gives its type.
#[derive(Debug, Drop)]
pub struct VarItem {
    pub number: u64,
    pub name: Name,
    pub ty: J,
}

/// A metavariable: its name and its boundary.
#[derive(Debug, Drop)]
pub struct MetItem {
    pub name: Name,
    pub boundary: B,
}

/// A rule: its name, its premises' metavariables, and its conclusion.
#[derive(Debug, Drop)]
pub struct RuleItem {
    pub name: Name,
    pub premises: Metavariables,
    pub conclusion: B,
}

/// An item of a list, as it is shown.
pub enum Item<'a> {
    Var(V),
    Met(M),
    Rule(RuleId),
    Thesis(J, &'a Step),
    Boundary(B, &'a Step),
    Shown(J),
}
