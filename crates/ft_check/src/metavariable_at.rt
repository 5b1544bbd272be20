//! The metavariable that a step names.

ghost use Rattle.std.specs.Prelude.{◌≡◌, ℕ, None, Some, length, IfSome, IsSomeAnd};
ghost use Rattle.ft_items.specs.Store.{Declared, metavariable_named};
ghost use Rattle.ft_judge.specs.Meaning.{BoundaryBelow};
ghost use Rattle.ft_check.specs.AtHand.{IsMetavariable};
ghost use Rattle.ft_check.specs.Earlier.{declared_before, GoodBefore};

use crate::entry::{Entry, entry_before, metavariable_before};
use ft_assume::Assume;
use ft_judge::Boundary;
use ft_stated::StatedItems;

/// A metavariable at hand: its boundary, and what that rests on.
#[derive(Clone, Copy)]
pub struct MetavariableAt<'a> {
    pub boundary: &'a Boundary,
    pub set: &'a Assume,
}

/// The metavariable of a number before place `i`, or None where there is none.
pub fn metavariable_at_hand(items: &StatedItems, i: u64, m: u64) -> Option<MetavariableAt<'_>>
    ensures is { (d : ℕ × Declared) → GoodBefore i items.now.items
        → metavariable_named (declared_before i items.now.items) m ≡ Some d
        → IsSomeAnd result (λ x. IsMetavariable items.now.trees m x d) }
    ensures none { GoodBefore i items.now.items
        → metavariable_named (declared_before i items.now.items) m ≡ None → result ≡ None }
    ensures below { IfSome result (λ x. BoundaryBelow (length items.now.trees) x.boundary.now) }
{
    let p = metavariable_before(items, i, m)?;
    let entry = entry_before(items, i, p)?;
    match entry {
        Entry::Thesis(..) => None,
        Entry::Boundary(boundary, set) => Some(MetavariableAt { boundary, set }),
    }
}
