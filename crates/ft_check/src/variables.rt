//! The check of a variable.

ghost use Rattle.std.specs.Prelude.{◌≡◌, ◌∷◌, [], List, Some, take, option_map};
ghost use Rattle.ft_theory.specs.Expressions.{Expression};
ghost use Rattle.ft_items.specs.Item.{Name, variable};
ghost use Rattle.ft_items.specs.Store.{variables_in, declared_by};
ghost use Rattle.ft_items.specs.Good.{Good, is_next as is_greatest, reason_of_variable};
ghost use Rattle.ft_check.specs.Entries.{entry_in, no_variable};
ghost use Rattle.ft_check.specs.Rejects.{reason_of, IsReason};

use crate::entry::{Entry, entry_before};
use crate::reject::Reject;
use ft_stated::StatedItems;

// Whether each variable before place i has a smaller number.
fn is_next(items: &StatedItems, i: u64, v: u64) -> bool
    ensures { Good (take i items.now.items) → result ≡
        is_greatest (declared_by (take i items.now.items)).variables v }
{
    match items.greatest_before(i) {
        Some(greatest) => greatest < v,
        None => true,
    }
}

/// Whether no variable before place `i` has the number.
pub fn lacks_variable(items: &StatedItems, i: u64, v: u64) -> bool
    ensures { result ≡ no_variable v (variables_in (take i items.now.items)) }
{
    match items.var_place(v) {
        Some(place) => i <= place,
        None => true,
    }
}

// The reason against an entry as the type of a variable.
fn against_type(found: Entry<'_>) -> Option<Reject>
    ensures { (ts : List Expression) → option_map reason_of result ≡
        reason_of_variable (Some (entry_in ts found.entry)) }
{
    if !found.is_thesis() {
        Some(Reject::Kind)
    } else if found.is_plain_type() {
        None
    } else {
        Some(Reject::Premise)
    }
}

/// The first reason against a variable of this number with the type of entry `p` after the items before place `i`, or None
/// where there is none. It takes no memory.
pub fn check_variable(items: &StatedItems, i: u64, number: u64, p: u64) -> Option<Reject>
    ensures { (n : Name) → IsReason (take i items.now.items) (variable number n p) result }
{
    if !is_next(items, i, number) {
        return Some(Reject::Number);
    }
    match entry_before(items, i, p) {
        None => Some(Reject::Reference),
        Some(entry) => against_type(entry),
    }
}
