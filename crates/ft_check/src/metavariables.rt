//! The check of a metavariable.

ghost use Rattle.std.specs.Prelude.{◌≡◌, List, Some, take, option_map};
ghost use Rattle.ft_theory.specs.Expressions.{Expression};
ghost use Rattle.ft_items.specs.Item.{Name, metavariable};
ghost use Rattle.ft_items.specs.Good.{reason_of_metavariable};
ghost use Rattle.ft_check.specs.Entries.{entry_in};
ghost use Rattle.ft_check.specs.Rejects.{reason_of, IsReason};

use crate::entry::{Entry, entry_before};
use crate::reject::Reject;
use crate::sets::has_no_variable;
use ft_stated::StatedItems;

// The reason against an entry as the boundary of a metavariable.
fn against_boundary(found: Entry<'_>) -> Option<Reject>
    ensures { (ts : List Expression) → option_map reason_of result ≡
        reason_of_metavariable (Some (entry_in ts found.entry)) }
{
    if found.is_thesis() {
        Some(Reject::Kind)
    } else if has_no_variable(found.set()) {
        None
    } else {
        Some(Reject::Loose)
    }
}

/// The first reason against a metavariable with the boundary of entry `p` after the items before place `i`, or None where there
/// is none. It takes no memory.
pub fn check_metavariable(items: &StatedItems, i: u64, p: u64) -> Option<Reject>
    ensures { (n : Name) → IsReason (take i items.now.items) (metavariable n p) result }
{
    match entry_before(items, i, p) {
        None => Some(Reject::Reference),
        Some(entry) => against_boundary(entry),
    }
}
