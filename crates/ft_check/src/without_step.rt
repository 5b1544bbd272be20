//! The check of the items that have no step.

ghost use Rattle.std.specs.Prelude.{◌≡◌, ◌<◌, Some, false, length, take};
ghost use Rattle.ft_items.specs.Item.{Item};
ghost use Rattle.ft_items.specs.Store.{nth};
ghost use Rattle.ft_stated.specs.Lines.{item_in};
ghost use Rattle.ft_stated.specs.Places.{is_entry};
ghost use Rattle.ft_check.specs.Rejects.{IsReason};

use crate::metavariables::check_metavariable;
use crate::reject::Reject;
use crate::rules::check_rule;
use crate::shown::check_shown;
use crate::variables::check_variable;
use ft_stated::{Stated, StatedItems};

/// The first reason against the item at place `i`, which is no entry, after the items before it, or None where there is none.
/// It takes no memory. Where the items before are no good list, nothing is said of the answer.
pub fn check_without_step(items: &StatedItems, i: u64) -> Option<Reject>
    requires place { i < length items.now.items }
    requires kind { (x : Item) → nth items.now.items i ≡ Some x → is_entry x ≡ false }
    ensures { (x : Item) → nth items.now.items i ≡ Some x
        → IsReason (take i items.now.items) x result }
{
    match items.item(i) {
        Stated::Var(number, _, p) => check_variable(items, i, *number, *p),
        Stated::Met(_, p) => check_metavariable(items, i, *p),
        Stated::Rule(name, ms, p) => check_rule(items, i, name, ms, *p),
        Stated::Shown(p) => check_shown(items, i, *p),
        _ => unreachable!(),
    }
}
