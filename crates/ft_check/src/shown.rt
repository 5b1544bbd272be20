//! The check of a shown mark.

ghost use Rattle.std.specs.Prelude.{take};
ghost use Rattle.ft_items.specs.Item.{shown};
ghost use Rattle.ft_check.specs.Rejects.{IsReason};

use crate::entry::entry_before;
use crate::reject::Reject;
use ft_stated::StatedItems;

/// The first reason against showing the entry `p` after the items before place `i`, or None where there is none. It takes no
/// memory.
pub fn check_shown(items: &StatedItems, i: u64, p: u64) -> Option<Reject>
    ensures { IsReason (take i items.now.items) (shown p) result }
{
    match entry_before(items, i, p) {
        None => Some(Reject::Reference),
        Some(entry) => {
            if entry.is_thesis() {
                None
            } else {
                Some(Reject::Kind)
            }
        }
    }
}
