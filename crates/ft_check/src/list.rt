//! The check of a list.

ghost use Rattle.std.specs.Prelude.{◌≡◌, IfOk};
ghost use Rattle.ft_items.specs.Store.{Derivable};
ghost use Rattle.ft_items.specs.Good.{Counts, Accepted, verdict};
ghost use Rattle.ft_sound.specs.Soundness.{EachEntry};
ghost use Rattle.ft_check.specs.Verdicts.{verdict_of};

use crate::counts::Counted;
use crate::item::check_item;
use crate::verdict::Verdict;
use ft_base::Memory;
use ft_stated::StatedItems;
use std::alloc::Global;

// The first item against which there is a reason, or the counts of all.
fn first_rejected(alloc: Global, items: &StatedItems) -> Result<Verdict, Memory>
    ensures { IfOk result (λ v. verdict_of v ≡ verdict items.now.items) }
{
    let mut counted = Counted {
        rules: 0,
        entries: 0,
        shown: 0,
        level: 0,
    };
    'checking: for i in 0..items.len() {
        match check_item(alloc, items, i)? {
            Some(why) => return Ok(Verdict::Rejected { item: i, why }),
            None => counted = counted.next(items, i),
        }
    }
    Ok(Verdict::Accepted {
        rules: counted.rules,
        entries: counted.entries,
        shown: counted.shown,
        level: counted.level,
    })
}

/// The verdict on a list.
#[tactic(auto, using(crate::proofs::Listed::all_derivable))]
pub fn check_items(alloc: Global, items: &StatedItems) -> Result<Verdict, Memory>
    ensures verdict { IfOk result (λ v. verdict_of v ≡ verdict items.now.items) }
    ensures derivable { IfOk result (λ v. (c : Counts) → verdict_of v ≡ Accepted c
        → EachEntry (λ W e. Derivable W e.statement e.set) items.now.items) }
{
    first_rejected(alloc, items)
}
