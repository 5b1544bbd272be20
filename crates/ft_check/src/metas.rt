//! Metavariables at their bound variables, at terms and at equal terms.

ghost use Rattle.std.specs.Prelude.{◌≡◌, ℕ, List, Some, false, length, IfOk, IfSome, IfNone};
ghost use Rattle.ft_items.specs.Item.{Stated as StatedNumbers};
ghost use Rattle.ft_items.specs.Sets.{insert, met, union, unions};
ghost use Rattle.ft_items.specs.Store.{Assertion, Declared, each, entry_named, metavariable_named};
ghost use Rattle.ft_items.specs.Rows.{sets, statements};
ghost use Rattle.ft_placing.specs.Sides.{all_have_sides, has_sides, placed, side_in, sides_in, SideBelow, SidesBelow};
ghost use Rattle.ft_check.specs.AtHand.{generic};
ghost use Rattle.ft_check.specs.Earlier.{declared_before, store_before, GoodBefore};
ghost use Rattle.ft_check.specs.Entries.{EntryBelow};
ghost use Rattle.ft_check.specs.Judging.{stated, Judges};

use crate::binding::against_test;
use crate::entry::{Entry, entry_before};
use crate::metavariable_at::metavariable_at_hand;
use crate::reject::Reject;
use crate::rules_at::union_of;
use ft_assume::{Assume, Atom};
use ft_base::Memory;
use ft_placing::{At, Sides, is_generic_thesis, is_placed, sides_of};
use ft_stated::{Numbers, StatedItems};
use std::alloc::Global;

/// The reason against an entry as the metavariable of a number at its bound variables.
pub fn check_generic(
    alloc: Global,
    items: &StatedItems,
    i: u64,
    found: Entry<'_>,
    m: u64,
) -> Result<Option<Reject>, Memory>
    requires { EntryBelow (length items.now.trees) found }
    ensures { (d : ℕ × Declared) (t : StatedNumbers) → GoodBefore i items.now.items
        → metavariable_named (declared_before i items.now.items) m ≡ Some d
        → IfOk result (λ x. Judges (stated items.now.trees found.entry t)
        (Some (generic d.0 d.1.boundary)) (insert (met d.0) d.1.set) x) }
{
    let Some(declared) = metavariable_at_hand(items, i, m) else {
        return Ok(Some(Reject::Reference));
    };
    let set = Assume::single(alloc, Atom::Met(m))?.union(declared.set)?;
    let claimed = found.parts();
    let is_concluded = is_generic_thesis(items.terms(), m, declared.boundary, &claimed);
    Ok(against_test(is_concluded, &set, found))
}

// The sides of the entry of a number, where it is a plain term, or a plain equation of terms.
fn sides_at(items: &StatedItems, i: u64, at: At, p: u64) -> Option<Sides>
    ensures some { (a : Assertion) → entry_named (store_before i items.now.items) p ≡ Some a
        → IfSome result (λ s. side_in at items.now.trees s ≡ a.statement) }
    ensures none { (a : Assertion) → entry_named (store_before i items.now.items) p ≡ Some a
        → IfNone result (has_sides at a.statement ≡ false) }
    ensures below { IfSome result (λ s. SideBelow (length items.now.trees) s) }
{
    match entry_before(items, i, p) {
        None => None,
        Some(named) => {
            let parts = named.parts();
            sides_of(at, &parts)
        }
    }
}

// The sides of the entries; None where one of them is neither.
#[tactic(auto, using(crate::proofs::SidesFound::found_start, crate::proofs::SidesFound::found_more, crate::proofs::SidesFound::found_end, crate::proofs::SidesFound::found_none))]
fn all_sides(
    alloc: Global,
    items: &StatedItems,
    i: u64,
    at: At,
    ps: &[u64],
) -> Result<Option<Vec<Sides>>, Memory>
    ensures some { (given : List Assertion) → each (entry_named (store_before i items.now.items))
        ps.now ≡ Some given → IfOk result (λ o. IfSome o (λ v. sides_in at items.now.trees v.items ≡
        statements given)) }
    ensures none { (given : List Assertion) → each (entry_named (store_before i items.now.items))
        ps.now ≡ Some given → IfOk result (λ o. IfNone o (all_have_sides at (statements given) ≡
        false)) }
    ensures below { IfOk result (λ o. IfSome o (λ v. SidesBelow (length items.now.trees) v.items)) }
{
    let mut list = Vec::new(alloc);
    for k in 0..ps.len() {
        match sides_at(items, i, at, ps[k]) {
            None => return Ok(None),
            Some(sides) => list.push(sides)?,
        }
    }
    Ok(Some(list))
}

/// The reason against an entry as the metavariable of a number at the terms or the equations of the entries `ps`.
pub fn check_meta(
    alloc: Global,
    items: &StatedItems,
    i: u64,
    found: Entry<'_>,
    at: At,
    m: u64,
    ps: &Numbers,
) -> Result<Option<Reject>, Memory>
    requires { EntryBelow (length items.now.trees) found }
    ensures { (d : ℕ × Declared) (given : List Assertion) (t : StatedNumbers)
        → GoodBefore i items.now.items → metavariable_named (declared_before i items.now.items) m ≡
        Some d → each (entry_named (store_before i items.now.items)) ps.now ≡ Some given
        → IfOk result (λ x. Judges (stated items.now.trees found.entry t)
        (placed at d.0 d.1.boundary (statements given))
        (insert (met d.0) (union d.1.set (unions (sets given)))) x) }
{
    let Some(declared) = metavariable_at_hand(items, i, m) else {
        return Ok(Some(Reject::Reference));
    };
    let Some(sides) = all_sides(alloc, items, i, at, ps.items())? else {
        return Ok(Some(Reject::Premise));
    };
    let named = union_of(alloc, items, i, ps.items())?;
    let others = declared.set.union(&named)?;
    let set = Assume::single(alloc, Atom::Met(m))?.union(&others)?;
    let claimed = found.parts();
    match is_placed(
        alloc,
        items.terms(),
        at,
        m,
        declared.boundary,
        &sides,
        &claimed,
    )? {
        None => Ok(Some(Reject::Premise)),
        Some(is_concluded) => Ok(against_test(is_concluded, &set, found)),
    }
}
