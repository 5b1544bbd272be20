//! Theses as arguments for premises, put for their metavariables.

ghost use Rattle.std.specs.Prelude.{◌≡◌, ℕ, List, is_some, length, take, IfOk, IfSome};
ghost use Rattle.ft_items.specs.Equal.{heads};
ghost use Rattle.ft_items.specs.Store.{Assertion, Declared, premises_of};
ghost use Rattle.ft_items.specs.Rows.{are_arguments, statements};
ghost use Rattle.ft_check.specs.Arguing.{AreDeclared, AreTheses, IsPut};
ghost use Rattle.ft_check.specs.Putting.{IsPutIn};

use crate::fitting::push_premises;
use crate::instances::{Put, put_heads};
use ft_base::Memory;
use ft_stated::StatedItems;
use std::alloc::Global;

/// The heads of the entries `ps`, put for the metavariables `ms`, or None where the entries are no arguments for these.
pub fn put_arguments(
    alloc: Global,
    items: &StatedItems,
    i: u64,
    ms: &[u64],
    ps: &[u64],
) -> Result<Option<Put>, Memory>
    ensures are { (ds : List (ℕ × Declared)) (xs : List Assertion)
        → AreDeclared (take i items.now.items) ms.now ds
        → AreTheses (take i items.now.items) ps.now xs
        → IfOk result (λ o. is_some o ≡ are_arguments (premises_of ds) (statements xs)) }
    ensures put { (ds : List (ℕ × Declared)) (xs : List Assertion)
        → AreDeclared (take i items.now.items) ms.now ds
        → AreTheses (take i items.now.items) ps.now xs
        → IfOk result (λ o. IfSome o (λ x. IsPut x (premises_of ds) (heads (statements xs)))) }
    ensures below { IfOk result (λ o. IfSome o (λ x. IsPutIn x)) }
{
    let mut list = Vec::new(alloc);
    if !push_premises(&mut list, items, i, ms, ps)? {
        return Ok(None);
    }
    let mut put = put_heads(alloc, items, i, ms, ps)?;
    if !put.are_instances(items.terms(), &list)? {
        return Ok(None);
    }
    Ok(Some(put))
}
