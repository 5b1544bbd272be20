//! Arguments for premises with equations that start at them: both sides, put for the premises' metavariables.

ghost use Rattle.std.specs.Prelude.{◌≡◌, ◌&&◌, ℕ, List, is_some, take, IfOk, IfSome};
ghost use Rattle.ft_items.specs.Equal.{start_all};
ghost use Rattle.ft_items.specs.Store.{Assertion, Declared, premises_of};
ghost use Rattle.ft_items.specs.Rows.{are_arguments, statements};
ghost use Rattle.ft_check.specs.Arguing.{AreDeclared, AreTheses};
ghost use Rattle.ft_check.specs.Equations.{AreSides};
ghost use Rattle.ft_check.specs.Putting.{IsPutIn};

use crate::arguing::put_arguments;
use crate::copies::put_all;
use crate::instances::Put;
use crate::rights::rights_of;
use ft_base::Memory;
use ft_stated::StatedItems;
use std::alloc::Global;

/// The heads of arguments, and the right sides of equations that start at them, each put for the metavariables of the premises.
#[derive(Drop)]
pub struct Sides {
    pub left: Put,
    pub right: Put,
}

/// Both sides of the entries `ps` and the equations `es` put for the metavariables `ms`, or None where the first are no arguments
/// for these, or the second no equations that start at them.
pub fn sides_of(
    alloc: Global,
    items: &StatedItems,
    i: u64,
    ms: &[u64],
    ps: &[u64],
    es: &[u64],
) -> Result<Option<Sides>, Memory>
    ensures are { (ds : List (ℕ × Declared)) (xs ys : List Assertion)
        → AreDeclared (take i items.now.items) ms.now ds
        → AreTheses (take i items.now.items) ps.now xs
        → AreTheses (take i items.now.items) es.now ys
        → IfOk result (λ o. is_some o ≡ (are_arguments (premises_of ds) (statements xs)
        && start_all (statements xs) (statements ys))) }
    ensures sides { (ds : List (ℕ × Declared)) (xs ys : List Assertion)
        → AreDeclared (take i items.now.items) ms.now ds
        → AreTheses (take i items.now.items) ps.now xs
        → AreTheses (take i items.now.items) es.now ys
        → IfOk result (λ o. IfSome o (λ s. AreSides s (premises_of ds) (statements xs)
        (statements ys))) }
    ensures below { IfOk result (λ o. IfSome o (λ s. IsPutIn s.left × IsPutIn s.right)) }
{
    let Some(left) = put_arguments(alloc, items, i, ms, ps)? else {
        return Ok(None);
    };
    let Some(rights) = rights_of(alloc, items, i, ps, es)? else {
        return Ok(None);
    };
    let right = put_all(alloc, items.terms(), ms, &rights)?;
    Ok(Some(Sides { left, right }))
}
