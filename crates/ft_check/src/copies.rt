//! Arguments of another table, put for the metavariables of a rule.

ghost use Rattle.std.specs.Prelude.{◌≡◌, ℕ, List, length, map, IfOk};
ghost use Rattle.ft_theory.specs.Statements.{Statement};
ghost use Rattle.ft_syntax.specs.Table.{arguments_in, ArgumentsBelow};
ghost use Rattle.ft_check.specs.Arguing.{IsPut};
ghost use Rattle.ft_check.specs.Putting.{IsPutIn};

use crate::instances::{Put, copy, paired};
use ft_base::Memory;
use ft_syntax::{Arg, Instance, Terms};
use std::alloc::Global;

// The arguments of another table.
#[tactic(auto, using(crate::proofs::Copied::copied_start, crate::proofs::Copied::copied_below, crate::proofs::Copied::copied_end))]
fn all_copied(
    alloc: Global,
    terms: &mut Terms,
    other: &Terms,
    arguments: &[Arg],
) -> Result<Vec<Arg>, Memory>
    requires { ArgumentsBelow (length other.now) arguments.now }
    ensures are { IfOk result (λ xs. arguments_in terms.new xs.items
        ≡ arguments_in other.now arguments.now) }
    ensures below { IfOk result (λ xs. ArgumentsBelow (length terms.new) xs.items) }
{
    let mut list = Vec::new(alloc);
    for k in 0..arguments.len() {
        let Arg { binders, body } = copy(terms, other, arguments[k])?;
        list.push(Arg { binders, body })?;
    }
    Ok(list)
}

/// The arguments of another table, put for the metavariables `ms`.
#[tactic(auto, using(crate::proofs::HeadsPut::pairs_below))]
pub fn put_all(alloc: Global, other: &Terms, ms: &[u64], arguments: &[Arg]) -> Result<Put, Memory>
    requires { ArgumentsBelow (length other.now) arguments.now }
    ensures put { (qs : List (ℕ × Statement)) → map (λ (q : ℕ × Statement). q.0) qs ≡ ms.now
        → IfOk result (λ x. IsPut x qs (arguments_in other.now arguments.now)) }
    ensures below { IfOk result (λ x. IsPutIn x) }
{
    let mut terms = Terms::new(alloc);
    let arguments = all_copied(alloc, &mut terms, other, arguments)?;
    let pairs = paired(alloc, ms, &arguments)?;
    Ok(Put {
        terms,
        instance: Instance { pairs },
        arguments,
    })
}
