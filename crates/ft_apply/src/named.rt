//! The arguments of a rule: their heads, their sets, and the instance that they are.

ghost use Rattle.std.specs.Prelude.{◌≡◌, length, IfOk};
ghost use Rattle.std.specs.List.{zip};
ghost use Rattle.ft_items.specs.Sets.{unions};
ghost use Rattle.ft_items.specs.Equal.{heads as heads_of};
ghost use Rattle.ft_items.specs.Rows.{sets as sets_in};
ghost use Rattle.ft_syntax.specs.Table.{argument_in, arguments_in, BodyBelow, ArgumentsBelow};
ghost use Rattle.ft_kernel.specs.State.{IsThesisOf};
ghost use Rattle.ft_apply.specs.Named.{entry_of, entries_of, statements_of, AreThesesOf, head_argument};

use ft_assume::Assume;
use ft_base::{Memory, Sequence};
use ft_judge::head_of;
use ft_kernel::{J, Kernel, M};
use ft_syntax::{Arg, Instance, Pairs};
use std::alloc::Global;

/// The head of a thesis.
pub(crate) fn head(k: &Kernel, j: J) -> Arg
    requires { IsThesisOf k.now j }
    ensures head { argument_in k.now.trees result ≡
        head_argument (entry_of k.now.items j).statement }
    ensures below { BodyBelow (length k.now.trees) result.body }
{
    head_of(k.thesis_of(j))
}

/// The heads of theses, as arguments.
#[tactic(auto, using(crate::proofs::Naming::thesis_named, crate::proofs::Naming::heading_start, crate::proofs::Naming::heading_more, crate::proofs::Naming::heading_end))]
pub(crate) fn heads(alloc: Global, k: &Kernel, args: &[J]) -> Result<Sequence<Arg>, Memory>
    requires { AreThesesOf k.now args.now }
    ensures heads { IfOk result (λ r.
        arguments_in k.now.trees r ≡ heads_of (statements_of k.now.items args.now)) }
    ensures below { IfOk result (λ r. ArgumentsBelow (length k.now.trees) r) }
    ensures count { IfOk result (λ r. length r ≡ length args.now) }
{
    let mut found = Sequence::new(alloc);
    for i in 0..args.len() {
        found.push(head(k, args[i]))?;
    }
    Ok(found)
}

/// The sets of theses, together.
#[tactic(auto, using(crate::proofs::Naming::thesis_named, crate::proofs::Naming::joining_start, crate::proofs::Naming::joining_more, crate::proofs::Naming::joining_end))]
pub(crate) fn sets(alloc: Global, k: &Kernel, args: &[J]) -> Result<Assume, Memory>
    requires { AreThesesOf k.now args.now }
    ensures { IfOk result (λ s. s ≡ unions (sets_in (entries_of k.now.items args.now))) }
{
    let mut set = Assume::new(alloc);
    for i in 0..args.len() {
        let last = args[args.len() - 1 - i];
        set = k.asm_of(last).union(&set)?;
    }
    Ok(set)
}

/// The instance that has arguments for premises.
#[tactic(auto, using(crate::proofs::Pairing::pairing_start, crate::proofs::Pairing::pairing_more, crate::proofs::Pairing::pairing_end))]
pub(crate) fn instance(alloc: Global, premises: &[M], arguments: &[Arg]) -> Result<Instance, Memory>
    requires { length premises.now ≡ length arguments.now }
    ensures { IfOk result (λ i. i.pairs ≡ zip premises.now arguments.now) }
{
    let mut pairs = Pairs::new(alloc);
    for i in 0..arguments.len() {
        pairs.push((premises[i].number(), arguments[i]))?;
    }
    Ok(Instance { pairs })
}
