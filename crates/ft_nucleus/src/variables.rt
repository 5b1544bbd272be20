//! Variables as terms.

ghost use Rattle.std.specs.Prelude.{◌≡◌, ◌<◌, length, IfOk, OnErr};
ghost use Rattle.ft_theory.specs.Expressions.{free as free_variable};
ghost use Rattle.ft_items.specs.Item.{by_var};
ghost use Rattle.ft_syntax.specs.Table.{tree, Extends};
ghost use Rattle.ft_kernel.specs.State.{IsThesisOf, IsVariableOf};
ghost use Rattle.ft_calls.specs.Answers.{Stays, Answers};

use crate::naming::{type_at, type_entry};
use ft_assume::{Assume, Atom};
use ft_base::Memory;
use ft_calls::{conclude, plain};
use ft_judge::{Fault, Form};
use ft_kernel::{J, Kernel, Step, V};
use ft_syntax::{E, SynFault};
use std::alloc::Global;

/// The variable at its type.
pub fn variable(alloc: Global, k: &mut Kernel, v: V) -> Result<J, Fault>
    requires { IsVariableOf k.old v }
    ensures answers { Answers k.old (by_var v) result k.new }
    ensures thesis { IfOk result (λ j. IsThesisOf k.new j) }
{
    let entry = type_entry(k, v);
    let ty = type_at(k, entry);
    let own = Assume::single(alloc, Atom::Var(v.number()))?;
    let set = own.union(k.asm_of(entry))?;
    let term = free(k, v.number())?;
    conclude(k, plain(alloc, Form::Tm(term, ty)), set, Step::Var(v))
}

// The free variable of a number, in the table. It is small.
fn free(k: &mut Kernel, v: u64) -> Result<E, Memory>
    ensures within { IfOk result (λ r. r < length k.new.trees) }
    ensures tree { IfOk result (λ r. tree k.new.trees r ≡ free_variable v) }
    ensures stays { Stays k.old k.new }
{
    match k.free(v) {
        Ok(term) => Ok(term),
        Err(SynFault::Memory) => Err(Memory),
        Err(SynFault::TooBig) => unreachable!(),
    }
}
