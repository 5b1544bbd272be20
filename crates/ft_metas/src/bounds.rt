//! Metavariables at their bound variables.

ghost use Rattle.std.specs.Prelude.{◌≡◌, ◌<◌, ◌+◌, ◌^◌, length, IfOk};
ghost use Rattle.ft_theory.specs.Expressions.{bound as bound_variable};
ghost use Rattle.ft_items.specs.Item.{by_generic};
ghost use Rattle.ft_items.specs.Rows.{bounds as bound_terms};
ghost use Rattle.ft_items.specs.Store.{metavariables_in};
ghost use Rattle.ft_syntax.specs.Table.{tree, terms_in, AllBelow};
ghost use Rattle.ft_kernel.specs.State.{IsThesisOf};
ghost use Rattle.ft_calls.specs.Answers.{Stays, Answers};

use crate::named::{boundary_of, own_set};
use crate::putting::filled;
use ft_base::Memory;
use ft_calls::conclude;
use ft_judge::{Domains, Fault, Thesis};
use ft_kernel::{J, Kernel, M, Step};
use ft_syntax::{E, SynFault};
use std::alloc::Global;

/// The metavariable at its bound variables, under the domains of its boundary.
pub fn generic(alloc: Global, k: &mut Kernel, m: M) -> Result<J, Fault>
    requires { m < length (metavariables_in k.old.items) }
    ensures answers { Answers k.old (by_generic m) result k.new }
    ensures thesis { IfOk result (λ j. IsThesisOf k.new j) }
{
    let _terms = k.terms();
    let boundary = boundary_of(k, m)?;
    let set = own_set(alloc, k, m)?;
    let terms = bounds(alloc, k, boundary.domains.items().len())?;
    k.terms().are_small();
    let form = match filled(k, m, &boundary.goal, terms.items()) {
        Ok(form) => form,
        Err(fault) => return Err(Fault::from(fault)),
    };
    let domains = boundary.domains;
    conclude(k, Thesis { domains, form }, set, Step::Generic(m))
}

// The bound variables of so many domains, the outermost first.
fn bounds(alloc: Global, k: &mut Kernel, n: usize) -> Result<Domains, Memory>
    requires { n < 2 ^ 63 }
    ensures within { IfOk result (λ es. AllBelow (length k.new.trees) es) }
    ensures terms { IfOk result (λ es. terms_in k.new.trees es ≡ bound_terms n) }
    ensures stays { Stays k.old k.new }
{
    let mut list = Domains::new(alloc);
    for i in 0..n {
        let e = bound(k, (n - 1 - i) as u64)?;
        list.push(e)?;
    }
    Ok(list)
}

// The bound variable of a number, in the table. It is small.
#[tactic(auto, using(crate::proofs::Bounding::bound_small))]
fn bound(k: &mut Kernel, i: u64) -> Result<E, Memory>
    requires { i + 1 < 2 ^ 64 }
    ensures within { IfOk result (λ r. r < length k.new.trees) }
    ensures tree { IfOk result (λ r. tree k.new.trees r ≡ bound_variable i) }
    ensures stays { Stays k.old k.new }
{
    match k.bound(i) {
        Ok(e) => Ok(e),
        Err(SynFault::Memory) => Err(Memory),
        Err(SynFault::TooBig) => unreachable!(),
    }
}
