//! Metavariables at terms.

ghost use Rattle.std.specs.Prelude.{◌<◌, length, IfOk};
ghost use Rattle.ft_items.specs.Item.{by_meta};
ghost use Rattle.ft_items.specs.Store.{metavariables_in};
ghost use Rattle.ft_items.specs.Rows.{applied_meta};
ghost use Rattle.ft_reference.specs.Checks.{meta_checks};
ghost use Rattle.ft_judge.specs.Meaning.{FormBelow};
ghost use Rattle.ft_kernel.specs.State.{IsThesisOf};
ghost use Rattle.ft_calls.specs.Answers.{Answers, Stays};
ghost use Rattle.ft_calls.specs.Forming.{plain_in};
ghost use Rattle.ft_metas.specs.Named.{statements_of, declared_of, AreThesesOf};
ghost use Rattle.ft_metas.specs.Outcomes.{Formed};

use crate::named::{boundary_of, set_at};
use crate::operands::{Given, operands};
use crate::putting::{filled, put_goal};
use ft_calls::{conclude, plain};
use ft_judge::{Fault, Form};
use ft_kernel::{J, Judgements, Kernel, M, Step};
use std::alloc::Global;

/// The metavariable at the terms of the theses.
pub fn meta_apply(alloc: Global, k: &mut Kernel, m: M, args: &[J]) -> Result<J, Fault>
    requires metavariable { m < length (metavariables_in k.old.items) }
    requires arguments { AreThesesOf k.old args.now }
    ensures answers { Answers k.old (by_meta m args.now) result k.new }
    ensures thesis { IfOk result (λ j. IsThesisOf k.new j) }
{
    let _terms = k.terms();
    let form = match applied(alloc, k, m, args) {
        Ok(form) => form,
        Err(fault) => return Err(fault),
    };
    let set = set_at(alloc, k, m, args)?;
    let step = Step::Meta(m, Judgements::of(alloc, args)?);
    conclude(k, plain(alloc, form), set, step)
}

// The metavariable at the terms, one for each domain of its boundary.
fn applied(alloc: Global, k: &mut Kernel, m: M, args: &[J]) -> Result<Form, Fault>
    requires metavariable { m < length (metavariables_in k.old.items) }
    requires arguments { AreThesesOf k.old args.now }
    ensures within { IfOk result (λ f. FormBelow (length k.new.trees) f) }
    ensures formed { Formed (plain_in k.new.trees) k.new.trees
        (meta_checks m (declared_of k.old.items m).boundary (statements_of k.old.items args.now))
        (applied_meta m (declared_of k.old.items m).boundary (statements_of k.old.items args.now))
        result }
    ensures stays { Stays k.old k.new }
{
    let boundary = boundary_of(k, m)?;
    let terms = match operands(alloc, k, Given::Terms, &boundary, args) {
        Ok(terms) => terms,
        Err(fault) => return Err(fault),
    };
    let goal = match put_goal(k, &boundary.goal, terms.items()) {
        Ok(goal) => goal,
        Err(fault) => return Err(Fault::from(fault)),
    };
    match filled(k, m, &goal, terms.items()) {
        Ok(form) => Ok(form),
        Err(fault) => Err(Fault::from(fault)),
    }
}
