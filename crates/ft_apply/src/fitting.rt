//! Arguments that fit the premises of a rule.

ghost use Rattle.std.specs.Prelude.{◌≡◌, ◌<◌, length, IfOk};
ghost use Rattle.ft_theory.specs.Rules.{instance_of};
ghost use Rattle.ft_items.specs.Store.{metavariables_in};
ghost use Rattle.ft_items.specs.Equal.{heads as heads_of};
ghost use Rattle.ft_reference.specs.Compare.{fit_checks, argument_checks};
ghost use Rattle.ft_syntax.specs.Table.{arguments_in, AllBelow, ArgumentsBelow};
ghost use Rattle.ft_syntax.specs.Instances.{instance_in, PairsBelow};
ghost use Rattle.ft_judge.specs.Meaning.{thesis_in, boundary_in, ThesisBelow, BoundaryBelow};
ghost use Rattle.ft_judge.specs.declared.fault.Refusal.TheVariants.{ArgumentCount};
ghost use Rattle.ft_judge.specs.declared.fault.Fault.TheVariants.{Refused};
ghost use Rattle.ft_kernel.specs.State.{IsThesisOf};
ghost use Rattle.ft_calls.specs.Answers.{Stays};
ghost use Rattle.ft_apply.specs.Named.{entry_of, statements_of, AreThesesOf, boundary_of_met, premises_in};
ghost use Rattle.ft_apply.specs.Outcomes.{Asks, Tests, one_argument_checks, given_checks};
ghost use Rattle.ft_apply.specs.Instances.{boundary_at};

use crate::named::{heads, instance};
use crate::putting::put_boundary;
use ft_base::Sequence;
use ft_judge::{Boundary, Fault, Refusal, Thesis, fits};
use ft_kernel::{J, Kernel, M};
use ft_syntax::{Arg, Instance, Terms};
use std::alloc::Global;

/// Arguments that fit their premises: their heads, and the instance that they are.
#[derive(Debug, Drop)]
pub(crate) struct Given {
    pub(crate) heads: Sequence<Arg>,
    pub(crate) instance: Instance,
}

/// So many were given, so many are wanted.
pub(crate) fn counts(given: usize, wanted: usize) -> Fault
    ensures { result ≡ Refused (ArgumentCount given wanted) }
{
    Fault::Refused(Refusal::ArgumentCount(given as u64, wanted as u64))
}

/// Whether the thesis fits the boundary, which stand over the table.
pub(crate) fn compare(t: &Terms, x: &Thesis, b: &Boundary) -> Result<(), Refusal>
    requires thesis { ThesisBelow (length t.now) x.now }
    requires boundary { BoundaryBelow (length t.now) b.now }
    ensures { Tests t.now (fit_checks (thesis_in t.now x.now) (boundary_in t.now b.now)) result }
{
    fits(t, x, b)
}

/// Whether a thesis fits the boundary, at the instance.
pub(crate) fn fit_at(
    alloc: Global,
    k: &mut Kernel,
    j: J,
    b: &Boundary,
    i: &Instance,
) -> Result<(), Fault>
    requires thesis { IsThesisOf k.old j }
    requires boundary { BoundaryBelow (length k.old.trees) b.now }
    requires pairs { PairsBelow (length k.old.trees) i.now.pairs }
    ensures checks { Asks k.new.trees (one_argument_checks
        (boundary_at k.old.trees i.now.pairs (boundary_in k.old.trees b.now))
        (entry_of k.old.items j).statement) result }
    ensures stays { Stays k.old k.new }
{
    let wanted = match put_boundary(alloc, k, b, i) {
        Ok(wanted) => wanted,
        Err(fault) => return Err(Fault::from(fault)),
    };
    match compare(k.terms(), k.thesis_of(j), &wanted) {
        Ok(()) => Ok(()),
        Err(refusal) => Err(Fault::Refused(refusal)),
    }
}

// Whether a thesis fits the boundary of a premise, at the instance.
fn fit(alloc: Global, k: &mut Kernel, j: J, m: M, i: &Instance) -> Result<(), Fault>
    requires thesis { IsThesisOf k.old j }
    requires met { m < length (metavariables_in k.old.items) }
    requires pairs { PairsBelow (length k.old.trees) i.now.pairs }
    ensures checks { Asks k.new.trees (one_argument_checks
        (boundary_at k.old.trees i.now.pairs (boundary_of_met k.old.items m))
        (entry_of k.old.items j).statement) result }
    ensures stays { Stays k.old k.new }
{
    let boundary = k.boundary_at(k.met(m).boundary).copy()?;
    fit_at(alloc, k, j, &boundary, i)
}

// Whether each thesis fits the boundary of the premise in its place, at the instance.
#[tactic(auto, using(crate::proofs::Asking::fitting_start, crate::proofs::Asking::fitting_more, crate::proofs::Asking::fitting_end))]
fn fit_all(
    alloc: Global,
    k: &mut Kernel,
    premises: &[M],
    args: &[J],
    i: &Instance,
) -> Result<(), Fault>
    requires premises { AllBelow (length (metavariables_in k.old.items)) premises.now }
    requires arguments { AreThesesOf k.old args.now }
    requires count { length premises.now ≡ length args.now }
    requires pairs { PairsBelow (length k.old.trees) i.now.pairs }
    ensures checks { Asks k.new.trees (argument_checks (boundary_at k.old.trees i.now.pairs)
        (premises_in k.old.items premises.now) (statements_of k.old.items args.now)) result }
    ensures stays { Stays k.old k.new }
{
    for n in 0..args.len() {
        match fit(alloc, k, args[n], premises[n], i) {
            Ok(()) => {}
            Err(fault) => return Err(fault),
        }
    }
    Ok(())
}

/// The theses as arguments for the premises, which they fit.
pub(crate) fn arguments(
    alloc: Global,
    k: &mut Kernel,
    premises: &[M],
    args: &[J],
) -> Result<Given, Fault>
    requires premises { AllBelow (length (metavariables_in k.old.items)) premises.now }
    requires arguments { AreThesesOf k.old args.now }
    requires count { length premises.now ≡ length args.now }
    ensures heads { IfOk result (λ g. arguments_in k.new.trees g.heads ≡
        heads_of (statements_of k.old.items args.now)) }
    ensures below { IfOk result (λ g. ArgumentsBelow (length k.new.trees) g.heads) }
    ensures instance { IfOk result (λ g. instance_in k.new.trees g.instance.pairs ≡
        instance_of (premises_in k.old.items premises.now)
        (heads_of (statements_of k.old.items args.now))) }
    ensures pairs { IfOk result (λ g. PairsBelow (length k.new.trees) g.instance.pairs) }
    ensures checks { Asks k.new.trees (given_checks (premises_in k.old.items premises.now)
        (statements_of k.old.items args.now)) result }
    ensures stays { Stays k.old k.new }
{
    let heads = heads(alloc, k, args)?;
    let instance = instance(alloc, premises, heads.items())?;
    match fit_all(alloc, k, premises, args, &instance) {
        Ok(()) => Ok(Given { heads, instance }),
        Err(fault) => Err(fault),
    }
}
