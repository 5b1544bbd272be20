//! Boundaries at an instance.

ghost use Rattle.std.specs.Prelude.{◌≡◌, ◌<◌, [], ◌∷◌, length, map, IfOk};
ghost use Rattle.ft_theory.specs.Small.{IsSmall};
ghost use Rattle.ft_reference.specs.Refusals.{AllSmall, claim_expressions, expressions};
ghost use Rattle.ft_syntax.specs.Table.{tree, AllBelow};
ghost use Rattle.ft_syntax.specs.Instances.{PairsBelow};
ghost use Rattle.ft_judge.specs.Meaning.{goal_in, boundary_in, GoalBelow, BoundaryBelow};
ghost use Rattle.ft_calls.specs.Answers.{Stays};
ghost use Rattle.ft_parts.specs.Instances.{SmallOr};
ghost use Rattle.ft_parts.specs.Instances.{expression_at, goal_at, boundary_at};

use ft_judge::{Boundary, Domains, Goal};
use ft_kernel::Kernel;
use ft_syntax::{E, Instance, SynFault};
use std::alloc::Global;

// The expression at the instance.
fn put(k: &mut Kernel, e: E, i: &Instance) -> Result<E, SynFault>
    requires below { e < length k.old.trees }
    requires pairs { PairsBelow (length k.old.trees) i.now.pairs }
    ensures within { IfOk result (λ r. r < length k.new.trees) }
    ensures tree { IfOk result (λ r. tree k.new.trees r ≡ expression_at k.old.trees i.now.pairs e) }
    ensures small { SmallOr (IsSmall (expression_at k.old.trees i.now.pairs e)) result }
    ensures stays { Stays k.old k.new }
{
    let r = k.instantiate(e, i)?;
    let _depth = k.terms().depth(r);
    Ok(r)
}

// Two expressions at the instance.
fn put_two(k: &mut Kernel, a: E, b: E, i: &Instance) -> Result<(E, E), SynFault>
    requires below { (a < length k.old.trees) × (b < length k.old.trees) }
    requires pairs { PairsBelow (length k.old.trees) i.now.pairs }
    ensures within { IfOk result (λ r. (r.0 < length k.new.trees) × (r.1 < length k.new.trees)) }
    ensures first { IfOk result (λ r.
        tree k.new.trees r.0 ≡ expression_at k.old.trees i.now.pairs a) }
    ensures second { IfOk result (λ r.
        tree k.new.trees r.1 ≡ expression_at k.old.trees i.now.pairs b) }
    ensures small { SmallOr (AllSmall (expression_at k.old.trees i.now.pairs a
        ∷ expression_at k.old.trees i.now.pairs b ∷ [])) result }
    ensures stays { Stays k.old k.new }
{
    let first = match put(k, a, i) {
        Ok(first) => first,
        Err(fault) => return Err(fault),
    };
    match put(k, b, i) {
        Ok(second) => Ok((first, second)),
        Err(fault) => Err(fault),
    }
}

// Three expressions at the instance.
fn put_three(k: &mut Kernel, a: E, b: E, c: E, i: &Instance) -> Result<(E, E, E), SynFault>
    requires below { (a < length k.old.trees) × (b < length k.old.trees)
        × (c < length k.old.trees) }
    requires pairs { PairsBelow (length k.old.trees) i.now.pairs }
    ensures within { IfOk result (λ r. (r.0 < length k.new.trees) × (r.1 < length k.new.trees)
        × (r.2 < length k.new.trees)) }
    ensures first { IfOk result (λ r.
        tree k.new.trees r.0 ≡ expression_at k.old.trees i.now.pairs a) }
    ensures second { IfOk result (λ r.
        tree k.new.trees r.1 ≡ expression_at k.old.trees i.now.pairs b) }
    ensures third { IfOk result (λ r.
        tree k.new.trees r.2 ≡ expression_at k.old.trees i.now.pairs c) }
    ensures small { SmallOr (AllSmall (expression_at k.old.trees i.now.pairs a
        ∷ expression_at k.old.trees i.now.pairs b
        ∷ expression_at k.old.trees i.now.pairs c ∷ [])) result }
    ensures stays { Stays k.old k.new }
{
    let (first, second) = match put_two(k, a, b, i) {
        Ok(two) => two,
        Err(fault) => return Err(fault),
    };
    match put(k, c, i) {
        Ok(third) => Ok((first, second, third)),
        Err(fault) => Err(fault),
    }
}

/// The goal at the instance.
pub(crate) fn put_goal(k: &mut Kernel, goal: &Goal, i: &Instance) -> Result<Goal, SynFault>
    requires below { GoalBelow (length k.old.trees) goal.now }
    requires pairs { PairsBelow (length k.old.trees) i.now.pairs }
    ensures within { IfOk result (λ g. GoalBelow (length k.new.trees) g) }
    ensures goal { IfOk result (λ g.
        goal_in k.new.trees g ≡ goal_at k.old.trees i.now.pairs (goal_in k.old.trees goal.now)) }
    ensures small { SmallOr (AllSmall (claim_expressions
        (goal_at k.old.trees i.now.pairs (goal_in k.old.trees goal.now)))) result }
    ensures stays { Stays k.old k.new }
{
    match *goal {
        Goal::Ty => Ok(Goal::Ty),
        Goal::Tm(a) => match put(k, a, i) {
            Ok(a) => Ok(Goal::Tm(a)),
            Err(fault) => Err(fault),
        },
        Goal::EqTy(a, b) => match put_two(k, a, b, i) {
            Ok((a, b)) => Ok(Goal::EqTy(a, b)),
            Err(fault) => Err(fault),
        },
        Goal::EqTm(s, t, a) => match put_three(k, s, t, a, i) {
            Ok((s, t, a)) => Ok(Goal::EqTm(s, t, a)),
            Err(fault) => Err(fault),
        },
    }
}

// The expressions at the instance, in their order.
#[tactic(auto, using(crate::proofs::AtInstances::putting_start, crate::proofs::AtInstances::putting_more, crate::proofs::AtInstances::putting_end, crate::proofs::AtInstances::putting_small, crate::proofs::AtInstances::putting_below, crate::proofs::AtInstances::putting_pairs))]
fn put_all(alloc: Global, k: &mut Kernel, es: &[E], i: &Instance) -> Result<Domains, SynFault>
    requires below { AllBelow (length k.old.trees) es.now }
    requires pairs { PairsBelow (length k.old.trees) i.now.pairs }
    ensures within { IfOk result (λ r. AllBelow (length k.new.trees) r) }
    ensures trees { IfOk result (λ r.
        map (tree k.new.trees) r ≡ map (expression_at k.old.trees i.now.pairs) es.now) }
    ensures small { SmallOr (AllSmall (map (expression_at k.old.trees i.now.pairs) es.now)) result }
    ensures stays { Stays k.old k.new }
{
    let mut list = Domains::new(alloc);
    for j in 0..es.len() {
        let e = match put(k, es[j], i) {
            Ok(e) => e,
            Err(fault) => return Err(fault),
        };
        list.push(e)?;
    }
    Ok(list)
}

/// The boundary at the instance. `TooBig` comes exactly where an expression of it is not small.
pub(crate) fn put_boundary(
    alloc: Global,
    k: &mut Kernel,
    b: &Boundary,
    i: &Instance,
) -> Result<Boundary, SynFault>
    requires below { BoundaryBelow (length k.old.trees) b.now }
    requires pairs { PairsBelow (length k.old.trees) i.now.pairs }
    ensures within { IfOk result (λ r. BoundaryBelow (length k.new.trees) r) }
    ensures boundary { IfOk result (λ r. boundary_in k.new.trees r ≡
        boundary_at k.old.trees i.now.pairs (boundary_in k.old.trees b.now)) }
    ensures small { SmallOr (AllSmall (expressions
        (boundary_at k.old.trees i.now.pairs (boundary_in k.old.trees b.now)))) result }
    ensures stays { Stays k.old k.new }
{
    let domains = match put_all(alloc, k, b.domains.items(), i) {
        Ok(domains) => domains,
        Err(fault) => return Err(fault),
    };
    match put_goal(k, &b.goal, i) {
        Ok(goal) => Ok(Boundary { domains, goal }),
        Err(fault) => Err(fault),
    }
}
