//! Terms for the variables of domains, and the metavariable at terms.

ghost use Rattle.std.specs.Prelude.{◌≡◌, ◌<◌, [], ◌∷◌, length, IfOk};
ghost use Rattle.ft_theory.specs.Small.{IsSmall};
ghost use Rattle.ft_reference.specs.Refusals.{AllSmall, claim_expressions};
ghost use Rattle.ft_syntax.specs.Table.{tree, AllBelow};
ghost use Rattle.ft_judge.specs.Meaning.{claim_in, goal_in, FormBelow, GoalBelow};
ghost use Rattle.ft_calls.specs.Answers.{Stays};
ghost use Rattle.ft_metas.specs.Outcomes.{SmallOr};
ghost use Rattle.ft_metas.specs.Putting.{put_in, goal_with, filled_at};

use ft_judge::{Form, Goal};
use ft_kernel::{Kernel, M};
use ft_syntax::{E, SynFault};

/// The expression below as many domains as there are terms, with the terms for their variables. `TooBig` comes only where
/// the outcome is not small.
pub(crate) fn put(k: &mut Kernel, e: E, terms: &[E]) -> Result<E, SynFault>
    requires below { e < length k.old.trees }
    requires terms { AllBelow (length k.old.trees) terms.now }
    ensures within { IfOk result (λ r. r < length k.new.trees) }
    ensures tree { IfOk result (λ r. tree k.new.trees r ≡ put_in k.old.trees terms.now e) }
    ensures small { SmallOr (IsSmall (put_in k.old.trees terms.now e)) result }
    ensures stays { Stays k.old k.new }
{
    let mut opened = e;
    for i in 0..terms.len() {
        let under = (terms.len() - 1 - i) as u64;
        k.terms().are_small();
        opened = match k.open_bound(opened, under, terms[i]) {
            Ok(opened) => opened,
            Err(fault) => return Err(fault),
        };
    }
    k.terms().are_small();
    Ok(opened)
}

// Two expressions with the terms.
fn put_two(k: &mut Kernel, a: E, b: E, terms: &[E]) -> Result<(E, E), SynFault>
    requires below { (a < length k.old.trees) × (b < length k.old.trees) }
    requires terms { AllBelow (length k.old.trees) terms.now }
    ensures within { IfOk result (λ r. (r.0 < length k.new.trees) × (r.1 < length k.new.trees)) }
    ensures first { IfOk result (λ r. tree k.new.trees r.0 ≡ put_in k.old.trees terms.now a) }
    ensures second { IfOk result (λ r. tree k.new.trees r.1 ≡ put_in k.old.trees terms.now b) }
    ensures small { SmallOr (AllSmall (put_in k.old.trees terms.now a
        ∷ put_in k.old.trees terms.now b ∷ [])) result }
    ensures stays { Stays k.old k.new }
{
    let first = match put(k, a, terms) {
        Ok(first) => first,
        Err(fault) => return Err(fault),
    };
    match put(k, b, terms) {
        Ok(second) => Ok((first, second)),
        Err(fault) => Err(fault),
    }
}

// Three expressions with the terms.
fn put_three(k: &mut Kernel, a: E, b: E, c: E, terms: &[E]) -> Result<(E, E, E), SynFault>
    requires below { (a < length k.old.trees) × (b < length k.old.trees)
        × (c < length k.old.trees) }
    requires terms { AllBelow (length k.old.trees) terms.now }
    ensures within { IfOk result (λ r. (r.0 < length k.new.trees) × (r.1 < length k.new.trees)
        × (r.2 < length k.new.trees)) }
    ensures first { IfOk result (λ r. tree k.new.trees r.0 ≡ put_in k.old.trees terms.now a) }
    ensures second { IfOk result (λ r. tree k.new.trees r.1 ≡ put_in k.old.trees terms.now b) }
    ensures third { IfOk result (λ r. tree k.new.trees r.2 ≡ put_in k.old.trees terms.now c) }
    ensures small { SmallOr (AllSmall (put_in k.old.trees terms.now a
        ∷ put_in k.old.trees terms.now b ∷ put_in k.old.trees terms.now c ∷ [])) result }
    ensures stays { Stays k.old k.new }
{
    let (first, second) = match put_two(k, a, b, terms) {
        Ok(two) => two,
        Err(fault) => return Err(fault),
    };
    match put(k, c, terms) {
        Ok(third) => Ok((first, second, third)),
        Err(fault) => Err(fault),
    }
}

/// The goal below as many domains as there are terms, with the terms for their variables.
pub(crate) fn put_goal(k: &mut Kernel, goal: &Goal, terms: &[E]) -> Result<Goal, SynFault>
    requires below { GoalBelow (length k.old.trees) goal.now }
    requires terms { AllBelow (length k.old.trees) terms.now }
    ensures within { IfOk result (λ g. GoalBelow (length k.new.trees) g) }
    ensures goal { IfOk result (λ g.
        goal_in k.new.trees g ≡ goal_with k.old.trees terms.now (goal_in k.old.trees goal.now)) }
    ensures small { SmallOr (AllSmall (claim_expressions
        (goal_with k.old.trees terms.now (goal_in k.old.trees goal.now)))) result }
    ensures stays { Stays k.old k.new }
{
    match *goal {
        Goal::Ty => Ok(Goal::Ty),
        Goal::Tm(a) => match put(k, a, terms) {
            Ok(a) => Ok(Goal::Tm(a)),
            Err(fault) => Err(fault),
        },
        Goal::EqTy(a, b) => match put_two(k, a, b, terms) {
            Ok((a, b)) => Ok(Goal::EqTy(a, b)),
            Err(fault) => Err(fault),
        },
        Goal::EqTm(s, t, a) => match put_three(k, s, t, a, terms) {
            Ok((s, t, a)) => Ok(Goal::EqTm(s, t, a)),
            Err(fault) => Err(fault),
        },
    }
}

/// The goal filled with the metavariable at the terms, where it is that of a type or a term.
pub(crate) fn filled(k: &mut Kernel, m: M, goal: &Goal, terms: &[E]) -> Result<Form, SynFault>
    requires goal { GoalBelow (length k.old.trees) goal.now }
    requires terms { AllBelow (length k.old.trees) terms.now }
    requires small { AllSmall (claim_expressions (goal_in k.old.trees goal.now)) }
    ensures within { IfOk result (λ f. FormBelow (length k.new.trees) f) }
    ensures form { IfOk result (λ f. claim_in k.new.trees f ≡
        filled_at k.old.trees goal.now m terms.now) }
    ensures small { SmallOr (AllSmall (claim_expressions
        (filled_at k.old.trees goal.now m terms.now))) result }
    ensures stays { Stays k.old k.new }
{
    match *goal {
        Goal::Ty => Ok(Form::Ty(k.meta(m.number(), terms)?)),
        Goal::Tm(a) => Ok(Form::Tm(k.meta(m.number(), terms)?, a)),
        Goal::EqTy(a, b) => Ok(Form::EqTy(a, b)),
        Goal::EqTm(s, t, a) => Ok(Form::EqTm(s, t, a)),
    }
}
