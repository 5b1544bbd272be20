//! Calls on rules and metavariables at lists of theses.

ghost use Rattle.std.specs.Prelude.{IfOk, IfErr, IfSome, length};
ghost use Rattle.ft_kernel.specs.State.{IsThesisOf};
ghost use Rattle.ft_apply.specs.Named.{AreThesesOf};
ghost use Rattle.ft_tests_nucleus.specs.Drafts.{Grows};
ghost use Rattle.ft_tests_nucleus.specs.Faults.{StopBelow};

use crate::naming::{boundary, metavariable, rule, thesis};
use crate::script::Call;
use crate::stop::{Stop, boundary_or, thesis_or};
use ft_apply::{apply, apply_with, congruence, convert_premise, next_boundary};
use ft_kernel::{B, J, Judgements, Kernel};
use ft_metas::{generic, meta_apply, meta_congruence};
use std::alloc::Global;

// The theses at places, or None where one of them is none, or memory was refused.
#[tactic(auto, using(crate::proofs::Listing::theses_more))]
fn theses(alloc: Global, k: &Kernel, places: &[u64]) -> Option<Judgements>
    ensures { IfSome result (λ js. AreThesesOf k.now js) }
{
    let mut found = Judgements::new(alloc);
    for i in 0..places.len() {
        let j = thesis(k, places[i])?;
        found.push(j).ok()?;
    }
    Some(found)
}

/// The boundary of the premise after theses.
#[tactic(auto, using(crate::proofs::Below::answers_below, crate::proofs::Growing::answers_grow))]
pub fn next(alloc: Global, k: &mut Kernel, r: u64, args: &[u64]) -> Result<B, Stop>
    ensures grows { Grows k.old k.new }
    ensures below { IfErr result (λ f. StopBelow (length k.new.trees) f) }
{
    let named = rule(k, r).ok_or(Stop::Script)?;
    let given = theses(alloc, k, args).ok_or(Stop::Script)?;
    let made = next_boundary(alloc, k, named, given.items());
    boundary_or(k, made)
}

/// A call on a rule at theses.
#[tactic(auto, using(crate::proofs::Below::answers_below, crate::proofs::Growing::answers_grow))]
pub fn at_theses(alloc: Global, k: &mut Kernel, call: Call) -> Result<J, Stop>
    ensures grows { Grows k.old k.new }
    ensures thesis { IfOk result (λ j. IsThesisOf k.new j) }
    ensures below { IfErr result (λ f. StopBelow (length k.new.trees) f) }
{
    match call {
        Call::Apply(r, args) => {
            let named = rule(k, r).ok_or(Stop::Script)?;
            let given = theses(alloc, k, args).ok_or(Stop::Script)?;
            let made = apply(alloc, k, named, given.items());
            thesis_or(k, made)
        }
        Call::ApplyWith(r, b, args) => {
            let named = rule(k, r).ok_or(Stop::Script)?;
            let goal = boundary(k, b).ok_or(Stop::Script)?;
            let given = theses(alloc, k, args).ok_or(Stop::Script)?;
            let made = apply_with(alloc, k, named, goal, given.items());
            thesis_or(k, made)
        }
        Call::Again(r) => {
            let named = rule(k, r).ok_or(Stop::Script)?;
            let last = thesis(k, k.len().saturating_sub(1)).ok_or(Stop::Script)?;
            let made = apply(alloc, k, named, &[last]);
            thesis_or(k, made)
        }
        _ => Err(Stop::Script),
    }
}

/// A call on a rule at theses and equations that start at them.
#[tactic(auto, using(crate::proofs::Below::answers_below, crate::proofs::Growing::answers_grow))]
pub fn at_equations(alloc: Global, k: &mut Kernel, call: Call) -> Result<J, Stop>
    ensures grows { Grows k.old k.new }
    ensures thesis { IfOk result (λ j. IsThesisOf k.new j) }
    ensures below { IfErr result (λ f. StopBelow (length k.new.trees) f) }
{
    match call {
        Call::Congruence(r, args, equations) => {
            let named = rule(k, r).ok_or(Stop::Script)?;
            let given = theses(alloc, k, args).ok_or(Stop::Script)?;
            let equal = theses(alloc, k, equations).ok_or(Stop::Script)?;
            let made = congruence(alloc, k, named, given.items(), equal.items());
            thesis_or(k, made)
        }
        Call::Move(r, args, equations, j, back) => {
            let named = rule(k, r).ok_or(Stop::Script)?;
            let given = theses(alloc, k, args).ok_or(Stop::Script)?;
            let equal = theses(alloc, k, equations).ok_or(Stop::Script)?;
            let moved = thesis(k, j).ok_or(Stop::Script)?;
            let made = convert_premise(alloc, k, named, given.items(), equal.items(), moved, back);
            thesis_or(k, made)
        }
        _ => Err(Stop::Script),
    }
}

/// A call on a metavariable.
#[tactic(auto, using(crate::proofs::Below::answers_below, crate::proofs::Growing::answers_grow, crate::proofs::Listing::theses_same))]
pub fn at_metavariable(alloc: Global, k: &mut Kernel, call: Call) -> Result<J, Stop>
    ensures grows { Grows k.old k.new }
    ensures thesis { IfOk result (λ j. IsThesisOf k.new j) }
    ensures below { IfErr result (λ f. StopBelow (length k.new.trees) f) }
{
    match call {
        Call::Generic(m) => {
            let named = metavariable(k, m).ok_or(Stop::Script)?;
            let made = generic(alloc, k, named);
            thesis_or(k, made)
        }
        Call::Meta(m, args) => {
            let named = metavariable(k, m).ok_or(Stop::Script)?;
            let given = theses(alloc, k, args).ok_or(Stop::Script)?;
            let made = meta_apply(alloc, k, named, given.items());
            thesis_or(k, made)
        }
        Call::MetaCongruence(m, equations) => {
            let named = metavariable(k, m).ok_or(Stop::Script)?;
            let equal = theses(alloc, k, equations).ok_or(Stop::Script)?;
            let made = meta_congruence(alloc, k, named, equal.items());
            thesis_or(k, made)
        }
        _ => Err(Stop::Script),
    }
}
