//! Scripts: calls in a row, each of which takes the answers of earlier ones.

ghost use Rattle.std.specs.Prelude.{IfOk, IfErr, length};
ghost use Rattle.ft_kernel.specs.State.{IsThesisOf};
ghost use Rattle.ft_calls.specs.Answers.{RefusalBelow};
ghost use Rattle.ft_tests_nucleus.specs.Drafts.{Grows, MayDraft};
ghost use Rattle.ft_tests_nucleus.specs.Faults.{StopBelow};

use crate::applying::{at_equations, at_metavariable, at_theses, next};
use crate::calls::{One, Two, of_one, of_two};
use crate::drafting::drafted;
use crate::naming::{boundary, thesis, variable};
use crate::stop::{Stop, boundary_or, stop_of, thesis_or};
use crate::told::name;
use ft_base::Text;
use ft_judge::Refusal;
use ft_kernel::{B, J, Kernel};
use ft_nucleus::{
    Which, abstract_boundary, abstract_var, boundary as boundary_of, boundary_eq_term,
    boundary_eq_type, boundary_term, boundary_type, new_meta, new_var, side_of_boundary,
    substitute_boundary, variable as variable_at,
};
use ft_parts::argument;
use ft_print::{refusal_text, sequent_text};
use ft_rules::{Draft, drafts_stay};
use std::alloc::Global;

/// A call. The numbers are the places of items that earlier calls have added to the list, from 0.
#[derive(Clone, Copy, Debug)]
pub enum Call {
    /// The boundary of a type.
    Type,
    /// The boundary of a term of a type.
    Term(u64),
    /// The boundary of an equation of two types.
    Types(u64, u64),
    /// The boundary of an equation of two terms, of a type.
    Terms(u64, u64, u64),
    /// The boundary of a thesis.
    Boundary(u64),
    /// A boundary with a variable bound.
    BindBoundary(u64, u64),
    /// A boundary with a term for the variable of its first domain.
    PutBoundary(u64, u64),
    /// The draft of a rule of this name.
    Begin(&'static str),
    /// A premise of the draft, of this name, with a boundary.
    Premise(&'static str, u64),
    /// The rule of the draft, with a boundary as its conclusion.
    Finish(u64),
    /// A variable of a type.
    NewVar(&'static str, u64),
    /// A metavariable with a boundary.
    NewMeta(&'static str, u64),
    /// A variable at its type.
    Variable(u64),
    /// A thesis with a variable bound.
    Bind(u64, u64),
    /// A part of a boundary.
    Part(Which, u64),
    /// A metavariable at its bound variables.
    Generic(u64),
    /// A metavariable at terms.
    Meta(u64, &'static [u64]),
    /// A metavariable at the sides of equations.
    MetaCongruence(u64, &'static [u64]),
    /// A rule at theses.
    Apply(u64, &'static [u64]),
    /// A rule at theses, with the boundary of its conclusion.
    ApplyWith(u64, u64, &'static [u64]),
    /// A rule at the item before.
    Again(u64),
    /// The boundary of the premise after theses.
    Next(u64, &'static [u64]),
    /// A rule at theses and at equations that start at them.
    Congruence(u64, &'static [u64], &'static [u64]),
    /// An argument of a rule, moved from the theses to the right sides of the equations, or back.
    Move(u64, &'static [u64], &'static [u64], u64, bool),
    /// An argument of an application, from 1.
    Argument(u64, u64),
    /// A call on one thesis.
    Of(One, u64),
    /// A call on two theses.
    With(Two, u64, u64),
}

// A call that makes a boundary of theses.
#[tactic(auto, using(crate::proofs::Below::answers_below, crate::proofs::Growing::answers_grow))]
fn goal(alloc: Global, k: &mut Kernel, call: Call) -> Result<B, Stop>
    ensures grows { Grows k.old k.new }
    ensures below { IfErr result (λ f. StopBelow (length k.new.trees) f) }
{
    match call {
        Call::Type => {
            let made = boundary_type(alloc, k);
            boundary_or(k, made)
        }
        Call::Term(a) => {
            let ty = thesis(k, a).ok_or(Stop::Script)?;
            let made = boundary_term(alloc, k, ty);
            boundary_or(k, made)
        }
        Call::Types(a, b) => {
            let first = thesis(k, a).ok_or(Stop::Script)?;
            let second = thesis(k, b).ok_or(Stop::Script)?;
            let made = boundary_eq_type(alloc, k, first, second);
            boundary_or(k, made)
        }
        Call::Terms(a, s, t) => {
            let ty = thesis(k, a).ok_or(Stop::Script)?;
            let left = thesis(k, s).ok_or(Stop::Script)?;
            let right = thesis(k, t).ok_or(Stop::Script)?;
            let made = boundary_eq_term(alloc, k, ty, left, right);
            boundary_or(k, made)
        }
        _ => Err(Stop::Script),
    }
}

// A call that makes a boundary of a thesis or of another boundary.
#[tactic(auto, using(crate::proofs::Below::answers_below, crate::proofs::Growing::answers_grow))]
fn goal_of(alloc: Global, k: &mut Kernel, call: Call) -> Result<B, Stop>
    ensures grows { Grows k.old k.new }
    ensures below { IfErr result (λ f. StopBelow (length k.new.trees) f) }
{
    match call {
        Call::Boundary(j) => {
            let first = thesis(k, j).ok_or(Stop::Script)?;
            let made = boundary_of(alloc, k, first);
            boundary_or(k, made)
        }
        Call::BindBoundary(v, b) => {
            let bound = variable(k, v).ok_or(Stop::Script)?;
            let goal = boundary(k, b).ok_or(Stop::Script)?;
            let made = abstract_boundary(k, bound, goal);
            boundary_or(k, made)
        }
        Call::PutBoundary(b, t) => {
            let goal = boundary(k, b).ok_or(Stop::Script)?;
            let term = thesis(k, t).ok_or(Stop::Script)?;
            let made = substitute_boundary(k, goal, term);
            boundary_or(k, made)
        }
        _ => Err(Stop::Script),
    }
}

/// A call on one or two theses.
#[tactic(auto, using(crate::proofs::Below::answers_below, crate::proofs::Growing::answers_grow))]
pub fn judged(alloc: Global, k: &mut Kernel, call: Call) -> Result<J, Stop>
    ensures grows { Grows k.old k.new }
    ensures thesis { IfOk result (λ j. IsThesisOf k.new j) }
    ensures below { IfErr result (λ f. StopBelow (length k.new.trees) f) }
{
    match call {
        Call::Of(one, j) => {
            let first = thesis(k, j).ok_or(Stop::Script)?;
            let made = of_one(alloc, k, one, first);
            thesis_or(k, made)
        }
        Call::With(two, i, j) => {
            let first = thesis(k, i).ok_or(Stop::Script)?;
            let second = thesis(k, j).ok_or(Stop::Script)?;
            let made = of_two(alloc, k, two, first, second);
            thesis_or(k, made)
        }
        _ => Err(Stop::Script),
    }
}

/// A call on a variable, a part of a boundary, or an argument.
#[tactic(auto, using(crate::proofs::Below::answers_below, crate::proofs::Growing::answers_grow))]
pub fn part(alloc: Global, k: &mut Kernel, call: Call) -> Result<J, Stop>
    ensures grows { Grows k.old k.new }
    ensures thesis { IfOk result (λ j. IsThesisOf k.new j) }
    ensures below { IfErr result (λ f. StopBelow (length k.new.trees) f) }
{
    match call {
        Call::Variable(v) => {
            let named = variable(k, v).ok_or(Stop::Script)?;
            let made = variable_at(alloc, k, named);
            thesis_or(k, made)
        }
        Call::Bind(v, j) => {
            let bound = variable(k, v).ok_or(Stop::Script)?;
            let below = thesis(k, j).ok_or(Stop::Script)?;
            let made = abstract_var(k, bound, below);
            thesis_or(k, made)
        }
        Call::Part(which, b) => {
            let goal = boundary(k, b).ok_or(Stop::Script)?;
            let made = side_of_boundary(alloc, k, goal, which);
            thesis_or(k, made)
        }
        Call::Argument(j, i) => {
            let first = thesis(k, j).ok_or(Stop::Script)?;
            let made = argument(alloc, k, first, i);
            thesis_or(k, made)
        }
        _ => Err(Stop::Script),
    }
}

// A call that declares.
#[tactic(auto, using(crate::proofs::Below::variable_fault, crate::proofs::Below::metavariable_fault, crate::proofs::Growing::variable_grows, crate::proofs::Growing::metavariable_grows))]
fn declared(alloc: Global, k: &mut Kernel, call: Call) -> Result<(), Stop>
    ensures grows { Grows k.old k.new }
    ensures below { IfErr result (λ f. StopBelow (length k.new.trees) f) }
{
    match call {
        Call::NewVar(text, a) => {
            let ty = thesis(k, a).ok_or(Stop::Script)?;
            let number = k.next_number();
            if number == u64::MAX {
                return Err(Stop::Script);
            }
            let name = name(alloc, text)?;
            match new_var(k, number, &name, ty) {
                Ok(_) => Ok(()),
                Err(fault) => Err(stop_of(k, fault)),
            }
        }
        Call::NewMeta(text, b) => {
            let goal = boundary(k, b).ok_or(Stop::Script)?;
            let name = name(alloc, text)?;
            match new_meta(k, &name, goal) {
                Ok(_) => Ok(()),
                Err(fault) => Err(stop_of(k, fault)),
            }
        }
        _ => Err(Stop::Script),
    }
}

// The text of a refusal.
fn refused(alloc: Global, k: &Kernel, refusal: Refusal) -> Result<Text, Stop>
    requires { RefusalBelow (length k.now.trees) refusal }
{
    Ok(refusal_text(alloc, k, &refusal)?)
}

// The text of a refusal; other stops stay.
fn stopped(alloc: Global, k: &Kernel, stop: Stop) -> Result<Text, Stop>
    requires { StopBelow (length k.now.trees) stop }
{
    match stop {
        Stop::Refused(refusal) => refused(alloc, k, refusal),
        other => Err(other),
    }
}

// The text where a boundary is answered.
fn of_boundary(alloc: Global, k: &Kernel, made: Result<B, Stop>) -> Result<Text, Stop>
    requires { IfErr made (λ f. StopBelow (length k.now.trees) f) }
{
    match made {
        Ok(_) => Ok(Text::new(alloc)),
        Err(stop) => stopped(alloc, k, stop),
    }
}

// The text where a thesis is answered.
fn of_thesis(alloc: Global, k: &Kernel, made: Result<J, Stop>) -> Result<Text, Stop>
    requires thesis { IfOk made (λ j. IsThesisOf k.now j) }
    requires below { IfErr made (λ f. StopBelow (length k.now.trees) f) }
{
    match made {
        Ok(j) => Ok(sequent_text(alloc, k, j)?),
        Err(stop) => stopped(alloc, k, stop),
    }
}

// The text of what a call that makes a boundary answers.
fn goal_text(alloc: Global, k: &mut Kernel, call: Call) -> Result<Text, Stop>
    ensures { Grows k.old k.new }
{
    match call {
        Call::Next(r, args) => {
            let made = next(alloc, k, r, args);
            of_boundary(alloc, k, made)
        }
        Call::Boundary(_) | Call::BindBoundary(..) | Call::PutBoundary(..) => {
            let made = goal_of(alloc, k, call);
            of_boundary(alloc, k, made)
        }
        _ => {
            let made = goal(alloc, k, call);
            of_boundary(alloc, k, made)
        }
    }
}

// The text of what a call that makes a thesis answers.
fn judged_text(alloc: Global, k: &mut Kernel, call: Call) -> Result<Text, Stop>
    ensures { Grows k.old k.new }
{
    match call {
        Call::Of(..) | Call::With(..) => {
            let made = judged(alloc, k, call);
            of_thesis(alloc, k, made)
        }
        Call::Apply(..) | Call::ApplyWith(..) | Call::Again(_) => {
            let made = at_theses(alloc, k, call);
            of_thesis(alloc, k, made)
        }
        Call::Congruence(..) | Call::Move(..) => {
            let made = at_equations(alloc, k, call);
            of_thesis(alloc, k, made)
        }
        Call::Generic(_) | Call::Meta(..) | Call::MetaCongruence(..) => {
            let made = at_metavariable(alloc, k, call);
            of_thesis(alloc, k, made)
        }
        _ => {
            let made = part(alloc, k, call);
            of_thesis(alloc, k, made)
        }
    }
}

// The text of what a call that declares answers.
fn declared_text(alloc: Global, k: &mut Kernel, call: Call) -> Result<Text, Stop>
    ensures { Grows k.old k.new }
{
    match declared(alloc, k, call) {
        Ok(()) => Ok(Text::new(alloc)),
        Err(stop) => stopped(alloc, k, stop),
    }
}

// The text of what a call answers that is none on a draft.
fn answered(alloc: Global, k: &mut Kernel, call: Call) -> Result<Text, Stop>
    ensures { Grows k.old k.new }
{
    match call {
        Call::Type
        | Call::Term(_)
        | Call::Types(..)
        | Call::Terms(..)
        | Call::Boundary(_)
        | Call::BindBoundary(..)
        | Call::PutBoundary(..)
        | Call::Next(..) => goal_text(alloc, k, call),
        Call::NewVar(..) | Call::NewMeta(..) => declared_text(alloc, k, call),
        _ => judged_text(alloc, k, call),
    }
}

/// What a call answers: the sequent of a thesis, why a call is refused, and nothing for others.
#[tactic(auto, using(crate::proofs::Growing::draft_stays))]
fn told(alloc: Global, k: &mut Kernel, draft: &mut Option<Draft>, call: Call) -> Result<Text, Stop>
    requires draft { MayDraft k.old.items draft.old }
    ensures draft { IfOk result (λ t. MayDraft k.new.items draft.new) }
{
    drafts_stay();
    match call {
        Call::Begin(_) | Call::Premise(..) | Call::Finish(_) => drafted(alloc, k, draft, call),
        _ => answered(alloc, k, call),
    }
}

/// The first line of the script of which the call answers another text, from 0, or None.
pub fn first_other(
    alloc: Global,
    k: &mut Kernel,
    draft: &mut Option<Draft>,
    script: &[(Call, &str)],
) -> Result<Option<usize>, Stop>
    requires draft { MayDraft k.old.items draft.old }
    ensures draft { IfOk result (λ o. MayDraft k.new.items draft.new) }
{
    for i in 0..script.len() {
        let (call, wanted) = script[i];
        let found = told(alloc, k, draft, call)?;
        if found.bytes() != wanted.as_bytes() {
            return Ok(Some(i));
        }
    }
    Ok(None)
}

/// The first line of the scripts, one after the other, of which the call answers another text; where a call cannot be made, the
/// number of lines of its script.
pub fn first_wrong(alloc: Global, first: &[(Call, &str)], then: &[(Call, &str)]) -> Option<usize> {
    let mut k = Kernel::new(alloc);
    let mut draft = None;
    match first_other(alloc, &mut k, &mut draft, first) {
        Ok(None) => {}
        Ok(Some(line)) => return Some(line),
        Err(_) => return Some(first.len()),
    }
    match first_other(alloc, &mut k, &mut draft, then) {
        Ok(line) => line,
        Err(_) => Some(then.len()),
    }
}
