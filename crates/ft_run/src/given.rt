//! What is done with the claims that are given as arguments.

ghost use Rattle.std.specs.Prelude.{◌≡◌, ◌<◌, ℕ, List, length, map, IfOk};
ghost use Rattle.ft_theory.specs.Expressions.{Expression};
ghost use Rattle.ft_theory.specs.Statements.{fill_goal, type_goal, term_goal};
ghost use Rattle.ft_items.specs.Equal.{fits_goal};
ghost use Rattle.ft_syntax.specs.Table.{tree};
ghost use Rattle.ft_judge.specs.Meaning.{claim_in, goal_in, FormBelow, GoalBelow};
ghost use Rattle.ft_run.specs.Session.{AllFitGoals, FitsGoal, AllClaimsBelow};
ghost use Rattle.ft_run.specs.Given.{argument_of, fits_goals, fits_one};

use crate::session::Claimed;
use ft_base::Memory;
use ft_judge::{Form, Goal, head_of_form};
use ft_kernel::Judgements;
use ft_syntax::{Arg, E, Terms};
use std::alloc::Global;

// The heads of what is claimed, as arguments without binders.
pub(crate) fn arguments(alloc: Global, given: &[Claimed]) -> Result<Vec<Arg>, Memory>
    ensures { IfOk result (λ r. r.items ≡ map (λ x. argument_of x.form) given.now) }
{
    let mut found = Vec::new(alloc);
    for x in given {
        let argument = Arg {
            binders: 0,
            body: head_of_form(&x.form),
        };
        found.push(argument)?;
    }
    Ok(found)
}

// The entries of what is claimed.
pub(crate) fn entries(alloc: Global, given: &[Claimed]) -> Result<Judgements, Memory>
    ensures { IfOk result (λ r. r ≡ map (λ x. x.entry) given.now) }
{
    let mut found = Judgements::new(alloc);
    for x in given {
        found.push(x.entry)?;
    }
    Ok(found)
}

// The goal filled with a head.
pub(crate) fn filled(goal: Goal, head: E) -> Form
    ensures claim { (ts : List Expression) → claim_in ts result ≡ fill_goal (goal_in ts goal) (tree ts head) }
    ensures below { (n : ℕ) → GoalBelow n goal → head < n → FormBelow n result }
{
    match goal {
        Goal::Ty => Form::Ty(head),
        Goal::Tm(ty) => Form::Tm(head, ty),
        Goal::EqTy(left, right) => Form::EqTy(left, right),
        Goal::EqTm(left, right, ty) => Form::EqTm(left, right, ty),
    }
}

fn is_type(form: Form) -> bool
    ensures { (ts : List Expression) → result ≡ fits_goal (claim_in ts form) type_goal }
{
    match form {
        Form::Ty(_) => true,
        _ => false,
    }
}

// Whether the form is a term of the type.
#[tactic(auto, using(crate::proofs::Fitting::by_equal))]
fn is_term(terms: &Terms, ty: E, form: Form) -> bool
    requires ty { ty < length terms.now }
    requires form { FormBelow (length terms.now) form }
    ensures { result ≡ fits_goal (claim_in terms.now form) (term_goal (tree terms.now ty)) }
{
    match form {
        Form::Tm(_, found) => terms.equal_expr(found, ty),
        _ => false,
    }
}

// Whether the form fits the goal.
fn fits(terms: &Terms, goal: Goal, form: Form) -> bool
    requires goal { FitsGoal terms.now goal }
    requires form { FormBelow (length terms.now) form }
    ensures { result ≡ fits_one terms.now goal form }
{
    match goal {
        Goal::Ty => is_type(form),
        Goal::Tm(ty) => is_term(terms, ty, form),
        _ => false,
    }
}

// Whether there is one claim for each goal, which it fits.
#[tactic(auto, using(crate::proofs::Fitting::goal_at, crate::proofs::Fitting::form_at, crate::proofs::Fitting::other_length, crate::proofs::Fitting::fits_next, crate::proofs::Fitting::fits_not, crate::proofs::Fitting::fits_end))]
pub(crate) fn all_fit(terms: &Terms, goals: &[Goal], given: &[Claimed]) -> bool
    requires goals { AllFitGoals terms.now goals.now }
    requires given { AllClaimsBelow (length terms.now) given.now }
    ensures { result ≡ fits_goals terms.now goals.now given.now }
{
    if goals.len() != given.len() {
        return false;
    }
    for i in 0..goals.len() {
        if !fits(terms, goals[i], given[i].form) {
            return false;
        }
    }
    true
}
