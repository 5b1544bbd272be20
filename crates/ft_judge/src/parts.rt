//! Filling a boundary, and taking a thesis apart.

ghost use Rattle.std.specs.Prelude.{◌≡◌, ◌<◌, ℕ, List, option_map, IfOk, IfSome};
ghost use Rattle.ft_theory.specs.Expressions.{Expression};
ghost use Rattle.ft_theory.specs.Statements.{fill as fill_statement, boundary_of as boundary_of_statement};
ghost use Rattle.ft_syntax.specs.Table.{tree};
ghost use Rattle.ft_judge.specs.Meaning.{thesis_in, boundary_in, FormBelow, IsHeadFor, filled, head_in, head_of_thesis, boundary_of_thesis, head_of_statement};

use crate::judgement::{Boundary, Domains, Form, Goal, Thesis};
use ft_base::Memory;
use ft_syntax::{Arg, E, Terms};
use std::alloc::Global;

/// The boundary filled with the head, which is an expression for the goal of a type or a term, and a dummy for that of an
/// equation.
#[tactic(auto, using(crate::proofs::Filling::filling))]
pub fn fill(alloc: Global, t: &Terms, b: &Boundary, head: &Arg) -> Result<Thesis, Memory>
    requires { IsHeadFor b.now.goal head.now.body }
    ensures thesis { IfOk result (λ x. x ≡ filled b.now head.now.body) }
    ensures meaning { IfOk result (λ x. thesis_in t.now x ≡ fill_statement (boundary_in t.now b.now) (head_in t.now head.now.body)) }
{
    let domains = Domains::of(alloc, b.domains.items())?;
    let form = filled_goal(&b.goal, head);
    Ok(Thesis { domains, form })
}

// The form of the goal filled with the head.
fn filled_goal(goal: &Goal, head: &Arg) -> Form
    requires { IsHeadFor goal.now head.now.body }
    ensures { result ≡ Rattle.ft_judge.specs.Meaning.filled_form goal.now head.now.body }
{
    match (goal, head.body) {
        (Goal::Ty, Some(h)) => Form::Ty(h),
        (Goal::Tm(a), Some(h)) => Form::Tm(h, *a),
        (Goal::EqTy(a, b), _) => Form::EqTy(*a, *b),
        (Goal::EqTm(s, t, a), _) => Form::EqTm(*s, *t, *a),
        (Goal::Ty, None) => unreachable!(),
        (Goal::Tm(_), None) => unreachable!(),
    }
}

/// The boundary of a thesis: the thesis without its head.
#[tactic(auto, using(crate::proofs::Filling::boundary_taken))]
pub fn boundary_of(alloc: Global, t: &Thesis) -> Result<Boundary, Memory>
    ensures boundary { IfOk result (λ b. b ≡ boundary_of_thesis t.now) }
    ensures meaning { IfOk result (λ b. (ts : List Expression) → boundary_in ts b ≡ boundary_of_statement (thesis_in ts t.now)) }
{
    let domains = Domains::of(alloc, t.domains.items())?;
    let goal = goal_of(&t.form);
    Ok(Boundary { domains, goal })
}

// The goal of the form.
fn goal_of(form: &Form) -> Goal
    ensures { result ≡ Rattle.ft_judge.specs.Meaning.goal_of_form form.now }
{
    match *form {
        Form::Ty(_) => Goal::Ty,
        Form::Tm(_, a) => Goal::Tm(a),
        Form::EqTy(a, b) => Goal::EqTy(a, b),
        Form::EqTm(l, r, a) => Goal::EqTm(l, r, a),
    }
}

/// The head of a thesis, under as many binders as it has domains: its type or its term, or a dummy for an equation. It takes
/// no memory.
#[tactic(auto, using(crate::proofs::Filling::head_taken))]
pub fn head_of(t: &Thesis) -> Arg
    ensures head { result ≡ head_of_thesis t.now }
    ensures meaning { (ts : List Expression) → option_map (tree ts) result.body ≡ head_of_statement (thesis_in ts t.now) }
{
    let binders = t.domains.items().len() as u64;
    let body = head_of_form(&t.form);
    Arg { binders, body }
}

/// The head of a form: its type or its term, or None for an equation. It takes no memory.
pub fn head_of_form(form: &Form) -> Option<E>
    ensures head { result ≡ Rattle.ft_judge.specs.Meaning.head_of_form form.now }
    ensures below { (n : ℕ) → FormBelow n form.now → IfSome result (λ e. e < n) }
{
    match *form {
        Form::Ty(a) => Some(a),
        Form::Tm(t, _) => Some(t),
        Form::EqTy(..) => None,
        Form::EqTm(..) => None,
    }
}
