//! The parts of a statement.

ghost use Rattle.std.specs.Prelude.{◌≡◌, ℕ, List};
ghost use Rattle.ft_theory.specs.Expressions.{Expression};
ghost use Rattle.ft_judge.specs.Meaning.{boundary_in, thesis_in, claim_in as claim_of_form, goal_in, BoundaryBelow, FormBelow, GoalBelow, ThesisBelow};
ghost use Rattle.ft_steps.specs.Parts.{claim_in, statement_in, ClaimBelow, PartsBelow};

use ft_judge::{Boundary, Form, Goal, Thesis};
use ft_syntax::E;

/// What a statement says below its domains: the claim of a thesis (the term before its type, the left side before the right
/// one and their type), or the goal of a boundary.
#[derive(Clone, Copy, Debug, PartialEq, Eq)]
pub enum Claim {
    IsType(E),
    HasType(E, E),
    EqualTypes(E, E),
    EqualTerms(E, E, E),
    TypeGoal,
    TermGoal(E),
    TypeEquationGoal(E, E),
    TermEquationGoal(E, E, E),
}

/// A statement over a table: its domains, and what it says below them.
#[derive(Clone, Copy)]
pub struct Parts<'a> {
    pub domains: &'a [E],
    pub claim: Claim,
}

fn form_claim(form: &Form) -> Claim
    ensures is { (ts : List Expression) → claim_in ts result ≡ claim_of_form ts form.now }
    ensures below { (n : ℕ) → FormBelow n form.now → ClaimBelow n result }
{
    match *form {
        Form::Ty(a) => Claim::IsType(a),
        Form::Tm(t, a) => Claim::HasType(t, a),
        Form::EqTy(a, b) => Claim::EqualTypes(a, b),
        Form::EqTm(s, t, a) => Claim::EqualTerms(s, t, a),
    }
}

fn goal_claim(goal: &Goal) -> Claim
    ensures is { (ts : List Expression) → claim_in ts result ≡ goal_in ts goal.now }
    ensures below { (n : ℕ) → GoalBelow n goal.now → ClaimBelow n result }
{
    match *goal {
        Goal::Ty => Claim::TypeGoal,
        Goal::Tm(a) => Claim::TermGoal(a),
        Goal::EqTy(a, b) => Claim::TypeEquationGoal(a, b),
        Goal::EqTm(s, t, a) => Claim::TermEquationGoal(s, t, a),
    }
}

/// The parts of a thesis.
#[tactic(auto, using(crate::proofs::Stating::parts_state, crate::proofs::Stating::parts_below))]
pub fn thesis_parts(x: &Thesis) -> Parts<'_>
    ensures is { (ts : List Expression) → statement_in ts result ≡ thesis_in ts x.now }
    ensures below { (n : ℕ) → ThesisBelow n x.now → PartsBelow n result }
{
    Parts {
        domains: x.domains.items(),
        claim: form_claim(&x.form),
    }
}

/// The parts of a boundary.
#[tactic(auto, using(crate::proofs::Stating::parts_state, crate::proofs::Stating::parts_below))]
pub fn boundary_parts(x: &Boundary) -> Parts<'_>
    ensures is { (ts : List Expression) → statement_in ts result ≡ boundary_in ts x.now }
    ensures below { (n : ℕ) → BoundaryBelow n x.now → PartsBelow n result }
{
    Parts {
        domains: x.domains.items(),
        claim: goal_claim(&x.goal),
    }
}
