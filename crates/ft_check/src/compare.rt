//! What has to be the same for a thesis to fit an instance of a boundary.

ghost use Rattle.std.specs.Prelude.{◌≡◌, ◌<◌, ◌&&◌, ℕ, zero, List, length, IfOk, OnOk};
ghost use Rattle.ft_theory.specs.Expressions.{Expression};
ghost use Rattle.ft_theory.specs.Statements.{map_claim, map_statement};
ghost use Rattle.ft_items.specs.Equal.{equal_claims, equal_expressions, fits as statement_fits, fits_goal};
ghost use Rattle.ft_syntax.specs.Table.{tree, AllBelow};
ghost use Rattle.ft_judge.specs.Meaning.{boundary_in, claim_in, goal_in, thesis_in, BoundaryBelow, FormBelow, GoalBelow, ThesisBelow};
ghost use Rattle.ft_check.specs.Comparing.{all_same, domains_same, ComparedBelow};

use ft_base::Memory;
use ft_judge::{Boundary, Form, Goal, Thesis};
use ft_syntax::E;

/// An expression that is found, and one whose instance is wanted.
#[derive(Clone, Copy, Drop)]
pub struct Compared {
    pub found: E,
    pub wanted: E,
}

#[tactic(auto, using(crate::proofs::Compares::same_pushed, crate::proofs::Compares::below_pushed))]
fn push(list: &mut Vec<Compared>, found: E, wanted: E) -> Result<(), Memory>
    ensures same { (ts : List Expression) (j : Expression → Expression)
        → OnOk result (all_same ts j list.new.items ≡
        (all_same ts j list.old.items && equal_expressions (tree ts found) (j (tree ts wanted)))) }
    ensures below { (n : ℕ) → ComparedBelow n list.old.items → found < n → wanted < n
        → OnOk result (ComparedBelow n list.new.items) }
{
    list.push(Compared { found, wanted })?;
    Ok(())
}

/// Adds what has to be the same for as many domains to be the instances of others.
#[tactic(auto, using(crate::proofs::Compares::domains_next, crate::proofs::Compares::domains_end, ft_syntax::specs::Laws::one_below))]
pub fn push_domains(list: &mut Vec<Compared>, found: &[E], wanted: &[E]) -> Result<(), Memory>
    requires { length found.now ≡ length wanted.now }
    ensures same { (ts : List Expression) (j : Expression → Expression)
        → OnOk result (all_same ts j list.new.items ≡
        (all_same ts j list.old.items && domains_same ts j found.now wanted.now)) }
    ensures below { (n : ℕ) → ComparedBelow n list.old.items → AllBelow n found.now
        → AllBelow n wanted.now → OnOk result (ComparedBelow n list.new.items) }
{
    for k in 0..found.len() {
        push(list, found[k], wanted[k])?;
    }
    Ok(())
}

/// Adds what has to be the same for a form to fit an instance of a goal, or answers false where it fits none.
pub fn push_form(list: &mut Vec<Compared>, form: &Form, goal: &Goal) -> Result<bool, Memory>
    ensures same { (ts : List Expression) (j : Expression → Expression)
        → IfOk result (λ yes. (yes && all_same ts j list.new.items) ≡
        (all_same ts j list.old.items && fits_goal (claim_in ts form.now)
        (map_claim j (goal_in ts goal.now)))) }
    ensures below { (n : ℕ) → ComparedBelow n list.old.items → FormBelow n form.now
        → GoalBelow n goal.now → IfOk result (λ yes. ComparedBelow n list.new.items) }
{
    match (form, goal) {
        (Form::Ty(_), Goal::Ty) => Ok(true),
        (Form::Tm(_, a), Goal::Tm(b)) => {
            push(list, *a, *b)?;
            Ok(true)
        }
        (Form::EqTy(a, b), Goal::EqTy(c, d)) => {
            push(list, *a, *c)?;
            push(list, *b, *d)?;
            Ok(true)
        }
        (Form::EqTm(l, r, a), Goal::EqTm(m, s, b)) => {
            push(list, *a, *b)?;
            push(list, *l, *m)?;
            push(list, *r, *s)?;
            Ok(true)
        }
        _ => Ok(false),
    }
}

/// Adds what has to be the same for a goal to be an instance of the other, or answers false where it is none.
pub fn push_goal(list: &mut Vec<Compared>, found: &Goal, wanted: &Goal) -> Result<bool, Memory>
    ensures same { (ts : List Expression) (j : Expression → Expression)
        → IfOk result (λ yes. (yes && all_same ts j list.new.items) ≡
        (all_same ts j list.old.items && equal_claims (goal_in ts found.now)
        (map_claim j (goal_in ts wanted.now)))) }
    ensures below { (n : ℕ) → ComparedBelow n list.old.items → GoalBelow n found.now
        → GoalBelow n wanted.now → IfOk result (λ yes. ComparedBelow n list.new.items) }
{
    match (found, wanted) {
        (Goal::Ty, Goal::Ty) => Ok(true),
        (Goal::Tm(a), Goal::Tm(b)) => {
            push(list, *a, *b)?;
            Ok(true)
        }
        (Goal::EqTy(a, b), Goal::EqTy(c, d)) => {
            push(list, *a, *c)?;
            push(list, *b, *d)?;
            Ok(true)
        }
        (Goal::EqTm(l, r, a), Goal::EqTm(m, s, b)) => {
            push(list, *l, *m)?;
            push(list, *r, *s)?;
            push(list, *a, *b)?;
            Ok(true)
        }
        _ => Ok(false),
    }
}

/// Adds what has to be the same for a thesis to fit an instance of a boundary, or answers false where it fits none.
pub fn push_thesis(list: &mut Vec<Compared>, x: &Thesis, b: &Boundary) -> Result<bool, Memory>
    ensures same { (ts : List Expression) (j : Expression → Expression)
        → IfOk result (λ yes. (yes && all_same ts j list.new.items) ≡
        (all_same ts j list.old.items && statement_fits (thesis_in ts x.now)
        (map_statement (λ k. j) zero (boundary_in ts b.now)))) }
    ensures below { (n : ℕ) → ComparedBelow n list.old.items → ThesisBelow n x.now
        → BoundaryBelow n b.now → IfOk result (λ yes. ComparedBelow n list.new.items) }
{
    let found = x.domains.items();
    let wanted = b.domains.items();
    if found.len() != wanted.len() {
        return Ok(false);
    }
    push_domains(list, found, wanted)?;
    push_form(list, &x.form, &b.goal)
}
