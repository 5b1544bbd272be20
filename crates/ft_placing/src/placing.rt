//! A metavariable at terms, or at both sides of equations.

ghost use Rattle.std.specs.Prelude.{◌≡◌, ◌<◌, ◌&&◌, ℕ, List, true, length, option_map, IfOk};
ghost use Rattle.ft_theory.specs.Expressions.{Expression};
ghost use Rattle.ft_theory.specs.Statements.{equate_goal, fill_goal, plain};
ghost use Rattle.ft_items.specs.Equal.{equal_claims, equal_expressions, equal_statements, is_object_goal};
ghost use Rattle.ft_syntax.specs.Table.{tree, AllBelow};
ghost use Rattle.ft_judge.specs.Meaning.{boundary_in, goal_in, BoundaryBelow, GoalBelow};
ghost use Rattle.ft_steps.specs.Parts.{claim_in, statement_in, ClaimBelow, PartsBelow};
ghost use Rattle.ft_placing.specs.Opening.{goal_put, is_put, meta_at};
ghost use Rattle.ft_placing.specs.Sides.{goal_may, placed, sides_in, with_heads, SidesBelow};

use crate::opening::{is_applied, is_opened};
use crate::sides::{At, Sides, do_types_fit, lefts, rights};
use ft_base::Memory;
use ft_judge::{Boundary, Goal};
use ft_steps::{Claim, Parts};
use ft_syntax::{E, Terms};
use std::alloc::Global;

// Whether the goal is one at which a metavariable may stand so.
fn goal_allows(at: At, goal: &Goal) -> bool
    ensures { (ts : List Expression) → result ≡ goal_may at (goal_in ts goal.now) }
{
    match at {
        At::Terms => true,
        At::EqualTerms => match goal {
            Goal::Ty => true,
            Goal::Tm(_) => true,
            Goal::EqTy(..) => false,
            Goal::EqTm(..) => false,
        },
    }
}

fn are_opened(
    alloc: Global,
    terms: &Terms,
    put: &[E],
    wanted: (E, E),
    found: (E, E),
) -> Result<bool, Memory>
    requires put { AllBelow (length terms.now) put.now }
    requires wanted { (wanted.0 < length terms.now) × (wanted.1 < length terms.now) }
    requires found { (found.0 < length terms.now) × (found.1 < length terms.now) }
    ensures { IfOk result (λ yes. yes ≡ (is_put terms.now put.now wanted.0 found.0
        && is_put terms.now put.now wanted.1 found.1)) }
{
    if is_opened(alloc, terms, put, wanted.0, found.0)? {
        is_opened(alloc, terms, put, wanted.1, found.1)
    } else {
        Ok(false)
    }
}

// Whether the claim is the goal with the terms put, filled with the metavariable at them.
fn is_filled(
    alloc: Global,
    terms: &Terms,
    m: u64,
    put: &[E],
    goal: &Goal,
    c: Claim,
) -> Result<bool, Memory>
    requires put { AllBelow (length terms.now) put.now }
    requires goal { GoalBelow (length terms.now) goal.now }
    requires c { ClaimBelow (length terms.now) c }
    ensures { IfOk result (λ yes. yes ≡ equal_claims
        (fill_goal (goal_put terms.now put.now goal.now) (meta_at terms.now m put.now))
        (claim_in terms.now c)) }
{
    match *goal {
        Goal::Ty => match c {
            Claim::IsType(a) => is_applied(alloc, terms, m, put, a),
            _ => Ok(false),
        },
        Goal::Tm(b) => match c {
            Claim::HasType(t, a) => {
                if is_applied(alloc, terms, m, put, t)? {
                    is_opened(alloc, terms, put, b, a)
                } else {
                    Ok(false)
                }
            }
            _ => Ok(false),
        },
        Goal::EqTy(a, b) => match c {
            Claim::EqualTypes(e, f) => are_opened(alloc, terms, put, (a, b), (e, f)),
            _ => Ok(false),
        },
        Goal::EqTm(s, t, a) => match c {
            Claim::EqualTerms(u, v, b) => {
                if are_opened(alloc, terms, put, (s, t), (u, v))? {
                    is_opened(alloc, terms, put, a, b)
                } else {
                    Ok(false)
                }
            }
            _ => Ok(false),
        },
    }
}

// Whether two expressions are the metavariable at the terms, and at the others.
fn are_applied(
    alloc: Global,
    terms: &Terms,
    m: u64,
    put: &[E],
    others: &[E],
    found: (E, E),
) -> Result<bool, Memory>
    requires put { AllBelow (length terms.now) put.now }
    requires others { AllBelow (length terms.now) others.now }
    requires found { (found.0 < length terms.now) × (found.1 < length terms.now) }
    ensures { IfOk result (λ yes. yes ≡ (equal_expressions (meta_at terms.now m put.now)
        (tree terms.now found.0) && equal_expressions (meta_at terms.now m others.now)
        (tree terms.now found.1))) }
{
    if is_applied(alloc, terms, m, put, found.0)? {
        is_applied(alloc, terms, m, others, found.1)
    } else {
        Ok(false)
    }
}

// Whether the claim is the equation of the metavariable at the terms and at the others, at the goal with the terms put.
fn is_equated(
    alloc: Global,
    terms: &Terms,
    m: u64,
    put: &[E],
    others: &[E],
    goal: &Goal,
    c: Claim,
) -> Result<bool, Memory>
    requires put { AllBelow (length terms.now) put.now }
    requires others { AllBelow (length terms.now) others.now }
    requires goal { GoalBelow (length terms.now) goal.now }
    requires c { ClaimBelow (length terms.now) c }
    requires object { is_object_goal (goal_in terms.now goal.now) ≡ true }
    ensures { IfOk result (λ yes. yes ≡ equal_claims
        (equate_goal (goal_put terms.now put.now goal.now) (meta_at terms.now m put.now)
        (meta_at terms.now m others.now)) (claim_in terms.now c)) }
{
    match *goal {
        Goal::Ty => match c {
            Claim::EqualTypes(l, r) => are_applied(alloc, terms, m, put, others, (l, r)),
            _ => Ok(false),
        },
        Goal::Tm(b) => match c {
            Claim::EqualTerms(l, r, a) => {
                if are_applied(alloc, terms, m, put, others, (l, r))? {
                    is_opened(alloc, terms, put, b, a)
                } else {
                    Ok(false)
                }
            }
            _ => Ok(false),
        },
        _ => Ok(false),
    }
}

// Whether the statement is what the row concludes, where the terms have the types of the domains.
#[tactic(auto, using(crate::proofs::Placed::plain_same, crate::proofs::Placed::plain_not))]
fn is_concluded(
    alloc: Global,
    terms: &Terms,
    at: At,
    m: u64,
    put: &[E],
    others: &[E],
    goal: &Goal,
    y: &Parts<'_>,
) -> Result<bool, Memory>
    requires put { AllBelow (length terms.now) put.now }
    requires others { AllBelow (length terms.now) others.now }
    requires goal { GoalBelow (length terms.now) goal.now }
    requires y { PartsBelow (length terms.now) y.now }
    requires may { goal_may at (goal_in terms.now goal.now) ≡ true }
    ensures { IfOk result (λ yes. yes ≡ equal_statements
        (plain (with_heads at (goal_put terms.now put.now goal.now) (meta_at terms.now m put.now)
        (meta_at terms.now m others.now))) (statement_in terms.now y.now)) }
{
    if !y.domains.is_empty() {
        return Ok(false);
    }
    match at {
        At::Terms => is_filled(alloc, terms, m, put, goal, y.claim),
        At::EqualTerms => is_equated(alloc, terms, m, put, others, goal, y.claim),
    }
}

/// Whether the statement is what the row concludes of the metavariable of the boundary at the terms or the equations; None where
/// a condition of the row fails.
#[tactic(auto, using(crate::proofs::Placed::goal_refused, crate::proofs::Placed::other_number, crate::proofs::Placed::other_types, crate::proofs::Placed::is_placed_so, crate::proofs::Placed::lefts_below, crate::proofs::Placed::rights_below))]
pub fn is_placed(
    alloc: Global,
    terms: &Terms,
    at: At,
    m: u64,
    b: &Boundary,
    list: &[Sides],
    y: &Parts<'_>,
) -> Result<Option<bool>, Memory>
    requires b { BoundaryBelow (length terms.now) b.now }
    requires list { SidesBelow (length terms.now) list.now }
    requires y { PartsBelow (length terms.now) y.now }
    ensures { IfOk result (λ o. o ≡ option_map (λ z.
        equal_statements z (statement_in terms.now y.now))
        (placed at m (boundary_in terms.now b.now) (sides_in at terms.now list.now))) }
{
    let domains = b.domains.items();
    if !goal_allows(at, &b.goal) {
        return Ok(None);
    }
    if domains.len() != list.len() {
        return Ok(None);
    }
    let put = lefts(alloc, list)?;
    if !do_types_fit(alloc, terms, domains, &put, list)? {
        return Ok(None);
    }
    let others = rights(alloc, list)?;
    let yes = is_concluded(alloc, terms, at, m, &put, &others, &b.goal, y)?;
    Ok(Some(yes))
}
