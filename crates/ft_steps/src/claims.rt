//! What steps conclude of claims and goals, without their domains.

ghost use Rattle.std.specs.Prelude.{◌≡◌, ◌<◌, ℕ, List, Some, length, option_map, IfSome};
ghost use Rattle.ft_theory.specs.Expressions.{Expression};
ghost use Rattle.ft_theory.specs.Statements.{boundary_of_claim, plain};
ghost use Rattle.ft_items.specs.Rows.{conversion, equation_conversion, left_side as left_part, right_side as right_part, symmetry, term_boundary as term_boundary_of, term_equation_boundary, transitivity, type_equation_boundary, type_part, when};
ghost use Rattle.ft_syntax.specs.Table.{tree};
ghost use Rattle.ft_steps.specs.Parts.{claim_in, plain_in, ClaimBelow};
ghost use Rattle.ft_steps.specs.Rows.{equal_to_itself};

use crate::equal::same;
use crate::parts::Claim;
use ft_syntax::{E, Terms};

// The claim, where the test holds.
fn claim_when(test: bool, c: Claim) -> Option<Claim>
    ensures is { (ts : List Expression) → option_map (plain_in ts) result ≡ when test (plain (claim_in ts c)) }
    ensures below { (n : ℕ) → ClaimBelow n c → IfSome result (λ d. ClaimBelow n d) }
{
    if test { Some(c) } else { None }
}

/// The equation of a type or a term with itself.
pub fn reflexive(c: Claim) -> Option<Claim>
    ensures is { (ts : List Expression) → option_map (claim_in ts) result ≡ equal_to_itself (claim_in ts c) }
    ensures below { (n : ℕ) → ClaimBelow n c → IfSome result (λ d. ClaimBelow n d) }
{
    match c {
        Claim::IsType(a) => Some(Claim::EqualTypes(a, a)),
        Claim::HasType(t, a) => Some(Claim::EqualTerms(t, t, a)),
        _ => None,
    }
}

/// The equation with its sides exchanged.
pub fn symmetric(c: Claim) -> Option<Claim>
    ensures is { (ts : List Expression) → option_map (plain_in ts) result ≡ symmetry (plain (claim_in ts c)) }
    ensures below { (n : ℕ) → ClaimBelow n c → IfSome result (λ d. ClaimBelow n d) }
{
    match c {
        Claim::EqualTypes(a, b) => Some(Claim::EqualTypes(b, a)),
        Claim::EqualTerms(s, t, a) => Some(Claim::EqualTerms(t, s, a)),
        _ => None,
    }
}

/// The left side of an equation.
pub fn left_side(c: Claim) -> Option<Claim>
    ensures is { (ts : List Expression) → option_map (claim_in ts) result ≡ left_part (claim_in ts c) }
    ensures below { (n : ℕ) → ClaimBelow n c → IfSome result (λ d. ClaimBelow n d) }
{
    match c {
        Claim::EqualTypes(a, _) => Some(Claim::IsType(a)),
        Claim::EqualTerms(s, _, a) => Some(Claim::HasType(s, a)),
        Claim::TypeEquationGoal(a, _) => Some(Claim::IsType(a)),
        Claim::TermEquationGoal(s, _, a) => Some(Claim::HasType(s, a)),
        _ => None,
    }
}

/// The right side of an equation.
pub fn right_side(c: Claim) -> Option<Claim>
    ensures is { (ts : List Expression) → option_map (claim_in ts) result ≡ right_part (claim_in ts c) }
    ensures below { (n : ℕ) → ClaimBelow n c → IfSome result (λ d. ClaimBelow n d) }
{
    match c {
        Claim::EqualTypes(_, b) => Some(Claim::IsType(b)),
        Claim::EqualTerms(_, t, a) => Some(Claim::HasType(t, a)),
        Claim::TypeEquationGoal(_, b) => Some(Claim::IsType(b)),
        Claim::TermEquationGoal(_, t, a) => Some(Claim::HasType(t, a)),
        _ => None,
    }
}

/// The type of a term, of an equation of terms, or in the goal of one of them.
pub fn type_of(c: Claim) -> Option<Claim>
    ensures is { (ts : List Expression) → option_map (claim_in ts) result ≡ type_part (claim_in ts c) }
    ensures below { (n : ℕ) → ClaimBelow n c → IfSome result (λ d. ClaimBelow n d) }
{
    match c {
        Claim::HasType(_, a) => Some(Claim::IsType(a)),
        Claim::EqualTerms(_, _, a) => Some(Claim::IsType(a)),
        Claim::TermGoal(a) => Some(Claim::IsType(a)),
        Claim::TermEquationGoal(_, _, a) => Some(Claim::IsType(a)),
        _ => None,
    }
}

/// The goal that the claim fills; a goal is its own.
pub fn goal_of(c: Claim) -> Claim
    ensures is { (ts : List Expression) → claim_in ts result ≡ boundary_of_claim (claim_in ts c) }
    ensures below { (n : ℕ) → ClaimBelow n c → ClaimBelow n result }
{
    match c {
        Claim::IsType(_) => Claim::TypeGoal,
        Claim::HasType(_, a) => Claim::TermGoal(a),
        Claim::EqualTypes(a, b) => Claim::TypeEquationGoal(a, b),
        Claim::EqualTerms(s, t, a) => Claim::TermEquationGoal(s, t, a),
        Claim::TypeGoal => c,
        Claim::TermGoal(_) => c,
        Claim::TypeEquationGoal(..) => c,
        Claim::TermEquationGoal(..) => c,
    }
}

/// The goal of a term of the type.
pub fn term_boundary(c: Claim) -> Option<Claim>
    ensures is { (ts : List Expression) → option_map (plain_in ts) result ≡ term_boundary_of (plain (claim_in ts c)) }
    ensures below { (n : ℕ) → ClaimBelow n c → IfSome result (λ d. ClaimBelow n d) }
{
    match c {
        Claim::IsType(a) => Some(Claim::TermGoal(a)),
        _ => None,
    }
}

/// Of two equations with the same side in the middle, the equation of the outer sides.
pub fn transitive(terms: &Terms, c: Claim, d: Claim) -> Option<Claim>
    requires c { ClaimBelow (length terms.now) c }
    requires d { ClaimBelow (length terms.now) d }
    ensures is { option_map (plain_in terms.now) result ≡ transitivity (plain (claim_in terms.now c)) (plain (claim_in terms.now d)) }
    ensures below { IfSome result (λ e. ClaimBelow (length terms.now) e) }
{
    match c {
        Claim::EqualTypes(a, b) => match d {
            Claim::EqualTypes(e, f) => claim_when(same(terms, b, e), Claim::EqualTypes(a, f)),
            _ => None,
        },
        Claim::EqualTerms(s, t, a) => match d {
            Claim::EqualTerms(u, v, b) => {
                let types = same(terms, a, b);
                let sides = same(terms, t, u);
                claim_when(types && sides, Claim::EqualTerms(s, v, a))
            }
            _ => None,
        },
        _ => None,
    }
}

/// A term at the right side of a type equation, where its type is the left side.
pub fn converted(terms: &Terms, c: Claim, d: Claim) -> Option<Claim>
    requires c { ClaimBelow (length terms.now) c }
    requires d { ClaimBelow (length terms.now) d }
    ensures is { option_map (plain_in terms.now) result ≡ conversion (plain (claim_in terms.now c)) (plain (claim_in terms.now d)) }
    ensures below { IfSome result (λ e. ClaimBelow (length terms.now) e) }
{
    match c {
        Claim::HasType(t, a) => match d {
            Claim::EqualTypes(b, e) => claim_when(same(terms, a, b), Claim::HasType(t, e)),
            _ => None,
        },
        _ => None,
    }
}

/// An equation of terms at the right side of a type equation, where its type is the left side.
pub fn converted_equation(terms: &Terms, c: Claim, d: Claim) -> Option<Claim>
    requires c { ClaimBelow (length terms.now) c }
    requires d { ClaimBelow (length terms.now) d }
    ensures is { option_map (plain_in terms.now) result ≡ equation_conversion (plain (claim_in terms.now c)) (plain (claim_in terms.now d)) }
    ensures below { IfSome result (λ e. ClaimBelow (length terms.now) e) }
{
    match c {
        Claim::EqualTerms(s, t, a) => match d {
            Claim::EqualTypes(b, e) => claim_when(same(terms, a, b), Claim::EqualTerms(s, t, e)),
            _ => None,
        },
        _ => None,
    }
}

/// The goal of an equation of two types.
pub fn type_equation(c: Claim, d: Claim) -> Option<Claim>
    ensures is { (ts : List Expression) → option_map (plain_in ts) result ≡ type_equation_boundary (plain (claim_in ts c)) (plain (claim_in ts d)) }
    ensures below { (n : ℕ) → ClaimBelow n c → ClaimBelow n d → IfSome result (λ e. ClaimBelow n e) }
{
    match c {
        Claim::IsType(a) => match d {
            Claim::IsType(b) => Some(Claim::TypeEquationGoal(a, b)),
            _ => None,
        },
        _ => None,
    }
}

// The goal of an equation of two terms at a type, where it is the type of both.
fn term_equation_at(terms: &Terms, a: E, d: Claim, e: Claim) -> Option<Claim>
    requires a { a < length terms.now }
    requires d { ClaimBelow (length terms.now) d }
    requires e { ClaimBelow (length terms.now) e }
    ensures is { option_map (plain_in terms.now) result ≡ term_equation_boundary (plain (Rattle.ft_theory.specs.Statements.is_type (tree terms.now a))) (plain (claim_in terms.now d)) (plain (claim_in terms.now e)) }
    ensures below { IfSome result (λ f. ClaimBelow (length terms.now) f) }
{
    match d {
        Claim::HasType(s, b) => match e {
            Claim::HasType(t, f) => {
                let left = same(terms, b, a);
                let right = same(terms, f, a);
                claim_when(left && right, Claim::TermEquationGoal(s, t, a))
            }
            _ => None,
        },
        _ => None,
    }
}

/// The goal of an equation of two terms at a type, which is the type of both.
pub fn term_equation(terms: &Terms, c: Claim, d: Claim, e: Claim) -> Option<Claim>
    requires c { ClaimBelow (length terms.now) c }
    requires d { ClaimBelow (length terms.now) d }
    requires e { ClaimBelow (length terms.now) e }
    ensures is { option_map (plain_in terms.now) result ≡ term_equation_boundary (plain (claim_in terms.now c)) (plain (claim_in terms.now d)) (plain (claim_in terms.now e)) }
    ensures below { IfSome result (λ f. ClaimBelow (length terms.now) f) }
{
    match c {
        Claim::IsType(a) => term_equation_at(terms, a, d, e),
        _ => None,
    }
}
