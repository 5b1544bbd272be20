//! Terms with their types, and equations of terms.

ghost use Rattle.std.specs.Prelude.{◌≡◌, ◌<◌, ℕ, List, [], false, length, IfOk, IfSome, IfNone};
ghost use Rattle.ft_theory.specs.Expressions.{Expression};
ghost use Rattle.ft_syntax.specs.Table.{AllBelow};
ghost use Rattle.ft_steps.specs.Parts.{plain_in, statement_in, ClaimBelow, PartsBelow};
ghost use Rattle.ft_placing.specs.Sides.{has_sides, lefts_of, rights_of, side_in, types_fit, SideBelow, SidesBelow};

use crate::opening::is_opened;
use ft_base::Memory;
use ft_steps::{Claim, Parts};
use ft_syntax::{E, Terms};
use std::alloc::Global;

/// At what a metavariable stands: at terms, or, in an equation, at both sides of equations.
#[derive(Clone, Copy, Debug, PartialEq, Eq)]
pub enum At {
    Terms,
    EqualTerms,
}

/// Both sides of an equation and their type, or a term, which stands on both sides, and its type.
#[derive(Clone, Copy, Drop)]
pub struct Sides {
    pub left: E,
    pub right: E,
    pub ty: E,
}

// The sides of a claim.
fn sides_of_claim(at: At, c: Claim) -> Option<Sides>
    ensures some { (ts : List Expression) → IfSome result (λ s. side_in at ts s ≡ plain_in ts c) }
    ensures none { (ts : List Expression) → IfNone result (has_sides at (plain_in ts c) ≡ false) }
    ensures below { (n : ℕ) → ClaimBelow n c → IfSome result (λ s. SideBelow n s) }
{
    match at {
        At::Terms => match c {
            Claim::HasType(t, a) => Some(Sides {
                left: t,
                right: t,
                ty: a,
            }),
            _ => None,
        },
        At::EqualTerms => match c {
            Claim::EqualTerms(s, t, a) => Some(Sides {
                left: s,
                right: t,
                ty: a,
            }),
            _ => None,
        },
    }
}

/// The sides, where the statement is a plain term, or a plain equation of terms.
#[tactic(auto, using(crate::proofs::Siding::plain_sides, crate::proofs::Siding::no_sides))]
pub fn sides_of(at: At, x: &Parts<'_>) -> Option<Sides>
    ensures some { (ts : List Expression) → IfSome result (λ s. side_in at ts s ≡
        statement_in ts x.now) }
    ensures none { (ts : List Expression) → IfNone result (has_sides at (statement_in ts x.now) ≡
        false) }
    ensures below { (n : ℕ) → PartsBelow n x.now → IfSome result (λ s. SideBelow n s) }
{
    if x.domains.is_empty() {
        sides_of_claim(at, x.claim)
    } else {
        None
    }
}

/// The terms, or the left sides.
pub fn lefts(alloc: Global, list: &[Sides]) -> Result<Vec<E>, Memory>
    ensures are { IfOk result (λ xs. xs.items ≡ lefts_of list.now) }
{
    Ok(list.iter().map(|s| s.left).collect(alloc)?)
}

/// The terms, or the right sides.
pub fn rights(alloc: Global, list: &[Sides]) -> Result<Vec<E>, Memory>
    ensures are { IfOk result (λ xs. xs.items ≡ rights_of list.now) }
{
    Ok(list.iter().map(|s| s.right).collect(alloc)?)
}

/// Whether each type is the domain in its place with the terms before it put.
#[tactic(auto, using(crate::proofs::Siding::types_next, crate::proofs::Siding::types_not, crate::proofs::Siding::types_end, crate::proofs::Siding::one_side, crate::proofs::Siding::first_below, ft_syntax::specs::Laws::one_below))]
pub fn do_types_fit(
    alloc: Global,
    terms: &Terms,
    domains: &[E],
    put: &[E],
    list: &[Sides],
) -> Result<bool, Memory>
    requires domains { AllBelow (length terms.now) domains.now }
    requires put { AllBelow (length terms.now) put.now }
    requires list { SidesBelow (length terms.now) list.now }
    requires as_many { length domains.now ≡ length list.now }
    requires lefts { put.now ≡ lefts_of list.now }
    ensures { IfOk result (λ yes. yes ≡ types_fit terms.now [] domains.now list.now) }
{
    for k in 0..domains.len() {
        if !is_opened(alloc, terms, &put[..k], domains[k], list[k].ty)? {
            return Ok(false);
        }
    }
    Ok(true)
}
