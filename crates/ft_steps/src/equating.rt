//! Equal terms for the variable of a first domain.

ghost use Rattle.std.specs.Prelude.{◌≡◌, ◌<◌, ◌&&◌, ℕ, List, true, length, option_map, IfOk, IfSome};
ghost use Rattle.ft_theory.specs.Expressions.{Expression, open_at};
ghost use Rattle.ft_items.specs.Equal.{equal_claims, equal_expressions, equal_statements, has_head_claim};
ghost use Rattle.ft_items.specs.Rows.{equal_substitution};
ghost use Rattle.ft_syntax.specs.Table.{tree};
ghost use Rattle.ft_steps.specs.Parts.{claim_in, statement_in, ClaimBelow, PartsBelow};
ghost use Rattle.ft_steps.specs.Moving.{equated, plain_equation as plain_equation_of, three_in};

use crate::equal::same;
use crate::moving::{Move, are_domains_moved, is_moved};
use crate::parts::{Claim, Parts};
use ft_base::Memory;
use ft_syntax::{E, Terms};
use std::alloc::Global;

// Whether two expressions are the expression opened with each of two terms.
fn are_opened(
    own: &mut Terms,
    terms: &Terms,
    left: E,
    right: E,
    under: u64,
    e: E,
    found: (E, E),
) -> Result<bool, Memory>
    requires sides { (left < length terms.now) × (right < length terms.now) }
    requires e { e < length terms.now }
    requires found { (found.0 < length terms.now) × (found.1 < length terms.now) }
    ensures { IfOk result (λ yes. yes ≡ (equal_expressions (open_at under (tree terms.now left) (tree terms.now e)) (tree terms.now found.0) && equal_expressions (open_at under (tree terms.now right) (tree terms.now e)) (tree terms.now found.1))) }
{
    if is_moved(own, terms, &Move::Open(left), under, e, found.0)? {
        is_moved(own, terms, &Move::Open(right), under, e, found.1)
    } else {
        Ok(false)
    }
}

// Whether the claim has a head.
fn has_head(c: Claim) -> bool
    ensures { (ts : List Expression) → result ≡ has_head_claim (claim_in ts c) }
{
    match c {
        Claim::IsType(_) => true,
        Claim::HasType(..) => true,
        _ => false,
    }
}

// Whether the second claim is the equation of the first one's head opened with each of two terms.
fn is_equated(
    own: &mut Terms,
    terms: &Terms,
    left: E,
    right: E,
    under: u64,
    c: Claim,
    d: Claim,
) -> Result<bool, Memory>
    requires sides { (left < length terms.now) × (right < length terms.now) }
    requires c { ClaimBelow (length terms.now) c }
    requires d { ClaimBelow (length terms.now) d }
    requires head { has_head_claim (claim_in terms.now c) ≡ true }
    ensures { IfOk result (λ yes. yes ≡ equal_claims (equated under (tree terms.now left) (tree terms.now right) (claim_in terms.now c)) (claim_in terms.now d)) }
{
    match c {
        Claim::IsType(a) => match d {
            Claim::EqualTypes(l, r) => are_opened(own, terms, left, right, under, a, (l, r)),
            _ => Ok(false),
        },
        Claim::HasType(h, a) => match d {
            Claim::EqualTerms(l, r, b) => {
                if are_opened(own, terms, left, right, under, h, (l, r))? {
                    is_moved(own, terms, &Move::Open(left), under, a, b)
                } else {
                    Ok(false)
                }
            }
            _ => Ok(false),
        },
        _ => Ok(false),
    }
}

// The sides and the type, where the statement is a plain equation of terms.
#[tactic(auto, using(crate::proofs::Equated::no_plain))]
fn plain_equation(x: &Parts<'_>) -> Option<(E, E, E)>
    ensures is { (ts : List Expression) → option_map (three_in ts) result ≡ plain_equation_of (statement_in ts x.now) }
    ensures below { (n : ℕ) → PartsBelow n x.now → IfSome result (λ p. (p.0 < n) × (p.1 < n) × (p.2 < n)) }
{
    if x.domains.is_empty() {
        match x.claim {
            Claim::EqualTerms(s, t, a) => Some((s, t, a)),
            _ => None,
        }
    } else {
        None
    }
}

/// Whether the third statement is the equation of the first one's head with each side of the second for the variable of its
/// first domain; None where that domain is not the type of the sides, or there is no head.
#[tactic(auto, using(crate::proofs::Equated::no_equation, crate::proofs::Equated::no_domain, crate::proofs::Equated::no_head, crate::proofs::Equated::other_type, crate::proofs::Equated::other_number, crate::proofs::Equated::other_domains, crate::proofs::Equated::equated_under))]
pub fn is_equally_substituted(
    alloc: Global,
    terms: &Terms,
    x: &Parts<'_>,
    e: &Parts<'_>,
    y: &Parts<'_>,
) -> Result<Option<bool>, Memory>
    requires x { PartsBelow (length terms.now) x.now }
    requires e { PartsBelow (length terms.now) e.now }
    requires y { PartsBelow (length terms.now) y.now }
    ensures { IfOk result (λ o. o ≡ option_map (λ z. equal_statements z (statement_in terms.now y.now)) (equal_substitution (statement_in terms.now x.now) (statement_in terms.now e.now))) }
{
    let Some(sides) = plain_equation(e) else {
        return Ok(None);
    };
    let domains = x.domains;
    let claim = x.claim;
    if domains.is_empty() {
        return Ok(None);
    }
    if !has_head(claim) {
        return Ok(None);
    }
    if !same(terms, domains[0], sides.2) {
        return Ok(None);
    }
    let others = &domains[1..];
    let found = y.domains;
    let stated = y.claim;
    if others.len() != found.len() {
        return Ok(Some(false));
    }
    let mut own = Terms::new(alloc);
    if !are_domains_moved(&mut own, terms, &Move::Open(sides.0), others, found)? {
        return Ok(Some(false));
    }
    let under = others.len() as u64;
    let yes = is_equated(&mut own, terms, sides.0, sides.1, under, claim, stated)?;
    Ok(Some(yes))
}
