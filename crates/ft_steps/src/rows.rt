//! What steps conclude whose conclusion is made of parts of what they name.

ghost use Rattle.std.specs.Prelude.{◌≡◌, ℕ, List, Option as AnyOption, None, length, option_map, IfSome};
ghost use Rattle.ft_theory.specs.Expressions.{Expression};
ghost use Rattle.ft_theory.specs.Statements.{Statement, abstracted, plain};
ghost use Rattle.ft_judge.specs.Meaning.{under};
ghost use Rattle.ft_items.specs.Rows.{first_domain as first_domain_of, term_equation_boundary};
ghost use Rattle.ft_syntax.specs.Table.{AllBelow};
ghost use Rattle.ft_steps.specs.declared.parts.Claim.{Claim as ClaimValue};
ghost use Rattle.ft_steps.specs.Parts.{claim_in, plain_in, statement_in, ClaimBelow, PartsBelow};
ghost use Rattle.ft_steps.specs.Rows.{from_one as one_concluded, from_two as two_concluded};

use crate::claims::{
    converted, converted_equation, goal_of, left_side, reflexive, right_side, symmetric,
    term_boundary, term_equation, transitive, type_equation, type_of,
};
use crate::parts::{Claim, Parts};
use ft_syntax::{E, Terms};

/// A step that concludes from one entry. Each variant has the name of its word in a derivation file.
#[derive(Clone, Copy, Debug, PartialEq, Eq)]
pub enum FromOne {
    Refl,
    Sym,
    Left,
    Right,
    Typeof,
    Domain,
    Boundary,
    Bterm,
}

/// A step that concludes from two entries. Each variant has the name of its word in a derivation file.
#[derive(Clone, Copy, Debug, PartialEq, Eq)]
pub enum FromTwo {
    Trans,
    Conv,
    Conveq,
    Widen,
    Beqty,
}

// The claim, where there is one, below the domains.
fn below(domains: &[E], c: Option<Claim>) -> Option<Parts<'_>>
    ensures is { (ts : List Expression) → option_map (statement_in ts) result ≡ option_map (λ d. under ts domains.now (plain d)) (option_map (claim_in ts) c) }
    ensures below { (n : ℕ) → AllBelow n domains.now → IfSome c (λ d. ClaimBelow n d) → IfSome result (λ y. PartsBelow n y) }
{
    match c {
        None => None,
        Some(claim) => Some(Parts { domains, claim }),
    }
}

// The claim, where there is one, if there are no domains.
#[tactic(auto, using(crate::proofs::Concluding::no_domains, crate::proofs::Concluding::some_domains))]
fn plainly(domains: &[E], c: Option<Claim>) -> Option<Parts<'_>>
    ensures is { (ts : List Expression) (f : Statement → AnyOption Statement) (x : ClaimValue) → ((A : Expression) (u : Statement) → None ≡ f (abstracted A u)) → option_map (plain_in ts) c ≡ f (plain_in ts x)
        → option_map (statement_in ts) result ≡ f (under ts domains.now (plain_in ts x)) }
    ensures below { (n : ℕ) → AllBelow n domains.now → IfSome c (λ d. ClaimBelow n d) → IfSome result (λ y. PartsBelow n y) }
{
    if domains.is_empty() {
        below(domains, c)
    } else {
        None
    }
}

// The claim, where there is one, if there are no domains and no others.
#[tactic(auto, using(crate::proofs::Concluding::no_others, crate::proofs::Concluding::some_others))]
fn both_plainly<'a>(domains: &'a [E], others: &[E], c: Option<Claim>) -> Option<Parts<'a>>
    ensures is { (ts : List Expression) (f : Statement → Statement → AnyOption Statement) (x y : ClaimValue) → ((A : Expression) (u v : Statement) → None ≡ f (abstracted A u) v) → ((A : Expression) (u v : Statement) → None ≡ f u (abstracted A v))
        → option_map (plain_in ts) c ≡ f (plain_in ts x) (plain_in ts y)
        → option_map (statement_in ts) result ≡ f (under ts domains.now (plain_in ts x)) (under ts others.now (plain_in ts y)) }
    ensures below { (n : ℕ) → AllBelow n domains.now → IfSome c (λ d. ClaimBelow n d) → IfSome result (λ y. PartsBelow n y) }
{
    if others.is_empty() {
        plainly(domains, c)
    } else {
        None
    }
}

// The first domain, as a type.
fn first_domain(domains: &[E]) -> Option<Parts<'_>>
    ensures is { (ts : List Expression) (x : ClaimValue) → option_map (statement_in ts) result ≡ first_domain_of (under ts domains.now (plain_in ts x)) }
    ensures below { (n : ℕ) → AllBelow n domains.now → IfSome result (λ y. PartsBelow n y) }
{
    if domains.is_empty() {
        return None;
    }
    let claim = Claim::IsType(domains[0]);
    Some(Parts {
        domains: &domains[..0],
        claim,
    })
}

/// What the step concludes from the statement; None where a condition of its row fails.
pub fn from_one(row: FromOne, x: Parts<'_>) -> Option<Parts<'_>>
    ensures is { (ts : List Expression) → option_map (statement_in ts) result ≡ one_concluded row (statement_in ts x.entry) }
    ensures below { (n : ℕ) → PartsBelow n x.entry → IfSome result (λ y. PartsBelow n y) }
{
    let claim = x.claim;
    match row {
        FromOne::Refl => below(x.domains, reflexive(claim)),
        FromOne::Sym => plainly(x.domains, symmetric(claim)),
        FromOne::Left => below(x.domains, left_side(claim)),
        FromOne::Right => below(x.domains, right_side(claim)),
        FromOne::Typeof => below(x.domains, type_of(claim)),
        FromOne::Domain => first_domain(x.domains),
        FromOne::Boundary => below(x.domains, Some(goal_of(claim))),
        FromOne::Bterm => plainly(x.domains, term_boundary(claim)),
    }
}

/// What the step concludes from the two statements; None where a condition of its row fails.
pub fn from_two<'a>(terms: &Terms, row: FromTwo, x: Parts<'a>, y: Parts<'_>) -> Option<Parts<'a>>
    requires x { PartsBelow (length terms.now) x }
    requires y { PartsBelow (length terms.now) y }
    ensures is { option_map (statement_in terms.now) result ≡ two_concluded row (statement_in terms.now x.entry) (statement_in terms.now y.entry) }
    ensures below { IfSome result (λ z. PartsBelow (length terms.now) z) }
{
    let first = x.claim;
    let second = y.claim;
    let others = y.domains;
    match row {
        FromTwo::Trans => both_plainly(x.domains, others, transitive(terms, first, second)),
        FromTwo::Conv => both_plainly(x.domains, others, converted(terms, first, second)),
        FromTwo::Conveq => both_plainly(
            x.domains,
            others,
            converted_equation(terms, first, second),
        ),
        FromTwo::Widen => below(x.domains, Some(first)),
        FromTwo::Beqty => both_plainly(x.domains, others, type_equation(first, second)),
    }
}

/// The boundary of an equation of two terms at a type, which is the type of both; None where a condition fails.
pub fn from_three<'a>(terms: &Terms, x: Parts<'a>, y: Parts<'_>, z: Parts<'_>) -> Option<Parts<'a>>
    requires x { PartsBelow (length terms.now) x }
    requires y { PartsBelow (length terms.now) y }
    requires z { PartsBelow (length terms.now) z }
    ensures is { option_map (statement_in terms.now) result ≡ term_equation_boundary (statement_in terms.now x.entry) (statement_in terms.now y.entry) (statement_in terms.now z.entry) }
    ensures below { IfSome result (λ w. PartsBelow (length terms.now) w) }
{
    let concluded = term_equation(terms, x.claim, y.claim, z.claim);
    if z.domains.is_empty() {
        both_plainly(x.domains, y.domains, concluded)
    } else {
        None
    }
}
