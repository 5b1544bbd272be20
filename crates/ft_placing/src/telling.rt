//! What a term tells by what it is made of: its arguments, and the type that it has by its
//! declaration.

ghost use Rattle.std.specs.Prelude.{◌≡◌, ◌<◌, ◌≤◌, ℕ, List, Some, drop, get_or, length, option_map, take, IfOk, IfSome};
ghost use Rattle.ft_theory.specs.Expressions.{Expression, meta, Terms as AnyTerms};
ghost use Rattle.ft_theory.specs.Rules.{term_typings};
ghost use Rattle.ft_theory.specs.Statements.{at as boundary_at, equal_types, has_type, plain};
ghost use Rattle.ft_items.specs.Equal.{equal_claims, equal_expressions, equal_statements};
ghost use Rattle.ft_items.specs.Rows.{type_of_boundary};
ghost use Rattle.ft_items.specs.Store.{nth};
ghost use Rattle.ft_syntax.specs.Arguments.{arguments_of as arguments_listed, as_arguments};
ghost use Rattle.ft_syntax.specs.Table.{tree, arguments_in, AllBelow, ArgumentsBelow};
ghost use Rattle.ft_judge.specs.Meaning.{boundary_in, goal_in, BoundaryBelow, GoalBelow};
ghost use Rattle.ft_steps.specs.Parts.{claim_in, statement_in, ClaimBelow, PartsBelow};
ghost use Rattle.ft_placing.specs.Applied.{domain_put, is_left};
ghost use Rattle.ft_placing.specs.Telling.{head_told, put_in};

use crate::expressions::{bodies_of, is_bound, is_same_expression};
use crate::opening::is_opened;
use ft_base::Memory;
use ft_judge::{Boundary, Goal};
use ft_steps::{Claim, Parts};
use ft_syntax::{Arg, E, Terms};
use std::alloc::Global;

/// The type or the term, where the statement is a plain type or a plain term.
#[tactic(auto, using(crate::proofs::Told::head_plain, crate::proofs::Told::no_head_told))]
pub fn plain_head(x: &Parts<'_>) -> Option<E>
    ensures is { (ts : List Expression) → option_map (tree ts) result ≡
        head_told (statement_in ts x.now) }
    ensures below { (n : ℕ) → PartsBelow n x.now → IfSome result (λ e. e < n) }
{
    if !x.domains.is_empty() {
        return None;
    }
    match x.claim {
        Claim::IsType(e) => Some(e),
        Claim::HasType(e, _) => Some(e),
        _ => None,
    }
}

/// Whether an expression, where one is there, is the type.
pub fn is_type_left(terms: &Terms, ty: E, left: Option<E>) -> bool
    requires ty { ty < length terms.now }
    requires left { IfSome left (λ e. e < length terms.now) }
    ensures { result ≡ is_left terms.now (tree terms.now ty) left }
{
    match left {
        None => false,
        Some(found) => is_same_expression(terms, ty, found),
    }
}

// The left side, where the claim is the equation of a type and this one.
fn left_of_claim(terms: &Terms, c: Claim, ty: E) -> Option<E>
    requires c { ClaimBelow (length terms.now) c }
    requires ty { ty < length terms.now }
    ensures is { (N : Expression) → is_left terms.now N result ≡
        equal_claims (equal_types N (tree terms.now ty)) (claim_in terms.now c) }
    ensures below { IfSome result (λ e. e < length terms.now) }
{
    match c {
        Claim::EqualTypes(a, b) => {
            if is_same_expression(terms, ty, b) {
                Some(a)
            } else {
                None
            }
        }
        _ => None,
    }
}

/// The left side, where the statement is the plain equation of a type and this one.
#[tactic(auto, using(crate::proofs::Placed::plain_same, crate::proofs::Placed::plain_not))]
pub fn left_of(terms: &Terms, y: &Parts<'_>, ty: E) -> Option<E>
    requires y { PartsBelow (length terms.now) y.now }
    requires ty { ty < length terms.now }
    ensures is { (N : Expression) → is_left terms.now N result ≡
        equal_statements (plain (equal_types N (tree terms.now ty)))
        (statement_in terms.now y.now) }
    ensures below { IfSome result (λ e. e < length terms.now) }
{
    if y.domains.is_empty() {
        left_of_claim(terms, y.claim, ty)
    } else {
        None
    }
}

/// The arguments of an expression.
#[tactic(auto, using(crate::proofs::Told::listed_start, crate::proofs::Told::listed_end, ft_syntax::specs::Laws::body_longer))]
pub fn arguments_of(alloc: Global, terms: &Terms, e: E) -> Result<Vec<Arg>, Memory>
    requires { e < length terms.now }
    ensures are { IfOk result (λ xs. arguments_in terms.now xs.items ≡
        as_arguments (arguments_listed (tree terms.now e))) }
    ensures below { IfOk result (λ xs. ArgumentsBelow (length terms.now) xs.items) }
{
    let mut list = Vec::new(alloc);
    for k in 0..terms.count(e) {
        let Arg { binders, body } = terms.arg(e, k + 1);
        list.push(Arg { binders, body })?;
    }
    Ok(list)
}

// The type, where the goal is that of a term.
fn goal_type(goal: &Goal) -> Option<E>
    ensures is { (ts : List Expression) → option_map (tree ts) result ≡
        type_of_boundary (plain (goal_in ts goal.now)) }
    ensures below { (n : ℕ) → GoalBelow n goal.now → IfSome result (λ e. e < n) }
{
    match *goal {
        Goal::Tm(ty) => Some(ty),
        _ => None,
    }
}

// Whether an expression, where one is there, is the type with the terms put.
fn is_left_put(
    alloc: Global,
    terms: &Terms,
    put: &[E],
    ty: E,
    left: Option<E>,
) -> Result<bool, Memory>
    requires put { AllBelow (length terms.now) put.now }
    requires ty { ty < length terms.now }
    requires left { IfSome left (λ e. e < length terms.now) }
    ensures { IfOk result (λ yes. yes ≡ is_left terms.now (put_in terms.now put.now ty) left) }
{
    match left {
        None => Ok(false),
        Some(found) => is_opened(alloc, terms, put, ty, found),
    }
}

/// Whether an expression, where one is there, is the type in the boundary of the metavariable `e`
/// at its terms; None where there is no type.
#[tactic(auto, using(crate::proofs::Siding::first_below))]
pub fn is_type_of_meta(
    alloc: Global,
    terms: &Terms,
    b: &Boundary,
    e: E,
    left: Option<E>,
) -> Result<Option<bool>, Memory>
    requires b { BoundaryBelow (length terms.now) b.now }
    requires e { e < length terms.now }
    requires left { IfSome left (λ e. e < length terms.now) }
    ensures { (m : ℕ) (a : AnyTerms) → tree terms.now e ≡ meta m a → IfOk result (λ o. o ≡
        option_map (λ N. is_left terms.now N left)
        (type_of_boundary (boundary_at (boundary_in terms.now b.now) a))) }
{
    let Some(ty) = goal_type(&b.goal) else {
        return Ok(None);
    };
    let list = bodies_of(alloc, terms, e)?;
    let count = b.domains.items().len();
    if list.len() < count {
        return Ok(None);
    }
    let yes = is_left_put(alloc, terms, &list[..count], ty, left)?;
    Ok(Some(yes))
}

// Whether the expression is the domain at a place with the terms before it put; past the domains
// it is the innermost bound variable.
#[tactic(auto, using(crate::proofs::Siding::first_below, crate::proofs::Told::domain_here, crate::proofs::Told::domain_past, ft_syntax::specs::Laws::one_below))]
fn is_domain_put(
    alloc: Global,
    terms: &Terms,
    domains: &[E],
    list: &[E],
    k: usize,
    ty: E,
) -> Result<bool, Memory>
    requires domains { AllBelow (length terms.now) domains.now }
    requires list { AllBelow (length terms.now) list.now }
    requires place { k ≤ length list.now }
    requires ty { ty < length terms.now }
    ensures { IfOk result (λ yes. yes ≡ equal_expressions
        (domain_put terms.now (take k list.now) (drop k domains.now)) (tree terms.now ty)) }
{
    if k < domains.len() {
        is_opened(alloc, terms, &list[..k], domains[k], ty)
    } else {
        Ok(is_bound(terms, 0, ty))
    }
}

// Whether the claim is that of the term at a place, at the domain there.
#[tactic(auto, using(ft_syntax::specs::Laws::one_below))]
fn is_term_claim(
    alloc: Global,
    terms: &Terms,
    domains: &[E],
    list: &[E],
    k: usize,
    c: Claim,
) -> Result<bool, Memory>
    requires domains { AllBelow (length terms.now) domains.now }
    requires list { AllBelow (length terms.now) list.now }
    requires place { k < length list.now }
    requires c { ClaimBelow (length terms.now) c }
    ensures { IfOk result (λ yes. yes ≡ equal_claims
        (has_type (tree terms.now (get_or list.now k 0))
        (domain_put terms.now (take k list.now) (drop k domains.now))) (claim_in terms.now c)) }
{
    match c {
        Claim::HasType(t, ty) => {
            if is_same_expression(terms, list[k], t) {
                is_domain_put(alloc, terms, domains, list, k, ty)
            } else {
                Ok(false)
            }
        }
        _ => Ok(false),
    }
}

// Whether the statement is the plain term at a place, at the domain there.
#[tactic(auto, using(crate::proofs::Placed::plain_same, crate::proofs::Placed::plain_not))]
fn is_term_at(
    alloc: Global,
    terms: &Terms,
    domains: &[E],
    list: &[E],
    k: usize,
    y: &Parts<'_>,
) -> Result<bool, Memory>
    requires domains { AllBelow (length terms.now) domains.now }
    requires list { AllBelow (length terms.now) list.now }
    requires place { k < length list.now }
    requires y { PartsBelow (length terms.now) y.now }
    ensures { IfOk result (λ yes. yes ≡ equal_statements
        (plain (has_type (tree terms.now (get_or list.now k 0))
        (domain_put terms.now (take k list.now) (drop k domains.now))))
        (statement_in terms.now y.now)) }
{
    if y.domains.is_empty() {
        is_term_claim(alloc, terms, domains, list, k, y.claim)
    } else {
        Ok(false)
    }
}

/// Whether the statement is that of the term at place `k`, counted from 0, of the metavariable `e`
/// with this boundary; None where no term stands there.
#[tactic(auto, using(crate::proofs::Told::no_term_told, crate::proofs::Told::term_told))]
pub fn is_term_of_meta(
    alloc: Global,
    terms: &Terms,
    b: &Boundary,
    e: E,
    k: u64,
    y: &Parts<'_>,
) -> Result<Option<bool>, Memory>
    requires b { BoundaryBelow (length terms.now) b.now }
    requires e { e < length terms.now }
    requires y { PartsBelow (length terms.now) y.now }
    ensures { (m : ℕ) (a : AnyTerms) → tree terms.now e ≡ meta m a → IfOk result (λ o. o ≡
        option_map (λ z. equal_statements z (statement_in terms.now y.now))
        (nth (term_typings (boundary_in terms.now b.now) a) k)) }
{
    let list = bodies_of(alloc, terms, e)?;
    if list.len() as u64 <= k {
        return Ok(None);
    }
    let yes = is_term_at(alloc, terms, b.domains.items(), &list, k as usize, y)?;
    Ok(Some(yes))
}
