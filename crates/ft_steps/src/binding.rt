//! Abstraction and substitution.

ghost use Rattle.std.specs.Prelude.{◌≡◌, ◌<◌, ℕ, List, Some, true, length, option_map, IfOk, IfSome};
ghost use Rattle.ft_theory.specs.Expressions.{Expression, free};
ghost use Rattle.ft_theory.specs.Statements.{abstracted, close_statement, has_type, plain};
ghost use Rattle.ft_items.specs.Equal.{equal_expressions, equal_statements};
ghost use Rattle.ft_items.specs.Good.{is_plain_type};
ghost use Rattle.ft_items.specs.Store.{type_in};
ghost use Rattle.ft_items.specs.Rows.{substitution};
ghost use Rattle.ft_syntax.specs.Table.{tree};
ghost use Rattle.ft_steps.specs.Parts.{statement_in, PartsBelow};
ghost use Rattle.ft_steps.specs.Moving.{plain_term as plain_term_of, two_in};

use crate::equal::same;
use crate::moving::{Move, is_statement_moved};
use crate::parts::{Claim, Parts};
use ft_base::Memory;
use ft_syntax::{E, Node, Terms};
use std::alloc::Global;

/// The type, where the statement is a plain type.
#[tactic(auto, using(crate::proofs::Substitutes::type_there, crate::proofs::Substitutes::no_type, crate::proofs::Substitutes::type_under))]
pub fn plain_type(x: &Parts<'_>) -> Option<E>
    ensures is { (ts : List Expression) → is_plain_type (statement_in ts x.now) ≡ true → option_map (tree ts) result ≡ Some (type_in (statement_in ts x.now)) }
    ensures below { (n : ℕ) → PartsBelow n x.now → IfSome result (λ A. A < n) }
{
    if x.domains.is_empty() {
        match x.claim {
            Claim::IsType(a) => Some(a),
            _ => None,
        }
    } else {
        None
    }
}

// Whether the expression is the free variable.
#[tactic(auto, using(crate::proofs::Substitutes::free_is, crate::proofs::Substitutes::no_free))]
fn is_free(terms: &Terms, v: u64, e: E) -> bool
    requires { e < length terms.now }
    ensures { result ≡ equal_expressions (free v) (tree terms.now e) }
{
    match terms.node(e) {
        Node::Free(w) => v == w,
        _ => false,
    }
}

/// Whether the statement is the free variable `v` at the type.
#[tactic(auto, using(crate::proofs::Substitutes::variable_is, crate::proofs::Substitutes::variable_not, crate::proofs::Substitutes::no_variable, crate::proofs::Substitutes::variable_under))]
pub fn is_variable(terms: &Terms, v: u64, ty: E, y: &Parts<'_>) -> bool
    requires ty { ty < length terms.now }
    requires y { PartsBelow (length terms.now) y.now }
    ensures { result ≡ equal_statements (plain (has_type (free v) (tree terms.now ty))) (statement_in terms.now y.now) }
{
    if !y.domains.is_empty() {
        return false;
    }
    match y.claim {
        Claim::HasType(t, a) => {
            if is_free(terms, v, t) {
                same(terms, ty, a)
            } else {
                false
            }
        }
        _ => false,
    }
}

/// Whether the second statement is the first one with the free variable `v` bound, as the variable of a new first domain of
/// the type.
#[tactic(auto, using(crate::proofs::Substitutes::no_first, crate::proofs::Substitutes::other_first, crate::proofs::Substitutes::first_closed))]
pub fn is_abstracted(
    alloc: Global,
    terms: &Terms,
    v: u64,
    ty: E,
    x: &Parts<'_>,
    y: &Parts<'_>,
) -> Result<bool, Memory>
    requires ty { ty < length terms.now }
    requires x { PartsBelow (length terms.now) x.now }
    requires y { PartsBelow (length terms.now) y.now }
    ensures { IfOk result (λ yes. yes ≡ equal_statements (abstracted (tree terms.now ty) (close_statement v (statement_in terms.now x.now))) (statement_in terms.now y.now)) }
{
    let found = y.domains;
    if found.is_empty() {
        return Ok(false);
    }
    if !same(terms, ty, found[0]) {
        return Ok(false);
    }
    let claim = y.claim;
    let closed = x.claim;
    let mut own = Terms::new(alloc);
    is_statement_moved(
        &mut own,
        terms,
        &Move::Close(v),
        x.domains,
        closed,
        &found[1..],
        claim,
    )
}

// The term and its type, where the statement is a plain term.
#[tactic(auto, using(crate::proofs::Substitutes::no_plain))]
fn plain_term(x: &Parts<'_>) -> Option<(E, E)>
    ensures is { (ts : List Expression) → option_map (two_in ts) result ≡ plain_term_of (statement_in ts x.now) }
    ensures below { (n : ℕ) → PartsBelow n x.now → IfSome result (λ p. (p.0 < n) × (p.1 < n)) }
{
    if x.domains.is_empty() {
        match x.claim {
            Claim::HasType(t, a) => Some((t, a)),
            _ => None,
        }
    } else {
        None
    }
}

/// Whether the third statement is the first one with the term of the second for the variable of its first domain; None where
/// that domain is not the type of the term.
#[tactic(auto, using(crate::proofs::Substitutes::no_term, crate::proofs::Substitutes::no_domain, crate::proofs::Substitutes::other_type, crate::proofs::Substitutes::opened_first))]
pub fn is_substituted(
    alloc: Global,
    terms: &Terms,
    x: &Parts<'_>,
    t: &Parts<'_>,
    y: &Parts<'_>,
) -> Result<Option<bool>, Memory>
    requires x { PartsBelow (length terms.now) x.now }
    requires t { PartsBelow (length terms.now) t.now }
    requires y { PartsBelow (length terms.now) y.now }
    ensures { IfOk result (λ o. o ≡ option_map (λ z. equal_statements z (statement_in terms.now y.now)) (substitution (statement_in terms.now x.now) (statement_in terms.now t.now))) }
{
    let Some(typed) = plain_term(t) else {
        return Ok(None);
    };
    let domains = x.domains;
    if domains.is_empty() {
        return Ok(None);
    }
    if !same(terms, domains[0], typed.1) {
        return Ok(None);
    }
    let claim = x.claim;
    let found = y.claim;
    let mut own = Terms::new(alloc);
    let yes = is_statement_moved(
        &mut own,
        terms,
        &Move::Open(typed.0),
        &domains[1..],
        claim,
        y.domains,
        found,
    )?;
    Ok(Some(yes))
}
