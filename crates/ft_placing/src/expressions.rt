//! Expressions of a table, by their nodes.

ghost use Rattle.std.specs.Prelude.{◌≡◌, ◌<◌, ◌++◌, ℕ, List, length, option_map, IfOk, OnOk};
ghost use Rattle.ft_theory.specs.Expressions.{bound, meta, Expression};
ghost use Rattle.ft_items.specs.Equal.{equal_expressions};
ghost use Rattle.ft_items.specs.Rows.{bounds};
ghost use Rattle.ft_syntax.specs.Arguments.{arguments_of};
ghost use Rattle.ft_syntax.specs.Table.{tree, AllBelow, BodyBelow};
ghost use Rattle.ft_placing.specs.Opening.{trees_of};
ghost use Rattle.ft_placing.specs.Applied.{are_bounds as bounds_are, bodies, body_listed, is_bound_body as bound_body_is};

use ft_base::Memory;
use ft_syntax::{E, Node, Terms};
use std::alloc::Global;

/// Whether two expressions are the same.
#[tactic(auto, using(ft_sound::proofs::EqualLemmas::by_equal))]
pub fn is_same_expression(terms: &Terms, a: E, b: E) -> bool
    requires { (a < length terms.now) × (b < length terms.now) }
    ensures { result ≡ equal_expressions (tree terms.now a) (tree terms.now b) }
{
    terms.equal_expr(a, b)
}

/// Whether the expression is the bound variable.
#[tactic(auto, using(crate::proofs::Nodes::bound_is, crate::proofs::Nodes::no_bound))]
pub fn is_bound(terms: &Terms, i: u64, e: E) -> bool
    requires { e < length terms.now }
    ensures { result ≡ equal_expressions (bound i) (tree terms.now e) }
{
    match terms.node(e) {
        Node::Bound(j) => i == j,
        _ => false,
    }
}

fn is_bound_body(terms: &Terms, i: u64, body: Option<E>) -> bool
    requires { BodyBelow (length terms.now) body }
    ensures { result ≡ bound_body_is i (option_map (tree terms.now) body) }
{
    match body {
        None => false,
        Some(e) => is_bound(terms, i, e),
    }
}

// Whether the arguments of an application are the bound variables of as many domains.
#[tactic(auto, using(crate::proofs::Nodes::bounds_next, crate::proofs::Nodes::bounds_not, crate::proofs::Nodes::bounds_end, crate::proofs::Nodes::bounds_start, ft_syntax::specs::Laws::body_longer))]
fn are_bounds(terms: &Terms, n: u64, e: E) -> bool
    requires e { e < length terms.now }
    requires count { length (arguments_of (tree terms.now e)) ≡ n }
    ensures { result ≡ bounds_are n (arguments_of (tree terms.now e)) }
{
    for k in 0..n {
        let found = terms.arg(e, k + 1);
        if !is_bound_body(terms, n - 1 - k, found.body) {
            return false;
        }
    }
    true
}

/// Whether the expression is the metavariable at the bound variables of `n` domains.
#[tactic(auto, using(crate::proofs::Nodes::generic_is, crate::proofs::Nodes::generic_other, crate::proofs::Nodes::generic_count, crate::proofs::Nodes::generic_not))]
pub fn is_generic(terms: &Terms, m: u64, n: u64, e: E) -> bool
    requires { e < length terms.now }
    ensures { result ≡ equal_expressions (meta m (bounds n)) (tree terms.now e) }
{
    match terms.node(e) {
        Node::Meta(other) => {
            if other != m {
                return false;
            }
            if terms.count(e) != n {
                return false;
            }
            are_bounds(terms, n, e)
        }
        _ => false,
    }
}

// Adds the body, where there is one.
#[tactic(auto, using(crate::proofs::Nodes::body_pushed, crate::proofs::Nodes::body_below, crate::proofs::Nodes::no_body_pushed))]
fn push_body(list: &mut Vec<E>, body: Option<E>) -> Result<(), Memory>
    ensures trees { (ts : List Expression) → OnOk result (trees_of ts list.new.items ≡
        trees_of ts list.old.items ++ body_listed (option_map (tree ts) body)) }
    ensures below { (n : ℕ) → AllBelow n list.old.items → BodyBelow n body
        → OnOk result (AllBelow n list.new.items) }
{
    match body {
        None => {}
        Some(e) => list.push(e)?,
    }
    Ok(())
}

/// The bodies of the arguments of an expression: the terms, where it is a metavariable at terms.
#[tactic(auto, using(crate::proofs::Nodes::bodies_start, crate::proofs::Nodes::bodies_next, crate::proofs::Nodes::bodies_end, ft_syntax::specs::Laws::body_longer))]
pub fn bodies_of(alloc: Global, terms: &Terms, e: E) -> Result<Vec<E>, Memory>
    requires { e < length terms.now }
    ensures are { IfOk result (λ xs. trees_of terms.now xs.items ≡
        bodies (arguments_of (tree terms.now e))) }
    ensures below { IfOk result (λ xs. AllBelow (length terms.now) xs.items) }
{
    let mut list = Vec::new(alloc);
    for k in 0..terms.count(e) {
        let found = terms.arg(e, k + 1);
        push_body(&mut list, found.body)?;
    }
    Ok(list)
}
