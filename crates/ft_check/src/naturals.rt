//! The type that a term has by its declaration.

ghost use Rattle.std.specs.Prelude.{◌≡◌, ◌<◌, Some, length, option_map, IfOk, IfSome};
ghost use Rattle.ft_theory.specs.Expressions.{Arguments, Terms as AnyTerms, meta, symbol};
ghost use Rattle.ft_theory.specs.Rules.{look_up, rule_at};
ghost use Rattle.ft_items.specs.Item.{Stated as StatedNumbers};
ghost use Rattle.ft_items.specs.Store.{Assertion, entry_named, nth};
ghost use Rattle.ft_items.specs.Rows.{natural, natural_of_meta, natural_of_rule, natural_type};
ghost use Rattle.ft_syntax.specs.Table.{tree};
ghost use Rattle.ft_placing.specs.Applied.{is_left};
ghost use Rattle.ft_check.specs.Earlier.{declared_before, store_before, GoodBefore};
ghost use Rattle.ft_check.specs.Entries.{EntryBelow};
ghost use Rattle.ft_check.specs.Judging.{stated, Judges};

use crate::applications::is_type_of_symbol;
use crate::applied::rule_at_hand;
use crate::binding::against_test;
use crate::entry::{Entry, entry_before};
use crate::metavariable_at::metavariable_at_hand;
use crate::reject::Reject;
use crate::typed::typed_before;
use ft_base::Memory;
use ft_placing::{At, is_type_left, is_type_of_meta, left_of, sides_of};
use ft_stated::StatedItems;
use ft_syntax::{E, Node};
use std::alloc::Global;

// The same for a variable.
fn is_type_of_variable(items: &StatedItems, i: u64, v: u64, left: Option<E>) -> Option<bool>
    requires { IfSome left (λ e. e < length items.now.trees) }
    ensures { GoodBefore i items.now.items → result ≡
        option_map (λ N. is_left items.now.trees N left) (option_map (λ d. d.annotation)
        (look_up (declared_before i items.now.items).variables v)) }
{
    match typed_before(items, i, v) {
        None => None,
        Some(typed) => Some(is_type_left(items.terms(), typed.ty, left)),
    }
}

// The same for a symbol.
fn is_natural_of_symbol(
    alloc: Global,
    items: &StatedItems,
    i: u64,
    r: u64,
    e: E,
    left: Option<E>,
) -> Result<Option<bool>, Memory>
    requires e { e < length items.now.trees }
    requires left { IfSome left (λ e. e < length items.now.trees) }
    ensures { (a : Arguments) → GoodBefore i items.now.items
        → tree items.now.trees e ≡ symbol r a
        → IfOk result (λ o. o ≡ option_map (λ N. is_left items.now.trees N left)
        (natural_of_rule (rule_at (declared_before i items.now.items).rules r) a)) }
{
    match rule_at_hand(items, i, r) {
        None => Ok(None),
        Some(rule) => is_type_of_symbol(alloc, items.terms(), &rule, e, left),
    }
}

// The same for a metavariable.
fn is_natural_of_meta(
    alloc: Global,
    items: &StatedItems,
    i: u64,
    m: u64,
    e: E,
    left: Option<E>,
) -> Result<Option<bool>, Memory>
    requires e { e < length items.now.trees }
    requires left { IfSome left (λ e. e < length items.now.trees) }
    ensures { (a : AnyTerms) → GoodBefore i items.now.items
        → tree items.now.trees e ≡ meta m a
        → IfOk result (λ o. o ≡ option_map (λ N. is_left items.now.trees N left)
        (natural_of_meta (nth (declared_before i items.now.items).metavariables m) a)) }
{
    match metavariable_at_hand(items, i, m) {
        None => Ok(None),
        Some(declared) => is_type_of_meta(alloc, items.terms(), declared.boundary, e, left),
    }
}

// Whether an expression, where one is there, is the type that the term has by its declaration;
// None where it has none.
fn is_natural(
    alloc: Global,
    items: &StatedItems,
    i: u64,
    e: E,
    left: Option<E>,
) -> Result<Option<bool>, Memory>
    requires e { e < length items.now.trees }
    requires left { IfSome left (λ e. e < length items.now.trees) }
    ensures { GoodBefore i items.now.items → IfOk result (λ o. o ≡
        option_map (λ N. is_left items.now.trees N left)
        (natural_type (declared_before i items.now.items) (tree items.now.trees e))) }
{
    match items.terms().node(e) {
        Node::Bound(_) => Ok(None),
        Node::Free(v) => Ok(is_type_of_variable(items, i, v, left)),
        Node::Sym(r) => is_natural_of_symbol(alloc, items, i, r, e, left),
        Node::Meta(m) => is_natural_of_meta(alloc, items, i, m, e, left),
    }
}

/// The reason against an entry as the equation between the type that the term of entry `p` has by
/// its declaration and the stated one.
pub fn check_natural(
    alloc: Global,
    items: &StatedItems,
    i: u64,
    found: Entry<'_>,
    p: u64,
) -> Result<Option<Reject>, Memory>
    requires { EntryBelow (length items.now.trees) found }
    ensures { (b : Assertion) (t : StatedNumbers) → GoodBefore i items.now.items
        → entry_named (store_before i items.now.items) p ≡ Some b
        → IfOk result (λ x. Judges (stated items.now.trees found.entry t)
        (natural (declared_before i items.now.items) b.statement) b.set x) }
{
    let Some(named) = entry_before(items, i, p) else {
        return Ok(Some(Reject::Reference));
    };
    let Some(sides) = sides_of(At::Terms, &named.parts()) else {
        return Ok(Some(Reject::Premise));
    };
    let claimed = found.parts();
    let left = left_of(items.terms(), &claimed, sides.ty);
    match is_natural(alloc, items, i, sides.left, left)? {
        None => Ok(Some(Reject::Premise)),
        Some(is_concluded) => Ok(against_test(is_concluded, named.set(), found)),
    }
}
