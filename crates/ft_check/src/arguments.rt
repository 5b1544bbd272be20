//! The arguments of an application.

ghost use Rattle.std.specs.Prelude.{◌≡◌, ◌<◌, Some, true, length, option_map, IfOk};
ghost use Rattle.ft_theory.specs.Expressions.{Arguments, Terms as AnyTerms, meta, symbol};
ghost use Rattle.ft_theory.specs.Rules.{rule_at};
ghost use Rattle.ft_items.specs.Item.{Stated as StatedNumbers};
ghost use Rattle.ft_items.specs.Equal.{equal_statements, is_thesis};
ghost use Rattle.ft_items.specs.Store.{Assertion, entry_named, nth};
ghost use Rattle.ft_items.specs.Rows.{argument, arguments_of, meta_arguments, rule_arguments};
ghost use Rattle.ft_syntax.specs.Table.{tree};
ghost use Rattle.ft_check.specs.Earlier.{declared_before, store_before, GoodBefore};
ghost use Rattle.ft_check.specs.Entries.{entry_in, EntryBelow};
ghost use Rattle.ft_check.specs.Judging.{stated, Judges};

use crate::applications::is_argument_of_symbol;
use crate::applied::rule_at_hand;
use crate::binding::against_test;
use crate::entry::{Entry, entry_before};
use crate::metavariable_at::metavariable_at_hand;
use crate::reject::Reject;
use ft_base::Memory;
use ft_placing::{is_term_of_meta, plain_head};
use ft_stated::StatedItems;
use ft_syntax::{E, Node};
use std::alloc::Global;

// The same for a symbol.
fn is_argument_of_rule(
    alloc: Global,
    items: &StatedItems,
    i: u64,
    r: u64,
    e: E,
    k: u64,
    found: Entry<'_>,
) -> Result<Option<bool>, Memory>
    requires e { e < length items.now.trees }
    requires found { EntryBelow (length items.now.trees) found }
    ensures { (a : Arguments) → GoodBefore i items.now.items
        → tree items.now.trees e ≡ symbol r a
        → is_thesis (entry_in items.now.trees found.entry).statement ≡ true
        → IfOk result (λ o. o ≡ option_map
        (λ z. equal_statements z (entry_in items.now.trees found.entry).statement)
        (nth (rule_arguments (rule_at (declared_before i items.now.items).rules r) a) k)) }
{
    match rule_at_hand(items, i, r) {
        None => Ok(None),
        Some(rule) => is_argument_of_symbol(alloc, items, i, &rule, e, k, found),
    }
}

// The same for a metavariable.
fn is_argument_of_meta(
    alloc: Global,
    items: &StatedItems,
    i: u64,
    m: u64,
    e: E,
    k: u64,
    found: Entry<'_>,
) -> Result<Option<bool>, Memory>
    requires e { e < length items.now.trees }
    requires found { EntryBelow (length items.now.trees) found }
    ensures { (a : AnyTerms) → GoodBefore i items.now.items
        → tree items.now.trees e ≡ meta m a
        → IfOk result (λ o. o ≡ option_map
        (λ z. equal_statements z (entry_in items.now.trees found.entry).statement)
        (nth (meta_arguments (nth (declared_before i items.now.items).metavariables m) a) k)) }
{
    match metavariable_at_hand(items, i, m) {
        None => Ok(None),
        Some(declared) => {
            let claimed = found.parts();
            is_term_of_meta(alloc, items.terms(), declared.boundary, e, k, &claimed)
        }
    }
}

// Whether the thesis is that of the argument at place `k`, counted from 0, of the expression; None
// where none stands there.
fn is_argument(
    alloc: Global,
    items: &StatedItems,
    i: u64,
    e: E,
    k: u64,
    found: Entry<'_>,
) -> Result<Option<bool>, Memory>
    requires e { e < length items.now.trees }
    requires found { EntryBelow (length items.now.trees) found }
    ensures { GoodBefore i items.now.items
        → is_thesis (entry_in items.now.trees found.entry).statement ≡ true
        → IfOk result (λ o. o ≡ option_map
        (λ z. equal_statements z (entry_in items.now.trees found.entry).statement)
        (nth (arguments_of (declared_before i items.now.items) (tree items.now.trees e)) k)) }
{
    match items.terms().node(e) {
        Node::Bound(_) => Ok(None),
        Node::Free(_) => Ok(None),
        Node::Sym(r) => is_argument_of_rule(alloc, items, i, r, e, k, found),
        Node::Meta(m) => is_argument_of_meta(alloc, items, i, m, e, k, found),
    }
}

/// The reason against a thesis as the argument at a place, counted from 1, of the application in
/// entry `p`.
pub fn check_arg(
    alloc: Global,
    items: &StatedItems,
    i: u64,
    found: Entry<'_>,
    place: u64,
    p: u64,
) -> Result<Option<Reject>, Memory>
    requires { EntryBelow (length items.now.trees) found }
    ensures { (b : Assertion) (t : StatedNumbers) → GoodBefore i items.now.items
        → entry_named (store_before i items.now.items) p ≡ Some b
        → is_thesis (entry_in items.now.trees found.entry).statement ≡ true
        → IfOk result (λ x. Judges (stated items.now.trees found.entry t)
        (argument (declared_before i items.now.items) place b.statement) b.set x) }
{
    let Some(named) = entry_before(items, i, p) else {
        return Ok(Some(Reject::Reference));
    };
    let Some(e) = plain_head(&named.parts()) else {
        return Ok(Some(Reject::Premise));
    };
    if place == 0 {
        return Ok(Some(Reject::Premise));
    }
    match is_argument(alloc, items, i, e, place - 1, found)? {
        None => Ok(Some(Reject::Premise)),
        Some(is_concluded) => Ok(against_test(is_concluded, named.set(), found)),
    }
}
