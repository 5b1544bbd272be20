//! What the numbers in an item name among the items before it.

ghost use Rattle.std.specs.Prelude.{◌≡◌, ℕ, List, ◌≤◌, IfSome, length, take, nat_lt, option_map};
ghost use Rattle.ft_theory.specs.Expressions.{Expression};
ghost use Rattle.ft_items.specs.Store.{nth, entry_named, store_of, metavariables_in, rules_in};
ghost use Rattle.ft_stated.specs.Lines.{item_in, StatedBelow};
ghost use Rattle.ft_check.specs.Entries.{entry_in, EntryBelow, assertion_of, line_in, line_of, metavariable_of, stated_rule as rule_in};

use ft_assume::Assume;
use ft_judge::{Boundary, Thesis};
use ft_stated::{Numbers, Stated, StatedItems};

/// An entry as it is stated, with its set.
#[derive(Clone, Copy)]
pub enum Entry<'a> {
    Thesis(&'a Thesis, &'a Assume),
    Boundary(&'a Boundary, &'a Assume),
}

// The entry, where one is stated.
fn entry_of(x: &Stated) -> Option<Entry<'_>>
    ensures entry { (ts : List Expression) → option_map (entry_in ts) result ≡
        assertion_of (item_in ts x.now) }
    ensures below { (n : ℕ) → StatedBelow n x.now → IfSome result (λ e. EntryBelow n e) }
{
    match x {
        Stated::Thesis(thesis, set, _) => Some(Entry::Thesis(thesis, set)),
        Stated::Boundary(boundary, set, _) => Some(Entry::Boundary(boundary, set)),
        _ => None,
    }
}

// The entry of the metavariable's boundary, where one is stated.
fn boundary_of(x: &Stated) -> Option<u64>
    ensures { (ts : List Expression) → result ≡ option_map (λ d. d.1)
        (metavariable_of (item_in ts x.now)) }
{
    match x {
        Stated::Met(_, p) => Some(*p),
        _ => None,
    }
}

/// A rule as it is stated: the metavariables of its premises, and the entry of its conclusion's boundary.
#[derive(Clone, Copy)]
pub struct RuleLine<'a> {
    pub premises: &'a Numbers,
    pub conclusion: u64,
}

// The rule, where one is stated.
fn stated_rule(x: &Stated) -> Option<RuleLine<'_>>
    ensures { (ts : List Expression) → option_map line_in result ≡
        option_map line_of (rule_in (item_in ts x.now)) }
{
    match x {
        Stated::Rule(_, premises, conclusion) => Some(RuleLine {
            premises,
            conclusion: *conclusion,
        }),
        _ => None,
    }
}

/// The entry of a number before place `i`, or None where there is none.
#[tactic(auto, using(crate::proofs::Standing::entry_within, crate::proofs::Standing::entry_absent, crate::proofs::Standing::entry_later, crate::proofs::Standing::entry_there))]
pub fn entry_before(items: &StatedItems, i: u64, p: u64) -> Option<Entry<'_>>
    ensures entry { option_map (entry_in items.now.trees) result ≡
        entry_named (store_of (take i items.now.items)) p }
    ensures below { IfSome result (λ e. EntryBelow (length items.now.trees) e) }
{
    let place = items.entry_place(p)?;
    if place < i {
        entry_of(items.item(place))
    } else {
        None
    }
}

/// The entry of the boundary of the metavariable of a number before place `i`, or None where there is none.
#[tactic(auto, using(crate::proofs::Standing::metavariable_within, crate::proofs::Standing::metavariable_absent, crate::proofs::Standing::metavariable_later, crate::proofs::Standing::metavariable_there))]
pub fn metavariable_before(items: &StatedItems, i: u64, m: u64) -> Option<u64>
    ensures { result ≡ option_map (λ d. d.1) (nth (metavariables_in (take i items.now.items)) m) }
{
    let place = items.met_place(m)?;
    if place < i {
        boundary_of(items.item(place))
    } else {
        None
    }
}

/// Whether there is a rule of a number before place `i`.
#[tactic(auto, using(crate::proofs::Standing::rule_absent, crate::proofs::Standing::rule_found))]
pub fn has_rule_before(items: &StatedItems, i: u64, r: u64) -> bool
    ensures { result ≡ nat_lt r (length (rules_in (take i items.now.items))) }
{
    match items.rule_place(r) {
        Some(place) => place < i,
        None => false,
    }
}

/// The rule of a number before place `i`, or None where there is none.
#[tactic(auto, using(crate::proofs::Standing::rule_within, crate::proofs::Standing::line_absent, crate::proofs::Standing::line_later, crate::proofs::Standing::line_there))]
pub fn rule_before(items: &StatedItems, i: u64, r: u64) -> Option<RuleLine<'_>>
    ensures { option_map line_in result ≡ option_map line_of
        (nth (rules_in (take i items.now.items)) r) }
{
    let place = items.rule_place(r)?;
    if place < i {
        stated_rule(items.item(place))
    } else {
        None
    }
}
