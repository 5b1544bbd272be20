//! The check of a rule.

ghost use Rattle.std.specs.Prelude.{◌≡◌, ◌&&◌, ℕ, ◌∷◌, [], List, Some, take, map, not, unwrap_or, is_some, option_map};
ghost use Rattle.std.specs.List.{list_all};
ghost use Rattle.ft_theory.specs.Expressions.{Expression};
ghost use Rattle.ft_items.specs.Item.{rule};
ghost use Rattle.ft_items.specs.Sets.{met, is_within as within};
ghost use Rattle.ft_items.specs.Store.{Declared, each, metavariable_named, metavariables_in, nth, rules_in, declared_by};
ghost use Rattle.ft_items.specs.Rows.{atoms, differ as all_differ, on_earlier};
ghost use Rattle.ft_items.specs.Equal.{is_thesis, is_plain};
ghost use Rattle.ft_items.specs.Good.{Good, is_new as is_new_among, reason_of_rule};
ghost use Rattle.ft_check.specs.Entries.{boundary_set, entry_in, rest_on_earlier as all_rest_on_earlier};
ghost use Rattle.ft_check.specs.Rejects.{reason_of, IsReason};

use crate::entry::{Entry, entry_before, has_rule_before, metavariable_before};
use crate::reject::Reject;
use crate::sets::{differ, is_within};
use ft_assume::Assume;
use ft_base::Name;
use ft_base::limits::MAX_RULES;
use ft_stated::{Numbers, StatedItems};

// Whether no rule before place i has the name.
fn is_new(items: &StatedItems, i: u64, name: &Name) -> bool
    ensures { Good (take i items.now.items) → result ≡
        is_new_among (declared_by (take i items.now.items)).names name.now }
{
    match items.name_place(name) {
        Some(place) => i <= place,
        None => true,
    }
}

// Whether each number is that of a metavariable before place i.
fn are_metavariables(items: &StatedItems, i: u64, ms: &[u64]) -> bool
    ensures { result ≡ list_all (λ m. is_some (nth (metavariables_in (take i items.now.items)) m))
        ms.now }
{
    for k in 0..ms.len() {
        let m = ms[k];
        if metavariable_before(items, i, m).is_none() {
            return false;
        }
    }
    true
}

// What the boundary of a metavariable rests on.
fn boundary_rests_on(items: &StatedItems, i: u64, m: u64) -> Option<&Assume>
    ensures { unwrap_or (option_map (λ S. S.now) result) [] ≡
        boundary_set (take i items.now.items) m }
{
    let p = metavariable_before(items, i, m)?;
    let entry = entry_before(items, i, p)?;
    Some(entry.set())
}

// Whether the boundary of a metavariable rests on some metavariables alone.
fn rests_on(items: &StatedItems, i: u64, m: u64, earlier: &[u64]) -> bool
    ensures { result ≡ within (boundary_set (take i items.now.items) m) (map met earlier.now) }
{
    match boundary_rests_on(items, i, m) {
        None => true,
        Some(set) => is_within(set, earlier),
    }
}

// Whether the boundary of each metavariable rests on earlier ones of the list alone.
fn rest_on_earlier(items: &StatedItems, i: u64, ms: &[u64]) -> bool
    ensures { result ≡ all_rest_on_earlier (boundary_set (take i items.now.items)) [] ms.now }
{
    for k in 0..ms.len() {
        let m = ms[k];
        if !rests_on(items, i, m, &ms[..k]) {
            return false;
        }
    }
    true
}

// Whether the metavariables differ and the entry is a plain boundary.
fn is_of_kind(ms: &[u64], found: Entry<'_>) -> bool
    ensures { (ts : List Expression) → result ≡ (all_differ (map met ms.now)
        && not (is_thesis (entry_in ts found.entry).statement)
        && is_plain (entry_in ts found.entry).statement) }
{
    differ(ms) && !found.is_thesis() && found.is_plain()
}

// Whether the rule rests on its metavariables alone.
fn is_tight(items: &StatedItems, i: u64, ms: &[u64], found: Entry<'_>) -> bool
    ensures { (ts : List Expression) → result ≡ (all_rest_on_earlier
        (boundary_set (take i items.now.items)) [] ms.now
        && within (entry_in ts found.entry).set (map met ms.now)) }
{
    rest_on_earlier(items, i, ms) && is_within(found.set(), ms)
}

// The reason against an entry as the conclusion's boundary of a rule with these metavariables.
fn against_conclusion(items: &StatedItems, i: u64, ms: &[u64], found: Entry<'_>) -> Option<Reject>
    ensures { (ts : List Expression) (ds : List (ℕ × Declared)) → Good (take i items.now.items)
        → each (metavariable_named (declared_by (take i items.now.items))) ms.now ≡ Some ds
        → option_map reason_of result ≡ reason_of_rule (Some ds) (Some (entry_in ts found.entry)) }
{
    if !is_of_kind(ms, found) {
        Some(Reject::Kind)
    } else if is_tight(items, i, ms, found) {
        None
    } else {
        Some(Reject::Loose)
    }
}

/// The first reason against a rule of this name, with these metavariables and the conclusion's boundary of entry `p`, after the
/// items before place `i`, or None where there is none. It takes no memory.
pub fn check_rule(items: &StatedItems, i: u64, name: &Name, ms: &Numbers, p: u64) -> Option<Reject>
    ensures { IsReason (take i items.now.items) (rule name.now ms.now p) result }
{
    if !is_new(items, i, name) {
        return Some(Reject::Name);
    }
    if has_rule_before(items, i, MAX_RULES - 1) {
        return Some(Reject::Many);
    }
    if !are_metavariables(items, i, ms.items()) {
        return Some(Reject::Reference);
    }
    match entry_before(items, i, p) {
        None => Some(Reject::Reference),
        Some(found) => against_conclusion(items, i, ms.items(), found),
    }
}
