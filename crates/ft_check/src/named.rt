//! Whether the numbers in a step name what is there, and of which kind it is.

ghost use Rattle.std.specs.Prelude.{◌≡◌, take};
ghost use Rattle.ft_items.specs.Store.{store_of, declared_by};
ghost use Rattle.ft_items.specs.Good.{Good};
ghost use Rattle.ft_check.specs.Kinds.{thesis_named, boundary_named, kind_named, theses_named, entry_there, variable_there, metavariable_there, rule_there, both as both_tests, also as with_test};

use crate::entry::{entry_before, has_rule_before, metavariable_before};
use crate::variables::lacks_variable;
use ft_stated::{Numbers, StatedItems};

/// Both tests, where all is there.
pub fn both(a: Option<bool>, b: Option<bool>) -> Option<bool>
    ensures { result ≡ both_tests a b }
{
    match a {
        None => None,
        Some(first) => match b {
            None => None,
            Some(second) => Some(first && second),
        },
    }
}

/// The test, where all is there, and one more.
pub fn also(a: Option<bool>, b: bool) -> Option<bool>
    ensures { result ≡ with_test a b }
{
    match a {
        None => None,
        Some(first) => Some(first && b),
    }
}

/// Whether the entry is a thesis.
pub fn is_thesis(items: &StatedItems, i: u64, p: u64) -> Option<bool>
    ensures { result ≡ thesis_named (store_of (take i items.now.items)) p }
{
    match entry_before(items, i, p) {
        None => None,
        Some(found) => Some(found.is_thesis()),
    }
}

/// Whether the entry is a boundary.
pub fn is_boundary(items: &StatedItems, i: u64, p: u64) -> Option<bool>
    ensures { result ≡ boundary_named (store_of (take i items.now.items)) p }
{
    match entry_before(items, i, p) {
        None => None,
        Some(found) => Some(!found.is_thesis()),
    }
}

/// Whether the entry is a thesis where `thesis` is true, and else a boundary.
pub fn is_of_kind(items: &StatedItems, i: u64, p: u64, thesis: bool) -> Option<bool>
    ensures { result ≡ kind_named thesis (store_of (take i items.now.items)) p }
{
    match entry_before(items, i, p) {
        None => None,
        Some(found) => Some(found.is_thesis() == thesis),
    }
}

/// Whether each of the entries is a thesis.
#[tactic(auto, using(crate::proofs::NamedTheses::theses_none, crate::proofs::NamedTheses::theses_next, crate::proofs::NamedTheses::theses_start, crate::proofs::NamedTheses::theses_end))]
pub fn are_theses(items: &StatedItems, i: u64, numbers: &Numbers) -> Option<bool>
    ensures { result ≡ theses_named (store_of (take i items.now.items)) numbers.now }
{
    let ps = numbers.items();
    let mut all = true;
    for k in 0..ps.len() {
        let p = ps[k];
        match is_thesis(items, i, p) {
            None => return None,
            Some(thesis) => all = all && thesis,
        }
    }
    Some(all)
}

/// True, where the entry is there.
pub fn is_entry(items: &StatedItems, i: u64, p: u64) -> Option<bool>
    ensures { result ≡ entry_there (store_of (take i items.now.items)) p }
{
    match entry_before(items, i, p) {
        None => None,
        Some(_) => Some(true),
    }
}

/// True, where the variable is there.
pub fn is_variable(items: &StatedItems, i: u64, v: u64) -> Option<bool>
    ensures { Good (take i items.now.items) → result ≡
        variable_there (declared_by (take i items.now.items)) v }
{
    if lacks_variable(items, i, v) {
        None
    } else {
        Some(true)
    }
}

/// True, where the metavariable is there.
pub fn is_metavariable(items: &StatedItems, i: u64, m: u64) -> Option<bool>
    ensures { Good (take i items.now.items) → result ≡
        metavariable_there (declared_by (take i items.now.items)) m }
{
    match metavariable_before(items, i, m) {
        None => None,
        Some(_) => Some(true),
    }
}

/// True, where the rule is there.
pub fn is_rule(items: &StatedItems, i: u64, r: u64) -> Option<bool>
    ensures { Good (take i items.now.items) → result ≡
        rule_there (declared_by (take i items.now.items)) r }
{
    if has_rule_before(items, i, r) {
        Some(true)
    } else {
        None
    }
}
