//! Rules at arguments.

ghost use Rattle.std.specs.Prelude.{◌≡◌, ℕ, List, Some, true, false, take, option_map, length, IfOk, IfSome};
ghost use Rattle.ft_theory.specs.Rules.{Rule};
ghost use Rattle.ft_judge.specs.Meaning.{GoalBelow};
ghost use Rattle.ft_items.specs.Item.{Stated as StatedNumbers};
ghost use Rattle.ft_items.specs.Sets.{union, unions};
ghost use Rattle.ft_items.specs.Equal.{is_thesis};
ghost use Rattle.ft_items.specs.Store.{Assertion, each, entry_named, rule_named, store_of, declared_by};
ghost use Rattle.ft_items.specs.Rows.{rule_instance, rule_instance_with, sets, statements};
ghost use Rattle.ft_items.specs.Good.{Good, all_theses, reason_of_result};
ghost use Rattle.ft_check.specs.Applying.{IsRule};
ghost use Rattle.ft_check.specs.Entries.{entry_in, EntryBelow, with_step};
ghost use Rattle.ft_check.specs.Rejects.{reason_of};

use crate::applied::{RuleAt, rule_at_hand};
use crate::concluding::check_conclusion;
use crate::entry::{Entry, entry_before};
use crate::fitting::{push_boundary, push_premises};
use crate::instances::put_heads;
use crate::reject::Reject;
use ft_assume::Assume;
use ft_base::Memory;
use ft_stated::{Numbers, StatedItems};
use std::alloc::Global;

/// The sets of these entries, together.
pub fn union_of(alloc: Global, items: &StatedItems, i: u64, ps: &[u64]) -> Result<Assume, Memory>
    ensures { (given : List Assertion) → each (entry_named (store_of (take i items.now.items)))
        ps.now ≡ Some given → IfOk result (λ S. S ≡ unions (sets given)) }
{
    let mut set = Assume::new(alloc);
    let mut k = ps.len();
    while k > 0 {
        k -= 1;
        match entry_before(items, i, ps[k]) {
            None => {}
            Some(found) => set = found.set().union(&set)?,
        }
    }
    Ok(set)
}

// The reason against an entry as the conclusion of the rule at hand at arguments.
fn check_at(
    alloc: Global,
    items: &StatedItems,
    i: u64,
    found: Entry<'_>,
    rule: &RuleAt<'_>,
    ps: &[u64],
) -> Result<Option<Reject>, Memory>
    requires found { EntryBelow (length items.now.trees) found }
    requires goal { GoalBelow (length items.now.trees) rule.now.goal }
    ensures { (R : ℕ × Rule) (given : List Assertion) (t : StatedNumbers)
        → Good (take i items.now.items) → IsRule items.now.trees
        (declared_by (take i items.now.items)) rule.now R
        → each (entry_named (store_of (take i items.now.items))) ps.now ≡ Some given
        → all_theses given ≡ true → IfOk result (λ x. option_map reason_of x ≡
        reason_of_result (rule_instance R.0 R.1 (statements given)) (unions (sets given))
        (with_step (entry_in items.now.trees found.entry) t)) }
{
    let mut list = Vec::new(alloc);
    if !push_premises(&mut list, items, i, rule.metavariables, ps)? {
        return Ok(Some(Reject::Premise));
    }
    let set = union_of(alloc, items, i, ps)?;
    let mut put = put_heads(alloc, items, i, rule.metavariables, ps)?;
    check_conclusion(alloc, &mut put, items.terms(), &list, found, rule, &set)
}

/// The reason against an entry as the conclusion of the rule `r` at arguments.
pub fn check_applied(
    alloc: Global,
    items: &StatedItems,
    i: u64,
    found: Entry<'_>,
    r: u64,
    ps: &Numbers,
) -> Result<Option<Reject>, Memory>
    requires { EntryBelow (length items.now.trees) found }
    ensures { (R : ℕ × Rule) (given : List Assertion) (t : StatedNumbers)
        → Good (take i items.now.items) → rule_named (declared_by (take i items.now.items)) r ≡
        Some R → each (entry_named (store_of (take i items.now.items))) ps.now ≡ Some given
        → all_theses given ≡ true → IfOk result (λ x. option_map reason_of x ≡
        reason_of_result (rule_instance R.0 R.1 (statements given)) (unions (sets given))
        (with_step (entry_in items.now.trees found.entry) t)) }
{
    match rule_at_hand(items, i, r) {
        None => Ok(Some(Reject::Premise)),
        Some(rule) => check_at(alloc, items, i, found, &rule, ps.items()),
    }
}

// The same, where the boundary of the conclusion is the entry `bound`.
fn check_at_with(
    alloc: Global,
    items: &StatedItems,
    i: u64,
    found: Entry<'_>,
    rule: &RuleAt<'_>,
    bound: Entry<'_>,
    ps: &[u64],
) -> Result<Option<Reject>, Memory>
    requires found { EntryBelow (length items.now.trees) found }
    requires goal { GoalBelow (length items.now.trees) rule.now.goal }
    requires bound { EntryBelow (length items.now.trees) bound }
    ensures { (R : ℕ × Rule) (given : List Assertion) (t : StatedNumbers)
        → Good (take i items.now.items) → IsRule items.now.trees
        (declared_by (take i items.now.items)) rule.now R
        → is_thesis (entry_in items.now.trees bound.entry).statement ≡ false
        → each (entry_named (store_of (take i items.now.items))) ps.now ≡ Some given
        → all_theses given ≡ true → IfOk result (λ x. option_map reason_of x ≡
        reason_of_result (rule_instance_with R.0 R.1
        (entry_in items.now.trees bound.entry).statement (statements given))
        (union (entry_in items.now.trees bound.entry).set (unions (sets given)))
        (with_step (entry_in items.now.trees found.entry) t)) }
{
    let mut list = Vec::new(alloc);
    if !push_premises(&mut list, items, i, rule.metavariables, ps)? {
        return Ok(Some(Reject::Premise));
    }
    if !push_boundary(&mut list, bound, &rule.goal)? {
        return Ok(Some(Reject::Premise));
    }
    let arguments = union_of(alloc, items, i, ps)?;
    let set = bound.set().union(&arguments)?;
    let mut put = put_heads(alloc, items, i, rule.metavariables, ps)?;
    check_conclusion(alloc, &mut put, items.terms(), &list, found, rule, &set)
}

/// The reason against an entry as the conclusion of the rule `r` at arguments, where the boundary of the conclusion is entry `b`.
pub fn check_applied_with(
    alloc: Global,
    items: &StatedItems,
    i: u64,
    found: Entry<'_>,
    r: u64,
    b: u64,
    ps: &Numbers,
) -> Result<Option<Reject>, Memory>
    requires { EntryBelow (length items.now.trees) found }
    ensures { (R : ℕ × Rule) (a : Assertion) (given : List Assertion) (t : StatedNumbers)
        → Good (take i items.now.items) → rule_named (declared_by (take i items.now.items)) r ≡
        Some R → entry_named (store_of (take i items.now.items)) b ≡ Some a
        → is_thesis a.statement ≡ false → each (entry_named (store_of (take i items.now.items)))
        ps.now ≡ Some given → all_theses given ≡ true
        → IfOk result (λ x. option_map reason_of x ≡
        reason_of_result (rule_instance_with R.0 R.1 a.statement (statements given))
        (union a.set (unions (sets given))) (with_step (entry_in items.now.trees found.entry) t)) }
{
    let Some(bound) = entry_before(items, i, b) else {
        return Ok(Some(Reject::Premise));
    };
    let Some(rule) = rule_at_hand(items, i, r) else {
        return Ok(Some(Reject::Premise));
    };
    check_at_with(alloc, items, i, found, &rule, bound, ps.items())
}
