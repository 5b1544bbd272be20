//! The boundary of a rule after arguments for its first premises.

ghost use Rattle.std.specs.Prelude.{◌≡◌, ◌&&◌, ℕ, zero, List, Some, false, length, take, IfOk};
ghost use Rattle.ft_theory.specs.Expressions.{Expression, instantiate};
ghost use Rattle.ft_theory.specs.Rules.{Rule};
ghost use Rattle.ft_theory.specs.Statements.{map_statement};
ghost use Rattle.ft_items.specs.Item.{Stated as StatedNumbers};
ghost use Rattle.ft_items.specs.Sets.{unions};
ghost use Rattle.ft_items.specs.Equal.{equal_statements, is_thesis};
ghost use Rattle.ft_items.specs.Store.{Assertion, rule_named, declared_by};
ghost use Rattle.ft_items.specs.Rows.{boundary_instance, sets, statements};
ghost use Rattle.ft_items.specs.Good.{Good};
ghost use Rattle.ft_syntax.specs.Instances.{instance_in};
ghost use Rattle.ft_judge.specs.Meaning.{boundary_in, BoundaryBelow};
ghost use Rattle.ft_check.specs.Arguing.{AreTheses, IsAfter, Judges};
ghost use Rattle.ft_check.specs.Comparing.{all_same, ComparedBelow};
ghost use Rattle.ft_check.specs.Entries.{entry_in, EntryBelow};
ghost use Rattle.ft_check.specs.Putting.{IsPutIn};

use crate::after::{After, rule_after};
use crate::arguing::put_arguments;
use crate::compare::{Compared, push_domains, push_goal};
use crate::entry::Entry;
use crate::instances::Put;
use crate::reject::Reject;
use crate::result::{against_result, is_same_set};
use crate::rules_at::union_of;
use ft_base::Memory;
use ft_judge::Boundary;
use ft_stated::{Numbers, StatedItems};
use ft_syntax::Terms;
use std::alloc::Global;

// Adds what has to be the same for a boundary to be an instance of the other, or answers false where it is none.
fn push_instance(
    list: &mut Vec<Compared>,
    found: &Boundary,
    wanted: &Boundary,
) -> Result<bool, Memory>
    ensures same { (ts : List Expression) (j : Expression → Expression)
        → IfOk result (λ yes. (yes && all_same ts j list.new.items)
        ≡ (all_same ts j list.old.items
        && equal_statements (boundary_in ts found.now)
        (map_statement (λ k. j) zero (boundary_in ts wanted.now)))) }
    ensures below { (n : ℕ) → ComparedBelow n list.old.items
        → BoundaryBelow n found.now → BoundaryBelow n wanted.now
        → IfOk result (λ yes. ComparedBelow n list.new.items) }
{
    let first = found.domains.items();
    let second = wanted.domains.items();
    if first.len() != second.len() {
        return Ok(false);
    }
    push_domains(list, first, second)?;
    push_goal(list, &found.goal, &wanted.goal)
}

// The same of entries, which are boundaries.
fn push_bound(list: &mut Vec<Compared>, found: Entry<'_>, wanted: Entry<'_>) -> Result<bool, Memory>
    ensures same { (ts : List Expression) (j : Expression → Expression)
        → is_thesis (entry_in ts found.entry).statement ≡ false
        → is_thesis (entry_in ts wanted.entry).statement ≡ false
        → IfOk result (λ yes. (yes && all_same ts j list.new.items)
        ≡ (all_same ts j list.old.items
        && equal_statements (entry_in ts found.entry).statement
        (map_statement (λ k. j) zero (entry_in ts wanted.entry).statement))) }
    ensures below { (n : ℕ) → ComparedBelow n list.old.items
        → EntryBelow n found.entry → EntryBelow n wanted.entry
        → IfOk result (λ yes. ComparedBelow n list.new.items) }
{
    match found {
        Entry::Thesis(..) => Ok(false),
        Entry::Boundary(f, _) => match wanted {
            Entry::Thesis(..) => Ok(false),
            Entry::Boundary(w, _) => push_instance(list, f, w),
        },
    }
}

// Whether a boundary is the instance of another.
fn is_bound(
    alloc: Global,
    put: &mut Put,
    terms: &Terms,
    found: Entry<'_>,
    wanted: Entry<'_>,
) -> Result<bool, Memory>
    requires found { EntryBelow (length terms.now) found }
    requires wanted { EntryBelow (length terms.now) wanted }
    requires below { IsPutIn put.old }
    ensures { is_thesis (entry_in terms.now found.entry).statement ≡ false
        → is_thesis (entry_in terms.now wanted.entry).statement ≡ false
        → IfOk result (λ yes. yes ≡ equal_statements (entry_in terms.now found.entry).statement
        (map_statement (λ k. instantiate (instance_in put.old.terms put.old.instance.pairs)) zero
        (entry_in terms.now wanted.entry).statement)) }
{
    let mut list = Vec::new(alloc);
    if !push_bound(&mut list, found, wanted)? {
        return Ok(false);
    }
    put.are_instances(terms, &list)
}

// The reason against a boundary as that of a rule after arguments for its first premises.
fn check_next(
    alloc: Global,
    items: &StatedItems,
    i: u64,
    found: Entry<'_>,
    after: &After<'_>,
    ps: &[u64],
) -> Result<Option<Reject>, Memory>
    requires found { EntryBelow (length items.now.trees) found }
    requires boundary { EntryBelow (length items.now.trees) after.now.boundary }
    ensures { (R : Rule) (xs : List Assertion) (t : StatedNumbers)
        → IsAfter items.now.trees (take i items.now.items) after.now R (length ps.now)
        → AreTheses (take i items.now.items) ps.now xs
        → is_thesis (entry_in items.now.trees found.entry).statement ≡ false
        → IfOk result (λ x. Judges (entry_in items.now.trees found.entry) t
        (boundary_instance R (statements xs)) (unions (sets xs)) x) }
{
    let Some(mut put) = put_arguments(alloc, items, i, after.metavariables, ps)? else {
        return Ok(Some(Reject::Premise));
    };
    let is_concluded = is_bound(alloc, &mut put, items.terms(), found, after.boundary)?;
    let whole = union_of(alloc, items, i, ps)?;
    let stated = found.set();
    Ok(against_result(is_concluded, is_same_set(&whole, stated)))
}

/// The reason against a boundary as that of the rule `r` after arguments for its first premises.
pub fn check_inst(
    alloc: Global,
    items: &StatedItems,
    i: u64,
    found: Entry<'_>,
    r: u64,
    ps: &Numbers,
) -> Result<Option<Reject>, Memory>
    requires { EntryBelow (length items.now.trees) found }
    ensures { (R : ℕ × Rule) (xs : List Assertion) (t : StatedNumbers)
        → Good (take i items.now.items)
        → rule_named (declared_by (take i items.now.items)) r ≡ Some R
        → AreTheses (take i items.now.items) ps.now xs
        → is_thesis (entry_in items.now.trees found.entry).statement ≡ false
        → IfOk result (λ x. Judges (entry_in items.now.trees found.entry) t
        (boundary_instance R.1 (statements xs)) (unions (sets xs)) x) }
{
    let numbers = ps.items();
    match rule_after(items, i, r, numbers.len()) {
        None => Ok(Some(Reject::Premise)),
        Some(after) => check_next(alloc, items, i, found, &after, numbers),
    }
}
