//! Whether theses are arguments for the premises of a rule.

ghost use Rattle.std.specs.Prelude.{◌≡◌, ◌&&◌, ℕ, zero, List, Some, true, false, length, option_map, take, IfOk, IfSome};
ghost use Rattle.ft_theory.specs.Expressions.{Expression};
ghost use Rattle.ft_theory.specs.Statements.{map_claim, map_statement, plain};
ghost use Rattle.ft_items.specs.Equal.{equal_claims, equal_statements, fit_all, fits, is_thesis};
ghost use Rattle.ft_items.specs.Store.{Assertion, Declared, each, entry_named, metavariable_named, nth, premises_of, store_of, declared_by};
ghost use Rattle.ft_items.specs.Rows.{statements};
ghost use Rattle.ft_items.specs.Good.{Good, all_theses};
ghost use Rattle.ft_judge.specs.Meaning.{boundary_in, goal_in, BoundaryBelow, GoalBelow};
ghost use Rattle.ft_check.specs.Comparing.{all_same, ComparedBelow};
ghost use Rattle.ft_check.specs.Entries.{entry_in, EntryBelow};

use crate::compare::{Compared, push_goal, push_thesis};
use crate::entry::{Entry, entry_before, metavariable_before};
use crate::entry_contents::is_empty;
use ft_base::Memory;
use ft_judge::{Boundary, Goal};
use ft_stated::StatedItems;

/// The boundary of the metavariable of a number.
pub fn boundary_named(items: &StatedItems, i: u64, m: u64) -> Option<Entry<'_>>
    ensures entry { (d : Declared) → Good (take i items.now.items)
        → nth (declared_by (take i items.now.items)).metavariables m ≡ Some d
        → option_map (λ e. (entry_in items.now.trees e).statement) result ≡ Some d.boundary }
    ensures below { IfSome result (λ e. EntryBelow (length items.now.trees) e) }
{
    match metavariable_before(items, i, m) {
        None => None,
        Some(p) => entry_before(items, i, p),
    }
}

/// Adds what has to be the same for a thesis to fit an instance of a boundary, or answers false where it fits none.
pub fn push_entry(
    list: &mut Vec<Compared>,
    found: Entry<'_>,
    wanted: Entry<'_>,
) -> Result<bool, Memory>
    ensures same { (ts : List Expression) (j : Expression → Expression)
        → is_thesis (entry_in ts found.entry).statement ≡ true
        → is_thesis (entry_in ts wanted.entry).statement ≡ false
        → IfOk result (λ yes. (yes && all_same ts j list.new.items) ≡
        (all_same ts j list.old.items && fits (entry_in ts found.entry).statement
        (map_statement (λ k. j) zero (entry_in ts wanted.entry).statement))) }
    ensures below { (n : ℕ) → ComparedBelow n list.old.items → EntryBelow n found.entry
        → EntryBelow n wanted.entry → IfOk result (λ yes. ComparedBelow n list.new.items) }
{
    match found {
        Entry::Boundary(..) => Ok(false),
        Entry::Thesis(x, _) => match wanted {
            Entry::Thesis(..) => Ok(false),
            Entry::Boundary(b, _) => push_thesis(list, x, b),
        },
    }
}

// Adds what has to be the same for an entry to be an argument for the metavariable, or answers false where it is none.
fn push_premise(
    list: &mut Vec<Compared>,
    items: &StatedItems,
    i: u64,
    m: u64,
    p: u64,
) -> Result<bool, Memory>
    ensures same { (d : ℕ × Declared) (a : Assertion) (j : Expression → Expression)
        → Good (take i items.now.items) → metavariable_named (declared_by (take i items.now.items))
        m ≡ Some d → entry_named (store_of (take i items.now.items)) p ≡ Some a
        → is_thesis a.statement ≡ true → IfOk result
        (λ yes. (yes && all_same items.now.trees j list.new.items) ≡
        (all_same items.now.trees j list.old.items
        && fits a.statement (map_statement (λ k. j) zero d.1.boundary))) }
    ensures below { ComparedBelow (length items.now.trees) list.old.items
        → IfOk result (λ yes. ComparedBelow (length items.now.trees) list.new.items) }
{
    match entry_before(items, i, p) {
        None => Ok(false),
        Some(found) => match boundary_named(items, i, m) {
            None => Ok(false),
            Some(wanted) => push_entry(list, found, wanted),
        },
    }
}

// Adds what has to be the same for as many entries to be arguments for the metavariables, or answers false where they are none.
fn push_each(
    list: &mut Vec<Compared>,
    items: &StatedItems,
    i: u64,
    ms: &[u64],
    ps: &[u64],
) -> Result<bool, Memory>
    requires { length ms.now ≡ length ps.now }
    ensures same { (ds : List (ℕ × Declared)) (given : List Assertion) (j : Expression → Expression)
        → Good (take i items.now.items) → each (metavariable_named
        (declared_by (take i items.now.items))) ms.now ≡ Some ds
        → each (entry_named (store_of (take i items.now.items))) ps.now ≡ Some given
        → all_theses given ≡ true → IfOk result (λ yes.
        (yes && all_same items.now.trees j list.new.items) ≡
        (all_same items.now.trees j list.old.items
        && fit_all (map_statement (λ k. j) zero) (premises_of ds) (statements given))) }
    ensures below { ComparedBelow (length items.now.trees) list.old.items
        → IfOk result (λ yes. ComparedBelow (length items.now.trees) list.new.items) }
{
    for k in 0..ms.len() {
        if !push_premise(list, items, i, ms[k], ps[k])? {
            return Ok(false);
        }
    }
    Ok(true)
}

/// Adds what has to be the same for entries to be arguments for the metavariables, or answers false where they are none.
pub fn push_premises(
    list: &mut Vec<Compared>,
    items: &StatedItems,
    i: u64,
    ms: &[u64],
    ps: &[u64],
) -> Result<bool, Memory>
    ensures same { (ds : List (ℕ × Declared)) (given : List Assertion) (j : Expression → Expression)
        → Good (take i items.now.items) → each (metavariable_named
        (declared_by (take i items.now.items))) ms.now ≡ Some ds
        → each (entry_named (store_of (take i items.now.items))) ps.now ≡ Some given
        → all_theses given ≡ true → IfOk result (λ yes.
        (yes && all_same items.now.trees j list.new.items) ≡
        (all_same items.now.trees j list.old.items
        && fit_all (map_statement (λ k. j) zero) (premises_of ds) (statements given))) }
    ensures below { ComparedBelow (length items.now.trees) list.old.items
        → IfOk result (λ yes. ComparedBelow (length items.now.trees) list.new.items) }
{
    if ms.len() != ps.len() {
        return Ok(false);
    }
    push_each(list, items, i, ms, ps)
}

// Adds what has to be the same for a boundary to be an instance of the plain goal, or answers false where it is none.
fn push_plain(list: &mut Vec<Compared>, found: &Boundary, wanted: &Goal) -> Result<bool, Memory>
    ensures same { (ts : List Expression) (j : Expression → Expression)
        → IfOk result (λ yes. (yes && all_same ts j list.new.items) ≡
        (all_same ts j list.old.items && equal_statements (boundary_in ts found.now)
        (plain (map_claim j (goal_in ts wanted.now))))) }
    ensures below { (n : ℕ) → ComparedBelow n list.old.items → BoundaryBelow n found.now
        → GoalBelow n wanted.now → IfOk result (λ yes. ComparedBelow n list.new.items) }
{
    if is_empty(&found.domains) {
        push_goal(list, &found.goal, wanted)
    } else {
        Ok(false)
    }
}

/// Adds what has to be the same for a boundary to be an instance of the plain goal, or answers false where it is none.
pub fn push_boundary(
    list: &mut Vec<Compared>,
    found: Entry<'_>,
    wanted: &Goal,
) -> Result<bool, Memory>
    ensures same { (ts : List Expression) (j : Expression → Expression)
        → is_thesis (entry_in ts found.entry).statement ≡ false
        → IfOk result (λ yes. (yes && all_same ts j list.new.items) ≡
        (all_same ts j list.old.items && equal_statements (entry_in ts found.entry).statement
        (plain (map_claim j (goal_in ts wanted.now))))) }
    ensures below { (n : ℕ) → ComparedBelow n list.old.items → EntryBelow n found.entry
        → GoalBelow n wanted.now → IfOk result (λ yes. ComparedBelow n list.new.items) }
{
    match found {
        Entry::Thesis(..) => Ok(false),
        Entry::Boundary(b, _) => push_plain(list, b, wanted),
    }
}
