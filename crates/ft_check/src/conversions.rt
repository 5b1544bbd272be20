//! An argument for the next premise of a rule, moved along equations.

ghost use Rattle.std.specs.Prelude.{◌≡◌, ◌<◌, ◌&&◌, ℕ, zero, List, Some, true, false, length, option_map, take, IfOk, IfSome};
ghost use Rattle.ft_theory.specs.Expressions.{Expression, instantiate};
ghost use Rattle.ft_theory.specs.Rules.{Rule};
ghost use Rattle.ft_theory.specs.Statements.{fill, map_statement};
ghost use Rattle.ft_items.specs.Item.{Stated as StatedNumbers};
ghost use Rattle.ft_items.specs.Sets.{union, unions};
ghost use Rattle.ft_items.specs.Equal.{equal_statements, fits, head, is_thesis};
ghost use Rattle.ft_items.specs.Store.{Assertion, entry_named, rule_named, store_of, declared_by};
ghost use Rattle.ft_items.specs.Rows.{sets, statements};
ghost use Rattle.ft_items.specs.Good.{Good};
ghost use Rattle.ft_syntax.specs.Instances.{instance_in};
ghost use Rattle.ft_syntax.specs.Table.{tree};
ghost use Rattle.ft_judge.specs.Meaning.{head_of_statement};
ghost use Rattle.ft_check.specs.Arguing.{AreTheses, IsAfter, Judges};
ghost use Rattle.ft_check.specs.Entries.{entry_in, EntryBelow};
ghost use Rattle.ft_check.specs.Equations.{converted, directed as directed_sides, same_head};
ghost use Rattle.ft_check.specs.Putting.{IsPutIn};

use crate::after::{After, rule_after};
use crate::congruences::union_of_two;
use crate::entry::{Entry, entry_before};
use crate::fitting::push_entry;
use crate::instances::Put;
use crate::reject::Reject;
use crate::result::{against_result, is_same_set};
use crate::rules_at::union_of;
use crate::sides::{Sides, sides_of};
use ft_assume::Assume;
use ft_base::Memory;
use ft_judge::head_of;
use ft_stated::{Numbers, StatedItems};
use ft_syntax::{E, Terms};
use std::alloc::Global;

/// Which way an argument is moved: from the arguments before it to the right sides of the equations, or back.
#[derive(Clone, Copy, Debug, PartialEq, Eq)]
pub enum Way {
    Forth,
    Back,
}

// The sides in the order of the way: from the first to the second.
fn directed(way: Way, sides: Sides) -> Sides
    ensures { result ≡ directed_sides way sides }
{
    match way {
        Way::Forth => sides,
        Way::Back => Sides {
            left: sides.right,
            right: sides.left,
        },
    }
}

/// Whether a thesis fits the instance of a boundary.
pub fn fits_at(
    alloc: Global,
    put: &mut Put,
    terms: &Terms,
    found: Entry<'_>,
    wanted: Entry<'_>,
) -> Result<bool, Memory>
    requires found { EntryBelow (length terms.now) found }
    requires wanted { EntryBelow (length terms.now) wanted }
    requires below { IsPutIn put.old }
    ensures { is_thesis (entry_in terms.now found.entry).statement ≡ true
        → is_thesis (entry_in terms.now wanted.entry).statement ≡ false
        → IfOk result (λ yes. yes ≡ fits (entry_in terms.now found.entry).statement
        (map_statement (λ k. instantiate (instance_in put.old.terms put.old.instance.pairs)) zero
        (entry_in terms.now wanted.entry).statement)) }
{
    let mut list = Vec::new(alloc);
    if !push_entry(&mut list, found, wanted)? {
        return Ok(false);
    }
    put.are_instances(terms, &list)
}

/// The head of a thesis that has one.
#[tactic(auto, using(crate::proofs::HeadsPut::head_below, crate::proofs::Moved::body_some))]
pub fn head_in(x: Entry<'_>) -> Option<E>
    ensures is { (ts : List Expression)
        → option_map (tree ts) result
        ≡ head_of_statement (entry_in ts x.entry).statement }
    ensures below { (n : ℕ) → EntryBelow n x.entry
        → IfSome result (λ e. e < n) }
{
    match x {
        Entry::Boundary(..) => None,
        Entry::Thesis(t, _) => head_of(t).body,
    }
}

// Whether the second thesis has a head where the first has one, and it is the same.
#[tactic(auto, using(crate::proofs::Moved::no_first, crate::proofs::Moved::no_second, crate::proofs::Moved::both_heads))]
fn has_same_head(terms: &Terms, x: Entry<'_>, y: Entry<'_>) -> bool
    requires x { EntryBelow (length terms.now) x }
    requires y { EntryBelow (length terms.now) y }
    ensures { result ≡ same_head (head_of_statement (entry_in terms.now x.entry).statement)
        (head_of_statement (entry_in terms.now y.entry).statement) }
{
    let Some(a) = head_in(x) else {
        return true;
    };
    let Some(b) = head_in(y) else {
        return false;
    };
    terms.equal_expr(a, b)
}

// Whether a thesis is the instance of a boundary, filled with the head of another.
fn is_refilled(
    alloc: Global,
    put: &mut Put,
    terms: &Terms,
    found: Entry<'_>,
    wanted: Entry<'_>,
    moved: Entry<'_>,
) -> Result<bool, Memory>
    requires found { EntryBelow (length terms.now) found }
    requires wanted { EntryBelow (length terms.now) wanted }
    requires moved { EntryBelow (length terms.now) moved }
    requires below { IsPutIn put.old }
    ensures { is_thesis (entry_in terms.now found.entry).statement ≡ true
        → is_thesis (entry_in terms.now wanted.entry).statement ≡ false
        → IfOk result (λ yes. yes ≡ (fits (entry_in terms.now found.entry).statement
        (map_statement (λ k. instantiate (instance_in put.old.terms put.old.instance.pairs)) zero
        (entry_in terms.now wanted.entry).statement)
        && same_head (head_of_statement (entry_in terms.now found.entry).statement)
        (head_of_statement (entry_in terms.now moved.entry).statement))) }
{
    if !fits_at(alloc, put, terms, found, wanted)? {
        return Ok(false);
    }
    Ok(has_same_head(terms, found, moved))
}

// The sets of the arguments, of the equations and of what is moved, together.
fn union_moved(
    alloc: Global,
    items: &StatedItems,
    i: u64,
    ps: &[u64],
    es: &[u64],
    moved: Entry<'_>,
) -> Result<Assume, Memory>
    ensures { (xs ys : List Assertion) → AreTheses (take i items.now.items) ps.now xs
        → AreTheses (take i items.now.items) es.now ys
        → IfOk result (λ S. S ≡ union (unions (sets xs))
        (union (unions (sets ys)) (entry_in items.now.trees moved.entry).set)) }
{
    let first = union_of(alloc, items, i, ps)?;
    let second = union_of(alloc, items, i, es)?;
    let later = second.union(moved.set())?;
    first.union(&later)
}

// The reason against a thesis as an argument for the premise that comes next, moved.
fn check_moved(
    alloc: Global,
    items: &StatedItems,
    i: u64,
    found: Entry<'_>,
    way: Way,
    after: &After<'_>,
    ps: &[u64],
    es: &[u64],
    moved: Entry<'_>,
) -> Result<Option<Reject>, Memory>
    requires found { EntryBelow (length items.now.trees) found }
    requires boundary { EntryBelow (length items.now.trees) after.now.boundary }
    requires moved { EntryBelow (length items.now.trees) moved }
    ensures { (R : Rule) (xs ys : List Assertion) (t : StatedNumbers)
        → IsAfter items.now.trees (take i items.now.items) after.now R (length ps.now)
        → after.now.is_premise ≡ true
        → AreTheses (take i items.now.items) ps.now xs
        → AreTheses (take i items.now.items) es.now ys
        → is_thesis (entry_in items.now.trees moved.entry).statement ≡ true
        → is_thesis (entry_in items.now.trees found.entry).statement ≡ true
        → IfOk result (λ x. Judges (entry_in items.now.trees found.entry) t
        (converted way R (statements xs) (statements ys)
        (entry_in items.now.trees moved.entry).statement)
        (union (unions (sets xs)) (union (unions (sets ys))
        (entry_in items.now.trees moved.entry).set)) x) }
{
    let Some(sides) = sides_of(alloc, items, i, after.metavariables, ps, es)? else {
        return Ok(Some(Reject::Premise));
    };
    let mut between = directed(way, sides);
    if !fits_at(
        alloc,
        &mut between.left,
        items.terms(),
        moved,
        after.boundary,
    )? {
        return Ok(Some(Reject::Premise));
    }
    let is_concluded = is_refilled(
        alloc,
        &mut between.right,
        items.terms(),
        found,
        after.boundary,
        moved,
    )?;
    let whole = union_moved(alloc, items, i, ps, es, moved)?;
    let stated = found.set();
    Ok(against_result(is_concluded, is_same_set(&whole, stated)))
}

/// The reason against a thesis as entry `q`, an argument for the premise of the rule `r` after those before it, moved that way
/// between these and the right sides of equations.
pub fn check_conv(
    alloc: Global,
    items: &StatedItems,
    i: u64,
    found: Entry<'_>,
    way: Way,
    r: u64,
    ps: &Numbers,
    es: &Numbers,
    q: u64,
) -> Result<Option<Reject>, Memory>
    requires { EntryBelow (length items.now.trees) found }
    ensures { (R : ℕ × Rule) (xs ys : List Assertion) (a : Assertion) (t : StatedNumbers)
        → Good (take i items.now.items)
        → rule_named (declared_by (take i items.now.items)) r ≡ Some R
        → AreTheses (take i items.now.items) ps.now xs
        → AreTheses (take i items.now.items) es.now ys
        → entry_named (store_of (take i items.now.items)) q ≡ Some a
        → is_thesis a.statement ≡ true
        → is_thesis (entry_in items.now.trees found.entry).statement ≡ true
        → IfOk result (λ x. Judges (entry_in items.now.trees found.entry) t
        (converted way R.1 (statements xs) (statements ys) a.statement)
        (union (unions (sets xs)) (union (unions (sets ys)) a.set)) x) }
{
    let numbers = ps.items();
    let Some(after) = rule_after(items, i, r, numbers.len()) else {
        return Ok(Some(Reject::Premise));
    };
    if !after.is_premise {
        return Ok(Some(Reject::Premise));
    }
    let Some(moved) = entry_before(items, i, q) else {
        return Ok(Some(Reject::Premise));
    };
    check_moved(
        alloc,
        items,
        i,
        found,
        way,
        &after,
        numbers,
        es.items(),
        moved,
    )
}
