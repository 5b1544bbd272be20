//! Variables, abstraction and substitution.

ghost use Rattle.std.specs.Prelude.{◌≡◌, ℕ, List, Some, length, option_map, take, not, IfOk};
ghost use Rattle.ft_theory.specs.Expressions.{Expression, free};
ghost use Rattle.ft_theory.specs.Statements.{Statement, abstracted, close_statement, has_type, plain};
ghost use Rattle.ft_items.specs.Item.{Stated as StatedNumbers};
ghost use Rattle.ft_items.specs.Equal.{equal_statements};
ghost use Rattle.ft_items.specs.Sets.{insert, union, var, without};
ghost use Rattle.ft_items.specs.Store.{Annotation, Assertion, entry_named, store_of, variable_named, declared_by};
ghost use Rattle.ft_items.specs.Rows.{depends as depends_in, when};
ghost use Rattle.ft_items.specs.Good.{Good, reason_of_result};
ghost use Rattle.ft_check.specs.Entries.{entry_in, EntryBelow, with_step};
ghost use Rattle.ft_check.specs.Rejects.{reason_of};
ghost use Rattle.ft_check.specs.Substituting.{put};
ghost use Rattle.ft_steps.specs.Parts.{statement_in, PartsBelow};

use crate::entry::{Entry, entry_before};
use crate::reject::Reject;
use crate::result::{against_result, is_same_set};
use crate::typed::{depends, typed_before};
use ft_assume::{Assume, Atom};
use ft_base::Memory;
use ft_stated::StatedItems;
use ft_steps::{Parts, is_abstracted, is_equally_substituted, is_substituted, is_variable};
use ft_syntax::Terms;
use std::alloc::Global;

/// The reason against an entry with the set, by the test whether it is what is concluded.
#[tactic(auto, using(crate::proofs::Concluded::is_some))]
pub fn against_test(is_concluded: bool, set: &Assume, found: Entry<'_>) -> Option<Reject>
    ensures { (ts : List Expression) (x : Statement) (t : StatedNumbers)
        → is_concluded ≡ equal_statements x (entry_in ts found.entry).statement
        → option_map reason_of result ≡ reason_of_result (Some x) set.now
        (with_step (entry_in ts found.entry) t) }
{
    against_result(is_concluded, is_same_set(set, found.set()))
}

/// The reason against an entry as the variable of a number before place `i`, at its type.
pub fn check_var(
    alloc: Global,
    items: &StatedItems,
    i: u64,
    found: Entry<'_>,
    v: u64,
) -> Result<Option<Reject>, Memory>
    requires { EntryBelow (length items.now.trees) found }
    ensures { (d : ℕ × Annotation) (t : StatedNumbers) → Good (take i items.now.items)
        → variable_named (declared_by (take i items.now.items)) v ≡ Some d
        → IfOk result (λ x. option_map reason_of x ≡
        reason_of_result (Some (plain (has_type (free d.0) d.1.annotation)))
        (insert (var d.0) d.1.set) (with_step (entry_in items.now.trees found.entry) t)) }
{
    let Some(typed) = typed_before(items, i, v) else {
        return Ok(Some(Reject::Reference));
    };
    let set = Assume::single(alloc, Atom::Var(v))?.union(typed.set)?;
    let stated = found.parts();
    let is_concluded = is_variable(items.terms(), v, typed.ty, &stated);
    Ok(against_test(is_concluded, &set, found))
}

/// The reason against an entry as entry `p` with the variable of a number bound, as the variable of a new first domain.
pub fn check_abs(
    alloc: Global,
    items: &StatedItems,
    i: u64,
    found: Entry<'_>,
    v: u64,
    p: u64,
) -> Result<Option<Reject>, Memory>
    requires { EntryBelow (length items.now.trees) found }
    ensures { (d : ℕ × Annotation) (a : Assertion) (t : StatedNumbers)
        → Good (take i items.now.items) → variable_named (declared_by (take i items.now.items)) v ≡
        Some d → entry_named (store_of (take i items.now.items)) p ≡ Some a
        → IfOk result (λ x. option_map reason_of x ≡
        reason_of_result (when (not (depends_in (declared_by (take i items.now.items)).variables d.0
        a.set)) (abstracted d.1.annotation (close_statement d.0 a.statement)))
        (union d.1.set (without (var d.0) a.set)) (with_step (entry_in items.now.trees found.entry)
        t)) }
{
    let Some(typed) = typed_before(items, i, v) else {
        return Ok(Some(Reject::Reference));
    };
    let Some(named) = entry_before(items, i, p) else {
        return Ok(Some(Reject::Reference));
    };
    if depends(items, i, v, named.set()) {
        return Ok(Some(Reject::Premise));
    }
    let others = named.set().without(Atom::Var(v))?;
    let set = typed.set.union(&others)?;
    let first = named.parts();
    let stated = found.parts();
    let is_concluded = is_abstracted(alloc, items.terms(), v, typed.ty, &first, &stated)?;
    Ok(against_test(is_concluded, &set, found))
}

/// What is put for the variable of a first domain: a term, or each side of an equation of terms.
#[derive(Clone, Copy, Debug, PartialEq, Eq)]
pub enum By {
    Term,
    Equation,
}

// Whether what is stated is the first statement with what the second has for the variable of its first domain.
fn is_put(
    alloc: Global,
    terms: &Terms,
    by: By,
    x: &Parts<'_>,
    t: &Parts<'_>,
    y: &Parts<'_>,
) -> Result<Option<bool>, Memory>
    requires x { PartsBelow (length terms.now) x.now }
    requires t { PartsBelow (length terms.now) t.now }
    requires y { PartsBelow (length terms.now) y.now }
    ensures { IfOk result (λ o. o ≡ option_map (λ z.
        equal_statements z (statement_in terms.now y.now))
        (put by (statement_in terms.now x.now) (statement_in terms.now t.now))) }
{
    match by {
        By::Term => is_substituted(alloc, terms, x, t, y),
        By::Equation => is_equally_substituted(alloc, terms, x, t, y),
    }
}

/// The reason against an entry as entry `p` with what entry `q` has for the variable of its first domain.
pub fn check_subst(
    alloc: Global,
    items: &StatedItems,
    i: u64,
    found: Entry<'_>,
    by: By,
    p: u64,
    q: u64,
) -> Result<Option<Reject>, Memory>
    requires { EntryBelow (length items.now.trees) found }
    ensures { (a b : Assertion) (n : StatedNumbers)
        → entry_named (store_of (take i items.now.items)) p ≡ Some a
        → entry_named (store_of (take i items.now.items)) q ≡ Some b
        → IfOk result (λ x. option_map reason_of x ≡
        reason_of_result (put by a.statement b.statement) (union a.set b.set)
        (with_step (entry_in items.now.trees found.entry) n)) }
{
    let Some(named) = entry_before(items, i, p) else {
        return Ok(Some(Reject::Reference));
    };
    let Some(other) = entry_before(items, i, q) else {
        return Ok(Some(Reject::Reference));
    };
    let set = named.set().union(other.set())?;
    let first = named.parts();
    let second = other.parts();
    let stated = found.parts();
    match is_put(alloc, items.terms(), by, &first, &second, &stated)? {
        None => Ok(Some(Reject::Premise)),
        Some(is_concluded) => Ok(against_test(is_concluded, &set, found)),
    }
}
