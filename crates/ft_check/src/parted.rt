//! Steps whose conclusion is made of parts of what they name.

ghost use Rattle.std.specs.Prelude.{◌≡◌, Some, length, option_map, take, IfOk};
ghost use Rattle.ft_items.specs.Item.{Stated as StatedNumbers};
ghost use Rattle.ft_items.specs.Sets.{union};
ghost use Rattle.ft_items.specs.Store.{Assertion, entry_named, store_of};
ghost use Rattle.ft_items.specs.Rows.{term_equation_boundary};
ghost use Rattle.ft_items.specs.Good.{reason_of_result};
ghost use Rattle.ft_steps.specs.Parts.{statement_in, PartsBelow};
ghost use Rattle.ft_steps.specs.Rows.{from_one as one_concluded, from_two as two_concluded};
ghost use Rattle.ft_check.specs.Entries.{entry_in, EntryBelow, with_step};
ghost use Rattle.ft_check.specs.Rejects.{reason_of};

use crate::entry::{Entry, entry_before};
use crate::reject::Reject;
use crate::result::{against_result, is_same_set};
use ft_assume::Assume;
use ft_base::Memory;
use ft_stated::StatedItems;
use ft_steps::{FromOne, FromTwo, Parts, from_one, from_three, from_two, is_same};
use ft_syntax::Terms;

// The reason against an entry as what is concluded, with the set.
#[tactic(auto, using(crate::proofs::Concluded::is_some))]
fn against(terms: &Terms, concluded: &Parts<'_>, set: &Assume, found: Entry<'_>) -> Option<Reject>
    requires concluded { PartsBelow (length terms.now) concluded.now }
    requires found { EntryBelow (length terms.now) found }
    ensures { (t : StatedNumbers) → option_map reason_of result ≡
        reason_of_result (Some (statement_in terms.now concluded.now)) set.now
        (with_step (entry_in terms.now found.entry) t) }
{
    let stated = found.parts();
    let is_concluded = is_same(terms, concluded, &stated);
    against_result(is_concluded, is_same_set(set, found.set()))
}

/// The reason against an entry as what the step concludes from entry `p` before place `i`.
pub fn check_from_one(
    items: &StatedItems,
    i: u64,
    found: Entry<'_>,
    row: FromOne,
    p: u64,
) -> Option<Reject>
    requires { EntryBelow (length items.now.trees) found }
    ensures { (a : Assertion) (t : StatedNumbers)
        → entry_named (store_of (take i items.now.items)) p ≡ Some a
        → option_map reason_of result ≡ reason_of_result (one_concluded row a.statement) a.set
        (with_step (entry_in items.now.trees found.entry) t) }
{
    match entry_before(items, i, p) {
        None => Some(Reject::Reference),
        Some(named) => match from_one(row, named.parts()) {
            None => Some(Reject::Premise),
            Some(concluded) => against(items.terms(), &concluded, named.set(), found),
        },
    }
}

/// The reason against an entry as what the step concludes from the entries `p` and `q` before place `i`.
pub fn check_from_two(
    items: &StatedItems,
    i: u64,
    found: Entry<'_>,
    row: FromTwo,
    p: u64,
    q: u64,
) -> Result<Option<Reject>, Memory>
    requires { EntryBelow (length items.now.trees) found }
    ensures { (a b : Assertion) (t : StatedNumbers)
        → entry_named (store_of (take i items.now.items)) p ≡ Some a
        → entry_named (store_of (take i items.now.items)) q ≡ Some b
        → IfOk result (λ x. option_map reason_of x ≡
        reason_of_result (two_concluded row a.statement b.statement) (union a.set b.set)
        (with_step (entry_in items.now.trees found.entry) t)) }
{
    let Some(first) = entry_before(items, i, p) else {
        return Ok(Some(Reject::Reference));
    };
    let Some(second) = entry_before(items, i, q) else {
        return Ok(Some(Reject::Reference));
    };
    let set = first.set().union(second.set())?;
    match from_two(items.terms(), row, first.parts(), second.parts()) {
        None => Ok(Some(Reject::Premise)),
        Some(concluded) => Ok(against(items.terms(), &concluded, &set, found)),
    }
}

/// The reason against an entry as the boundary of an equation of the terms `s` and `t` at the type `p`.
pub fn check_from_three(
    items: &StatedItems,
    i: u64,
    found: Entry<'_>,
    p: u64,
    s: u64,
    t: u64,
) -> Result<Option<Reject>, Memory>
    requires { EntryBelow (length items.now.trees) found }
    ensures { (a b c : Assertion) (n : StatedNumbers)
        → entry_named (store_of (take i items.now.items)) p ≡ Some a
        → entry_named (store_of (take i items.now.items)) s ≡ Some b
        → entry_named (store_of (take i items.now.items)) t ≡ Some c
        → IfOk result (λ x. option_map reason_of x ≡
        reason_of_result (term_equation_boundary a.statement b.statement c.statement)
        (union a.set (union b.set c.set)) (with_step (entry_in items.now.trees found.entry) n)) }
{
    let Some(first) = entry_before(items, i, p) else {
        return Ok(Some(Reject::Reference));
    };
    let Some(second) = entry_before(items, i, s) else {
        return Ok(Some(Reject::Reference));
    };
    let Some(third) = entry_before(items, i, t) else {
        return Ok(Some(Reject::Reference));
    };
    let later = second.set().union(third.set())?;
    let set = first.set().union(&later)?;
    match from_three(items.terms(), first.parts(), second.parts(), third.parts()) {
        None => Ok(Some(Reject::Premise)),
        Some(concluded) => Ok(against(items.terms(), &concluded, &set, found)),
    }
}
