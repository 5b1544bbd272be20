//! The check of one item.

ghost use Rattle.std.specs.Prelude.{◌≡◌, ◌<◌, Some, true, length, take, option_map, IfOk};
ghost use Rattle.ft_items.specs.Item.{Item};
ghost use Rattle.ft_items.specs.Equal.{is_thesis};
ghost use Rattle.ft_items.specs.Store.{Resolved, nth, resolve, store_of, declared_by};
ghost use Rattle.ft_items.specs.Rows.{conclusion, result_set};
ghost use Rattle.ft_items.specs.Good.{Good, reason, reason_of_entry, reason_of_result};
ghost use Rattle.ft_stated.specs.Steps.{stated_step};
ghost use Rattle.ft_check.specs.Entries.{entry_in, EntryBelow, with_step};
ghost use Rattle.ft_check.specs.Kinds.{kinds_right};
ghost use Rattle.ft_check.specs.Rejects.{reason_of};

use crate::arguments::check_arg;
use crate::binding::{By, check_abs, check_subst, check_var};
use crate::boundaries::check_btype;
use crate::congruences::check_cong;
use crate::conversions::{Way, check_conv};
use crate::entry::Entry;
use crate::metas::{check_generic, check_meta};
use crate::naturals::check_natural;
use crate::next_boundary::check_inst;
use crate::parted::{check_from_one, check_from_three, check_from_two};
use crate::reject::Reject;
use crate::rules_at::{check_applied, check_applied_with};
use crate::step_kinds::kinds;
use crate::without_step::check_without_step;
use ft_base::Memory;
use ft_placing::At;
use ft_stated::{Stated, StatedItems, StatedStep};
use ft_steps::{FromOne, FromTwo};
use std::alloc::Global;

// The reason against an entry whose step names entries of the right kinds.
fn check_result(
    alloc: Global,
    items: &StatedItems,
    i: u64,
    found: Entry<'_>,
    step: &StatedStep,
) -> Result<Option<Reject>, Memory>
    requires { EntryBelow (length items.now.trees) found }
    ensures { (s : Resolved) → Good (take i items.now.items)
        → resolve (store_of (take i items.now.items)) (stated_step step.now) ≡ Some s
        → kinds_right (is_thesis (entry_in items.now.trees found.entry).statement) s ≡ true
        → IfOk result (λ r. option_map reason_of r ≡
        reason_of_result (conclusion (declared_by (take i items.now.items)) s) (result_set s)
        (with_step (entry_in items.now.trees found.entry) (stated_step step.now))) }
{
    match step {
        StatedStep::Var(v) => check_var(alloc, items, i, found, *v),
        StatedStep::Generic(m) => check_generic(alloc, items, i, found, *m),
        StatedStep::Meta(m, ps) => check_meta(alloc, items, i, found, At::Terms, *m, ps),
        StatedStep::Metacong(m, es) => check_meta(alloc, items, i, found, At::EqualTerms, *m, es),
        StatedStep::Abs(v, p) => check_abs(alloc, items, i, found, *v, *p),
        StatedStep::Subst(p, q) => check_subst(alloc, items, i, found, By::Term, *p, *q),
        StatedStep::Substeq(p, q) => check_subst(alloc, items, i, found, By::Equation, *p, *q),
        StatedStep::Refl(p) => Ok(check_from_one(items, i, found, FromOne::Refl, *p)),
        StatedStep::Sym(p) => Ok(check_from_one(items, i, found, FromOne::Sym, *p)),
        StatedStep::Trans(p, q) => check_from_two(items, i, found, FromTwo::Trans, *p, *q),
        StatedStep::Conv(p, q) => check_from_two(items, i, found, FromTwo::Conv, *p, *q),
        StatedStep::Conveq(p, q) => check_from_two(items, i, found, FromTwo::Conveq, *p, *q),
        StatedStep::Left(p) => Ok(check_from_one(items, i, found, FromOne::Left, *p)),
        StatedStep::Right(p) => Ok(check_from_one(items, i, found, FromOne::Right, *p)),
        StatedStep::Typeof(p) => Ok(check_from_one(items, i, found, FromOne::Typeof, *p)),
        StatedStep::Domain(p) => Ok(check_from_one(items, i, found, FromOne::Domain, *p)),
        StatedStep::Boundary(p) => Ok(check_from_one(items, i, found, FromOne::Boundary, *p)),
        StatedStep::Widen(p, q) => check_from_two(items, i, found, FromTwo::Widen, *p, *q),
        StatedStep::Btype => Ok(check_btype(found)),
        StatedStep::Bterm(p) => Ok(check_from_one(items, i, found, FromOne::Bterm, *p)),
        StatedStep::Beqty(p, q) => check_from_two(items, i, found, FromTwo::Beqty, *p, *q),
        StatedStep::Beqtm(p, s, t) => check_from_three(items, i, found, *p, *s, *t),
        StatedStep::Rule(r, ps) => check_applied(alloc, items, i, found, *r, ps),
        StatedStep::Rulewith(r, b, ps) => { check_applied_with(alloc, items, i, found, *r, *b, ps) }
        StatedStep::Inst(r, ps) => check_inst(alloc, items, i, found, *r, ps),
        StatedStep::Cong(r, ps, es) => check_cong(alloc, items, i, found, *r, ps, es),
        StatedStep::Convprem(r, ps, es, q) => {
            check_conv(alloc, items, i, found, Way::Forth, *r, ps, es, *q)
        }
        StatedStep::Convback(r, ps, es, q) => {
            check_conv(alloc, items, i, found, Way::Back, *r, ps, es, *q)
        }
        StatedStep::Arg(k, p) => check_arg(alloc, items, i, found, *k, *p),
        StatedStep::Natural(p) => check_natural(alloc, items, i, found, *p),
    }
}

// The first reason against an entry.
fn check_entry(
    alloc: Global,
    items: &StatedItems,
    i: u64,
    found: Entry<'_>,
    step: &StatedStep,
) -> Result<Option<Reject>, Memory>
    requires { EntryBelow (length items.now.trees) found }
    ensures { Good (take i items.now.items) → IfOk result (λ r. option_map reason_of r ≡
        reason_of_entry (declared_by (take i items.now.items))
        (resolve (store_of (take i items.now.items)) (stated_step step.now))
        (with_step (entry_in items.now.trees found.entry) (stated_step step.now))) }
{
    match kinds(items, i, step, found.is_thesis()) {
        None => Ok(Some(Reject::Reference)),
        Some(false) => Ok(Some(Reject::Kind)),
        Some(true) => check_result(alloc, items, i, found, step),
    }
}

/// The first reason against the item at place `i` after the items before it, or None where there is none. Where the items before
/// it are no good list, nothing is said of the answer.
pub fn check_item(alloc: Global, items: &StatedItems, i: u64) -> Result<Option<Reject>, Memory>
    requires { i < length items.now.items }
    ensures { (x : Item) → nth items.now.items i ≡ Some x → Good (take i items.now.items)
        → IfOk result (λ r. option_map reason_of r ≡
        reason (take i items.now.items) x) }
{
    match items.item(i) {
        Stated::Thesis(thesis, set, step) => {
            check_entry(alloc, items, i, Entry::Thesis(thesis, set), step)
        }
        Stated::Boundary(boundary, set, step) => {
            check_entry(alloc, items, i, Entry::Boundary(boundary, set), step)
        }
        _ => Ok(check_without_step(items, i)),
    }
}
