//! What is counted in a list.

ghost use Rattle.std.specs.Prelude.{◌≡◌, zero, ◌+◌, ◌<◌, ◌^◌, List, Some, None, cond, max, length, take};
ghost use Rattle.ft_theory.specs.Expressions.{Expression};
ghost use Rattle.ft_theory.specs.Rules.{Rule, rule_at};
ghost use Rattle.ft_items.specs.Levels.{level as level_of, rule_level as level_of_rule};
ghost use Rattle.ft_items.specs.Equal.{is_plain};
ghost use Rattle.ft_items.specs.Store.{Assertion, Resolved, empty_store, entry_named, resolve, store_of, declared_by};
ghost use Rattle.ft_items.specs.Good.{Good, counts, first_rejected, level_in, reason_in, shown_in};
ghost use Rattle.ft_judge.specs.Meaning.{goal_in};
ghost use Rattle.ft_stated.specs.Lines.{item_in};
ghost use Rattle.ft_stated.specs.Places.{is_entry, is_rule};
ghost use Rattle.ft_stated.specs.Steps.{stated_step};
ghost use Rattle.ft_check.specs.Verdicts.{counts_of, IsAtMost};

use crate::applied::rule_at_hand;
use crate::entry::entry_before;
use ft_judge::Goal;
use ft_stated::{Stated, StatedItems, StatedStep};

/// The numbers of rules, entries and shown marks of a list, and the greatest level of its steps.
#[derive(Clone, Copy)]
pub struct Counted {
    pub rules: u64,
    pub entries: u64,
    pub shown: u64,
    pub level: u64,
}

// The level of a rule with this goal at arguments, without an entry for the boundary of its conclusion.
fn goal_level(goal: Goal) -> u64
    ensures { (ts : List Expression) → result ≡ level_of_rule (goal_in ts goal) }
{
    match goal {
        Goal::Ty => 1,
        _ => 5,
    }
}

// The same for the rule of a number.
fn rule_level(items: &StatedItems, i: u64, r: u64) -> u64
    ensures { (R : Rule) → Good (take i items.now.items)
        → rule_at (declared_by (take i items.now.items)).rules r ≡ Some R
        → result ≡ level_of_rule R.conclusion }
{
    match rule_at_hand(items, i, r) {
        None => 0,
        Some(rule) => goal_level(rule.goal),
    }
}

// The level of reflexivity from entry `p`.
fn plain_level(items: &StatedItems, i: u64, p: u64) -> u64
    ensures { (a : Assertion) → entry_named (store_of (take i items.now.items)) p ≡ Some a
        → result ≡ cond (is_plain a.statement) 0 3 }
{
    match entry_before(items, i, p) {
        None => 0,
        Some(found) => { if found.is_plain() { 0 } else { 3 } }
    }
}

// The level of a step.
fn step_level(items: &StatedItems, i: u64, step: &StatedStep) -> u64
    ensures { (s : Resolved) → Good (take i items.now.items)
        → resolve (store_of (take i items.now.items)) (stated_step step.now) ≡ Some s
        → result ≡ level_of s }
{
    match step {
        StatedStep::Var(_) => 1,
        StatedStep::Generic(_) => 1,
        StatedStep::Meta(..) => 1,
        StatedStep::Metacong(..) => 6,
        StatedStep::Abs(..) => 1,
        StatedStep::Subst(..) => 2,
        StatedStep::Substeq(..) => 4,
        StatedStep::Refl(p) => plain_level(items, i, *p),
        StatedStep::Sym(_) => 0,
        StatedStep::Trans(..) => 1,
        StatedStep::Conv(..) => 1,
        StatedStep::Conveq(..) => 1,
        StatedStep::Left(_) => 3,
        StatedStep::Right(_) => 3,
        StatedStep::Typeof(_) => 3,
        StatedStep::Domain(_) => 3,
        StatedStep::Boundary(_) => 3,
        StatedStep::Widen(..) => 1,
        StatedStep::Btype => 0,
        StatedStep::Bterm(_) => 0,
        StatedStep::Beqty(..) => 1,
        StatedStep::Beqtm(..) => 1,
        StatedStep::Rule(r, _) => rule_level(items, i, *r),
        StatedStep::Rulewith(..) => 1,
        StatedStep::Inst(..) => 5,
        StatedStep::Cong(..) => 6,
        StatedStep::Convprem(..) => 6,
        StatedStep::Convback(..) => 6,
        StatedStep::Arg(..) => 7,
        StatedStep::Natural(_) => 7,
    }
}

// The level of an item against which there is no reason.
fn item_level(items: &StatedItems, i: u64, x: &Stated) -> u64
    ensures { (ts : List Expression) → Good (take i items.now.items)
        → reason_in (store_of (take i items.now.items)) (item_in ts x.now) ≡ None
        → result ≡ level_in (store_of (take i items.now.items)) (item_in ts x.now) }
{
    match x {
        Stated::Thesis(_, _, step) => step_level(items, i, step),
        Stated::Boundary(_, _, step) => step_level(items, i, step),
        _ => 0,
    }
}

impl Counted {
    // With an item of this level more.
    fn with(self, x: &Stated, level: u64) -> Counted
        requires rules { self.rules + 1 < 2 ^ 64 }
        requires entries { self.entries + 1 < 2 ^ 64 }
        requires shown { self.shown + 1 < 2 ^ 64 }
        ensures rules { (ts : List Expression) → result.rules ≡
            self.rules + cond (is_rule (item_in ts x.now)) 1 0 }
        ensures entries { (ts : List Expression) → result.entries ≡
            self.entries + cond (is_entry (item_in ts x.now)) 1 0 }
        ensures shown { (ts : List Expression) → result.shown ≡
            self.shown + shown_in (item_in ts x.now) }
        ensures level { result.level ≡ max self.level level }
    {
        let level = self.level.max(level);
        match x {
            Stated::Rule(..) => Counted {
                rules: self.rules + 1,
                entries: self.entries,
                shown: self.shown,
                level,
            },
            Stated::Thesis(..) => Counted {
                rules: self.rules,
                entries: self.entries + 1,
                shown: self.shown,
                level,
            },
            Stated::Boundary(..) => Counted {
                rules: self.rules,
                entries: self.entries + 1,
                shown: self.shown,
                level,
            },
            Stated::Shown(_) => Counted {
                rules: self.rules,
                entries: self.entries,
                shown: self.shown + 1,
                level,
            },
            _ => Counted {
                rules: self.rules,
                entries: self.entries,
                shown: self.shown,
                level,
            },
        }
    }

    /// With the item at place `i` more, against which there is no reason.
    pub fn next(self, items: &StatedItems, i: u64) -> Counted
        requires place { i < length items.now.items }
        requires fits { i + 1 < 2 ^ 64 }
        requires few { IsAtMost i self }
        ensures few { IsAtMost (i + 1) result }
        ensures counts { first_rejected empty_store zero
            (take (i + 1) items.now.items) ≡ None → counts_of self ≡ counts (take i items.now.items)
            → counts_of result ≡ counts (take (i + 1) items.now.items) }
    {
        let x = items.item(i);
        self.with(x, item_level(items, i, x))
    }
}
