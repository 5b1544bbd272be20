//! The rule that a step applies.

ghost use Rattle.std.specs.Prelude.{◌≡◌, ℕ, None, Some, length, take, IfSome, IsSomeAnd};
ghost use Rattle.ft_theory.specs.Rules.{Rule};
ghost use Rattle.ft_items.specs.Store.{rule_named, declared_by};
ghost use Rattle.ft_items.specs.Good.{Good};
ghost use Rattle.ft_judge.specs.Meaning.{GoalBelow};
ghost use Rattle.ft_check.specs.Applying.{IsRule};

use crate::entry::{entry_before, rule_before};
use ft_judge::Goal;
use ft_stated::StatedItems;

/// A rule at hand: its number, the metavariables of its premises and the goal of its conclusion.
#[derive(Clone, Copy)]
pub struct RuleAt<'a> {
    pub symbol: u64,
    pub metavariables: &'a [u64],
    pub goal: Goal,
}

/// The rule of a number before place `i`, or None where there is none.
pub fn rule_at_hand(items: &StatedItems, i: u64, r: u64) -> Option<RuleAt<'_>>
    ensures is { (R : ℕ × Rule) → Good (take i items.now.items)
        → rule_named (declared_by (take i items.now.items)) r ≡ Some R
        → IsSomeAnd result (λ x. IsRule items.now.trees (declared_by (take i items.now.items)) x R) }
    ensures none { Good (take i items.now.items)
        → rule_named (declared_by (take i items.now.items)) r ≡ None → result ≡ None }
    ensures below { IfSome result (λ x. GoalBelow (length items.now.trees) x.goal) }
{
    let line = rule_before(items, i, r)?;
    let conclusion = entry_before(items, i, line.conclusion)?;
    let goal = conclusion.goal()?;
    Some(RuleAt {
        symbol: r,
        metavariables: line.premises.items(),
        goal,
    })
}
