//! What a rule has after its first premises.

ghost use Rattle.std.specs.Prelude.{◌≡◌, ◌<◌, ◌≤◌, ℕ, None, Some, length, take, IfSome, IsSomeAnd};
ghost use Rattle.ft_theory.specs.Rules.{Rule};
ghost use Rattle.ft_items.specs.Store.{declared_by, rule_named};
ghost use Rattle.ft_items.specs.Good.{Good};
ghost use Rattle.ft_check.specs.Arguing.{IsAfter, IsLineOf, IsNext};
ghost use Rattle.ft_check.specs.Entries.{EntryBelow};

use crate::entry::{Entry, RuleLine, entry_before, rule_before};
use crate::fitting::boundary_named;
use ft_stated::StatedItems;

/// What a rule has after its first premises: their metavariables, the boundary that comes then, and whether that is of a premise.
#[derive(Clone, Copy)]
pub struct After<'a> {
    pub metavariables: &'a [u64],
    pub boundary: Entry<'a>,
    pub is_premise: bool,
}

// The line of the rule of a number before place `i`, or None where there is none.
fn line_before(items: &StatedItems, i: u64, r: u64) -> Option<RuleLine<'_>>
    ensures { (R : ℕ × Rule) → Good (take i items.now.items)
        → rule_named (declared_by (take i items.now.items)) r ≡ Some R
        → IsSomeAnd result (λ x. IsLineOf (take i items.now.items) x R.1) }
{
    rule_before(items, i, r)
}

// The boundary of the rule after its first `n` premises; after all, that of its conclusion.
fn next_boundary<'a>(
    items: &'a StatedItems,
    i: u64,
    line: RuleLine<'a>,
    n: usize,
) -> Option<Entry<'a>>
    ensures is { (R : Rule) → IsLineOf (take i items.now.items) line.entry R
        → IsSomeAnd result (λ e. IsNext items.now.trees e R n) }
    ensures below { IfSome result (λ e. EntryBelow (length items.now.trees) e) }
{
    let ms = line.premises.items();
    if n < ms.len() {
        boundary_named(items, i, ms[n])
    } else {
        entry_before(items, i, line.conclusion)
    }
}

// The first `n` metavariables, of which there are as many.
fn first_of(ms: &[u64], n: usize) -> &[u64]
    requires { n ≤ length ms.now }
    ensures { result.now ≡ take n ms.now }
{
    &ms[..n]
}

/// What the rule of a number before place `i` has after its first `n` premises, or None where it has fewer.
pub fn rule_after(items: &StatedItems, i: u64, r: u64, n: usize) -> Option<After<'_>>
    ensures is { (R : ℕ × Rule) → Good (take i items.now.items)
        → rule_named (declared_by (take i items.now.items)) r ≡ Some R
        → IfSome result (λ x. IsAfter items.now.trees (take i items.now.items) x R.1 n) }
    ensures none { (R : ℕ × Rule) → Good (take i items.now.items)
        → rule_named (declared_by (take i items.now.items)) r ≡ Some R
        → result ≡ None → length R.1.premises < n }
    ensures below { IfSome result (λ x. EntryBelow (length items.now.trees) x.boundary) }
{
    let line = line_before(items, i, r)?;
    let ms = line.premises.items();
    if ms.len() < n {
        return None;
    }
    let boundary = next_boundary(items, i, line, n)?;
    Some(After {
        metavariables: first_of(ms, n),
        boundary,
        is_premise: n < ms.len(),
    })
}
