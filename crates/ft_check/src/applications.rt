//! Symbols at arguments, which are put for the metavariables of the symbol's rule.

ghost use Rattle.std.specs.Prelude.{◌≡◌, ◌<◌, ℕ, List, Some, true, length, map, option_map, IfOk, IfSome};
ghost use Rattle.ft_theory.specs.Expressions.{Arguments, free, instantiate, symbol};
ghost use Rattle.ft_theory.specs.Rules.{Rule, instance_of};
ghost use Rattle.ft_theory.specs.Statements.{Statement, act_statement, fill};
ghost use Rattle.ft_items.specs.Equal.{equal_statements, is_thesis};
ghost use Rattle.ft_items.specs.Store.{Declarations, Declared, nth};
ghost use Rattle.ft_items.specs.Rows.{natural_of_rule, rule_arguments};
ghost use Rattle.ft_syntax.specs.Instances.{instance_in};
ghost use Rattle.ft_syntax.specs.Table.{tree, BodyBelow};
ghost use Rattle.ft_judge.specs.Meaning.{head_in as body_in, head_of_statement, GoalBelow};
ghost use Rattle.ft_placing.specs.Applied.{is_left};
ghost use Rattle.ft_check.specs.Applying.{IsRule};
ghost use Rattle.ft_check.specs.Arguing.{IsPut};
ghost use Rattle.ft_check.specs.Earlier.{declared_before, GoodBefore};
ghost use Rattle.ft_check.specs.Entries.{entry_in, EntryBelow};
ghost use Rattle.ft_check.specs.Equations.{same_head};
ghost use Rattle.ft_check.specs.Putting.{IsPutIn};

use crate::applied::RuleAt;
use crate::compare::Compared;
use crate::conversions::{fits_at, head_in};
use crate::copies::put_all;
use crate::entry::Entry;
use crate::fitting::boundary_named;
use crate::instances::Put;
use ft_base::Memory;
use ft_judge::Goal;
use ft_placing::{arguments_of, is_bound, is_same_expression};
use ft_stated::StatedItems;
use ft_syntax::{E, Terms};
use std::alloc::Global;

// The arguments of a symbol, put for the metavariables `ms`.
fn put_application(alloc: Global, terms: &Terms, ms: &[u64], e: E) -> Result<Put, Memory>
    requires { e < length terms.now }
    ensures put { (qs : List (ℕ × Statement)) (s : ℕ) (a : Arguments)
        → map (λ (q : ℕ × Statement). q.0) qs ≡ ms.now → tree terms.now e ≡ symbol s a
        → IfOk result (λ x. IsPut x qs a) }
    ensures below { IfOk result (λ x. IsPutIn x) }
{
    let arguments = arguments_of(alloc, terms, e)?;
    put_all(alloc, terms, ms, &arguments)
}

// Whether an expression, where one is there, is the instance of the type.
#[tactic(auto, using(ft_sound::proofs::EqualLemmas::equal_back))]
fn is_left_instance(put: &mut Put, terms: &Terms, ty: E, left: Option<E>) -> Result<bool, Memory>
    requires ty { ty < length terms.now }
    requires left { IfSome left (λ e. e < length terms.now) }
    requires below { IsPutIn put.old }
    ensures { IfOk result (λ yes. yes ≡ is_left terms.now
        (instantiate (instance_in put.old.terms put.old.instance.pairs) (tree terms.now ty)) left) }
{
    match left {
        None => Ok(false),
        Some(found) => {
            let compared = Compared { found, wanted: ty };
            put.has_instance(terms, compared)
        }
    }
}

/// Whether an expression, where one is there, is the type in the conclusion of the rule at the
/// arguments of its symbol `e`; None where the rule concludes no term.
pub fn is_type_of_symbol(
    alloc: Global,
    terms: &Terms,
    rule: &RuleAt<'_>,
    e: E,
    left: Option<E>,
) -> Result<Option<bool>, Memory>
    requires goal { GoalBelow (length terms.now) rule.now.goal }
    requires e { e < length terms.now }
    requires left { IfSome left (λ e. e < length terms.now) }
    ensures { (W : Declarations) (R : ℕ × Rule) (s : ℕ) (a : Arguments)
        → IsRule terms.now W rule.now R → tree terms.now e ≡ symbol s a
        → IfOk result (λ o. o ≡ option_map (λ N. is_left terms.now N left)
        (natural_of_rule (Some R.1) a)) }
{
    match rule.goal {
        Goal::Tm(ty) => {
            let mut put = put_application(alloc, terms, rule.metavariables, e)?;
            let yes = is_left_instance(&mut put, terms, ty, left)?;
            Ok(Some(yes))
        }
        _ => Ok(None),
    }
}

// Whether the head of the thesis, where it has one, is the body, or the innermost bound variable
// where there is no body.
fn has_body(terms: &Terms, found: Entry<'_>, body: Option<E>) -> bool
    requires found { EntryBelow (length terms.now) found }
    requires body { BodyBelow (length terms.now) body }
    ensures { result ≡ same_head (head_of_statement (entry_in terms.now found.entry).statement)
        (Some (body_in terms.now body)) }
{
    let Some(head) = head_in(found) else {
        return true;
    };
    match body {
        None => is_bound(terms, 0, head),
        Some(e) => is_same_expression(terms, head, e),
    }
}

// Whether the thesis is the boundary of the metavariable `m` at the arguments of the symbol `e`,
// filled with the body.
fn is_argument_for(
    alloc: Global,
    items: &StatedItems,
    i: u64,
    ms: &[u64],
    m: u64,
    e: E,
    body: Option<E>,
    found: Entry<'_>,
) -> Result<bool, Memory>
    requires e { e < length items.now.trees }
    requires body { BodyBelow (length items.now.trees) body }
    requires found { EntryBelow (length items.now.trees) found }
    ensures { (d : Declared) (qs : List (ℕ × Statement)) (s : ℕ) (a : Arguments)
        → GoodBefore i items.now.items
        → nth (declared_before i items.now.items).metavariables m ≡ Some d
        → map (λ (q : ℕ × Statement). q.0) qs ≡ ms.now
        → tree items.now.trees e ≡ symbol s a
        → is_thesis (entry_in items.now.trees found.entry).statement ≡ true
        → IfOk result (λ yes. yes ≡ equal_statements
        (fill (act_statement free (instance_of qs a) d.boundary) (body_in items.now.trees body))
        (entry_in items.now.trees found.entry).statement) }
{
    let Some(wanted) = boundary_named(items, i, m) else {
        return Ok(false);
    };
    let mut put = put_application(alloc, items.terms(), ms, e)?;
    if !fits_at(alloc, &mut put, items.terms(), found, wanted)? {
        return Ok(false);
    }
    Ok(has_body(items.terms(), found, body))
}

/// Whether the thesis is that of the argument at place `k`, counted from 0, of the rule's symbol
/// `e`; None where none stands there.
pub fn is_argument_of_symbol(
    alloc: Global,
    items: &StatedItems,
    i: u64,
    rule: &RuleAt<'_>,
    e: E,
    k: u64,
    found: Entry<'_>,
) -> Result<Option<bool>, Memory>
    requires e { e < length items.now.trees }
    requires found { EntryBelow (length items.now.trees) found }
    ensures { (R : ℕ × Rule) (s : ℕ) (a : Arguments) → GoodBefore i items.now.items
        → IsRule items.now.trees (declared_before i items.now.items) rule.now R
        → tree items.now.trees e ≡ symbol s a
        → is_thesis (entry_in items.now.trees found.entry).statement ≡ true
        → IfOk result (λ o. o ≡ option_map
        (λ z. equal_statements z (entry_in items.now.trees found.entry).statement)
        (nth (rule_arguments (Some R.1) a) k)) }
{
    let ms = rule.metavariables;
    let terms = items.terms();
    if ms.len() as u64 <= k {
        return Ok(None);
    }
    if terms.count(e) <= k {
        return Ok(None);
    }
    let body = terms.arg(e, k + 1).body;
    let yes = is_argument_for(alloc, items, i, ms, ms[k as usize], e, body, found)?;
    Ok(Some(yes))
}
