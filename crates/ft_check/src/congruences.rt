//! A symbol at equal arguments.

ghost use Rattle.std.specs.Prelude.{◌≡◌, ◌<◌, ◌&&◌, ℕ, List, Some, true, length, take, IfOk};
ghost use Rattle.ft_theory.specs.Expressions.{Expression, instantiate, symbol};
ghost use Rattle.ft_theory.specs.Rules.{Rule};
ghost use Rattle.ft_theory.specs.Statements.{equate_goal, map_claim, plain};
ghost use Rattle.ft_items.specs.Item.{Stated as StatedNumbers};
ghost use Rattle.ft_items.specs.Sets.{union, unions};
ghost use Rattle.ft_items.specs.Equal.{equal_claims, equal_expressions, equal_statements, is_object_goal};
ghost use Rattle.ft_items.specs.Store.{Assertion, rule_named, declared_by};
ghost use Rattle.ft_items.specs.Rows.{congruence_of, sets, statements};
ghost use Rattle.ft_items.specs.Good.{Good};
ghost use Rattle.ft_syntax.specs.Instances.{instance_in};
ghost use Rattle.ft_syntax.specs.Table.{tree, arguments_in};
ghost use Rattle.ft_judge.specs.Meaning.{claim_in, goal_in, FormBelow, GoalBelow};
ghost use Rattle.ft_check.specs.Applying.{IsRule};
ghost use Rattle.ft_check.specs.Arguing.{AreTheses, Judges};
ghost use Rattle.ft_check.specs.Entries.{entry_in, EntryBelow};
ghost use Rattle.ft_check.specs.Equations.{equated};
ghost use Rattle.ft_check.specs.Putting.{IsPutIn};

use crate::applied::{RuleAt, rule_at_hand};
use crate::compare::Compared;
use crate::entry::Entry;
use crate::entry_contents::is_empty;
use crate::reject::Reject;
use crate::result::{against_result, is_same_set};
use crate::rules_at::union_of;
use crate::sides::{Sides, sides_of};
use ft_assume::Assume;
use ft_base::Memory;
use ft_judge::{Form, Goal};
use ft_stated::{Numbers, StatedItems};
use ft_syntax::{E, Terms};
use std::alloc::Global;

// Whether the goal is that of a type or of a term.
fn is_object(goal: &Goal) -> bool
    ensures { (ts : List Expression) → result ≡ is_object_goal (goal_in ts goal.now) }
{
    match goal {
        Goal::Ty => true,
        Goal::Tm(_) => true,
        _ => false,
    }
}

// Whether the expressions are the symbol at the arguments of each side.
fn are_applied(sides: &mut Sides, terms: &Terms, r: u64, a: E, b: E) -> Result<bool, Memory>
    requires first { a < length terms.now }
    requires second { b < length terms.now }
    requires left { IsPutIn sides.old.left }
    requires right { IsPutIn sides.old.right }
    ensures { IfOk result (λ yes. yes ≡ (equal_expressions (tree terms.now a)
        (symbol r (arguments_in sides.old.left.terms sides.old.left.arguments.items))
        && equal_expressions (tree terms.now b)
        (symbol r (arguments_in sides.old.right.terms sides.old.right.arguments.items)))) }
{
    if !sides.left.is_applied(terms, r, a)? {
        return Ok(false);
    }
    sides.right.is_applied(terms, r, b)
}

// The same, where also the third expression is the instance of another at the left arguments.
fn are_typed(
    sides: &mut Sides,
    terms: &Terms,
    r: u64,
    a: E,
    b: E,
    ty: Compared,
) -> Result<bool, Memory>
    requires first { a < length terms.now }
    requires second { b < length terms.now }
    requires found { ty.found < length terms.now }
    requires wanted { ty.wanted < length terms.now }
    requires left { IsPutIn sides.old.left }
    requires right { IsPutIn sides.old.right }
    ensures { IfOk result (λ yes. yes ≡ (equal_expressions (tree terms.now a)
        (symbol r (arguments_in sides.old.left.terms sides.old.left.arguments.items))
        && equal_expressions (tree terms.now b)
        (symbol r (arguments_in sides.old.right.terms sides.old.right.arguments.items))
        && equal_expressions (tree terms.now ty.found)
        (instantiate (instance_in sides.old.left.terms sides.old.left.instance.pairs)
        (tree terms.now ty.wanted)))) }
{
    if !sides.left.has_instance(terms, ty)? {
        return Ok(false);
    }
    are_applied(sides, terms, r, a, b)
}

// Whether the form is the equation between the symbol at both sides, at the instance of the rule's goal at the left one.
#[tactic(auto, using(crate::proofs::Congruent::no_equated))]
fn is_equated(
    sides: &mut Sides,
    terms: &Terms,
    form: &Form,
    rule: &RuleAt<'_>,
) -> Result<bool, Memory>
    requires form { FormBelow (length terms.now) form.now }
    requires goal { GoalBelow (length terms.now) rule.now.goal }
    requires left { IsPutIn sides.old.left }
    requires right { IsPutIn sides.old.right }
    ensures { is_object_goal (goal_in terms.now rule.now.goal) ≡ true
        → IfOk result (λ yes. yes ≡ equal_claims (claim_in terms.now form.now)
        (equated terms.now sides.old rule.now)) }
{
    match (form, rule.goal) {
        (Form::EqTy(a, b), Goal::Ty) => are_applied(sides, terms, rule.symbol, *a, *b),
        (Form::EqTm(a, b, found), Goal::Tm(wanted)) => {
            let ty = Compared {
                found: *found,
                wanted,
            };
            are_typed(sides, terms, rule.symbol, *a, *b, ty)
        }
        _ => Ok(false),
    }
}

// Whether the entry is that equation.
#[tactic(auto, using(crate::proofs::Congruent::boundary_no_equation, crate::proofs::Congruent::thesis_congruent, crate::proofs::Congruent::thesis_not_congruent))]
fn is_congruence(
    sides: &mut Sides,
    terms: &Terms,
    found: Entry<'_>,
    rule: &RuleAt<'_>,
) -> Result<bool, Memory>
    requires found { EntryBelow (length terms.now) found }
    requires goal { GoalBelow (length terms.now) rule.now.goal }
    requires left { IsPutIn sides.old.left }
    requires right { IsPutIn sides.old.right }
    ensures { is_object_goal (goal_in terms.now rule.now.goal) ≡ true
        → IfOk result (λ yes. yes ≡ equal_statements (entry_in terms.now found.entry).statement
        (plain (equated terms.now sides.old rule.now))) }
{
    match found {
        Entry::Boundary(..) => Ok(false),
        Entry::Thesis(x, _) => {
            if is_empty(&x.domains) {
                is_equated(sides, terms, &x.form, rule)
            } else {
                Ok(false)
            }
        }
    }
}

/// The sets of these entries and of the others, together.
pub fn union_of_two(
    alloc: Global,
    items: &StatedItems,
    i: u64,
    ps: &[u64],
    es: &[u64],
) -> Result<Assume, Memory>
    ensures { (xs ys : List Assertion) → AreTheses (take i items.now.items) ps.now xs
        → AreTheses (take i items.now.items) es.now ys
        → IfOk result (λ S. S ≡ union (unions (sets xs)) (unions (sets ys))) }
{
    let first = union_of(alloc, items, i, ps)?;
    let second = union_of(alloc, items, i, es)?;
    first.union(&second)
}

// The reason against an entry as the congruence of the rule at hand.
fn check_congruence(
    alloc: Global,
    items: &StatedItems,
    i: u64,
    found: Entry<'_>,
    rule: &RuleAt<'_>,
    ps: &[u64],
    es: &[u64],
) -> Result<Option<Reject>, Memory>
    requires found { EntryBelow (length items.now.trees) found }
    requires goal { GoalBelow (length items.now.trees) rule.now.goal }
    ensures { (R : ℕ × Rule) (xs ys : List Assertion) (t : StatedNumbers)
        → Good (take i items.now.items)
        → IsRule items.now.trees (declared_by (take i items.now.items)) rule.now R
        → AreTheses (take i items.now.items) ps.now xs
        → AreTheses (take i items.now.items) es.now ys
        → IfOk result (λ x. Judges (entry_in items.now.trees found.entry) t
        (congruence_of R.0 R.1 (statements xs) (statements ys))
        (union (unions (sets xs)) (unions (sets ys))) x) }
{
    if !is_object(&rule.goal) {
        return Ok(Some(Reject::Premise));
    }
    let Some(mut sides) = sides_of(alloc, items, i, rule.metavariables, ps, es)? else {
        return Ok(Some(Reject::Premise));
    };
    let is_concluded = is_congruence(&mut sides, items.terms(), found, rule)?;
    let whole = union_of_two(alloc, items, i, ps, es)?;
    let stated = found.set();
    Ok(against_result(is_concluded, is_same_set(&whole, stated)))
}

/// The reason against an entry as the rule's symbol at arguments that equal the right sides of equations.
pub fn check_cong(
    alloc: Global,
    items: &StatedItems,
    i: u64,
    found: Entry<'_>,
    r: u64,
    ps: &Numbers,
    es: &Numbers,
) -> Result<Option<Reject>, Memory>
    requires { EntryBelow (length items.now.trees) found }
    ensures { (R : ℕ × Rule) (xs ys : List Assertion) (t : StatedNumbers)
        → Good (take i items.now.items)
        → rule_named (declared_by (take i items.now.items)) r ≡ Some R
        → AreTheses (take i items.now.items) ps.now xs
        → AreTheses (take i items.now.items) es.now ys
        → IfOk result (λ x. Judges (entry_in items.now.trees found.entry) t
        (congruence_of R.0 R.1 (statements xs) (statements ys))
        (union (unions (sets xs)) (unions (sets ys))) x) }
{
    match rule_at_hand(items, i, r) {
        None => Ok(Some(Reject::Premise)),
        Some(rule) => check_congruence(alloc, items, i, found, &rule, ps.items(), es.items()),
    }
}
