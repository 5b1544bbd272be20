//! Whether an entry is the conclusion of a rule at arguments.

ghost use Rattle.std.specs.Prelude.{◌≡◌, length, option_map, IfOk};
ghost use Rattle.ft_theory.specs.Expressions.{instantiate, symbol};
ghost use Rattle.ft_theory.specs.Statements.{fill_goal, map_claim, plain};
ghost use Rattle.ft_items.specs.Item.{Stated as StatedNumbers};
ghost use Rattle.ft_items.specs.Equal.{equal_claims, equal_statements};
ghost use Rattle.ft_items.specs.Rows.{when};
ghost use Rattle.ft_items.specs.Good.{reason_of_result};
ghost use Rattle.ft_syntax.specs.Instances.{instance_in};
ghost use Rattle.ft_syntax.specs.Table.{arguments_in};
ghost use Rattle.ft_judge.specs.Meaning.{claim_in, goal_in, FormBelow, GoalBelow};
ghost use Rattle.ft_check.specs.Comparing.{all_same, head_same, ComparedBelow};
ghost use Rattle.ft_check.specs.Entries.{entry_in, EntryBelow, with_step};
ghost use Rattle.ft_check.specs.Putting.{IsPutIn};
ghost use Rattle.ft_check.specs.Rejects.{reason_of};

use crate::applied::RuleAt;
use crate::compare::{Compared, push_form};
use crate::entry::Entry;
use crate::entry_contents::is_empty;
use crate::instances::Put;
use crate::reject::Reject;
use crate::result::{against_result, is_same_set};
use ft_assume::Assume;
use ft_base::Memory;
use ft_judge::{Form, head_of_form};
use ft_syntax::Terms;
use std::alloc::Global;

// Whether the head of the form, where it has one, is the symbol at the arguments.
fn has_applied(put: &mut Put, terms: &Terms, form: &Form, r: u64) -> Result<bool, Memory>
    requires form { FormBelow (length terms.now) form.now }
    requires below { IsPutIn put.old }
    ensures { IfOk result (λ yes. yes ≡ head_same terms.now
        (symbol r (arguments_in put.old.terms put.old.arguments.items)) form.now) }
{
    match head_of_form(form) {
        None => Ok(true),
        Some(head) => put.is_applied(terms, r, head),
    }
}

// Whether the form is the instance of the rule's goal, filled with the symbol at the arguments.
fn is_filled(
    alloc: Global,
    put: &mut Put,
    terms: &Terms,
    form: &Form,
    rule: &RuleAt<'_>,
) -> Result<bool, Memory>
    requires form { FormBelow (length terms.now) form.now }
    requires goal { GoalBelow (length terms.now) rule.now.goal }
    requires below { IsPutIn put.old }
    ensures { IfOk result (λ yes. yes ≡ equal_claims
        (fill_goal (map_claim (instantiate (instance_in put.old.terms put.old.instance.pairs))
        (goal_in terms.now rule.now.goal)) (symbol rule.now.symbol
        (arguments_in put.old.terms put.old.arguments.items))) (claim_in terms.now form.now)) }
{
    let mut list = Vec::new(alloc);
    if !push_form(&mut list, form, &rule.goal)? {
        return Ok(false);
    }
    if !put.are_instances(terms, &list)? {
        return Ok(false);
    }
    has_applied(put, terms, form, rule.symbol)
}

// Whether the entry is the instance of the rule's goal, filled with the symbol at the arguments.
fn is_conclusion(
    alloc: Global,
    put: &mut Put,
    terms: &Terms,
    found: Entry<'_>,
    rule: &RuleAt<'_>,
) -> Result<bool, Memory>
    requires found { EntryBelow (length terms.now) found }
    requires goal { GoalBelow (length terms.now) rule.now.goal }
    requires below { IsPutIn put.old }
    ensures { IfOk result (λ yes. yes ≡ equal_statements
        (plain (fill_goal (map_claim (instantiate (instance_in put.old.terms
        put.old.instance.pairs)) (goal_in terms.now rule.now.goal))
        (symbol rule.now.symbol (arguments_in put.old.terms put.old.arguments.items))))
        (entry_in terms.now found.entry).statement) }
{
    match found {
        Entry::Boundary(..) => Ok(false),
        Entry::Thesis(x, _) => {
            if is_empty(&x.domains) {
                is_filled(alloc, put, terms, &x.form, rule)
            } else {
                Ok(false)
            }
        }
    }
}

/// The reason against an entry as the instance of the rule's goal, filled with the symbol at the arguments, with the set, where
/// the list has what has to be the same for the premises.
pub fn check_conclusion(
    alloc: Global,
    put: &mut Put,
    terms: &Terms,
    list: &[Compared],
    found: Entry<'_>,
    rule: &RuleAt<'_>,
    set: &Assume,
) -> Result<Option<Reject>, Memory>
    requires list { ComparedBelow (length terms.now) list.now }
    requires found { EntryBelow (length terms.now) found }
    requires goal { GoalBelow (length terms.now) rule.now.goal }
    requires below { IsPutIn put.old }
    ensures { (t : StatedNumbers) → IfOk result (λ x. option_map reason_of x ≡
        reason_of_result (when (all_same terms.now
        (instantiate (instance_in put.old.terms put.old.instance.pairs)) list.now)
        (plain (fill_goal (map_claim (instantiate (instance_in put.old.terms
        put.old.instance.pairs)) (goal_in terms.now rule.now.goal))
        (symbol rule.now.symbol (arguments_in put.old.terms put.old.arguments.items))))) set.now
        (with_step (entry_in terms.now found.entry) t)) }
{
    if !put.are_instances(terms, list)? {
        return Ok(Some(Reject::Premise));
    }
    let is_concluded = is_conclusion(alloc, put, terms, found, rule)?;
    Ok(against_result(is_concluded, is_same_set(set, found.set())))
}
