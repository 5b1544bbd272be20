//! Rules at arguments: the next boundary, and the conclusion.

ghost use Rattle.std.specs.Prelude.{◌≡◌, ◌<◌, length, IfOk};
ghost use Rattle.ft_theory.specs.Rules.{instance_of};
ghost use Rattle.ft_items.specs.Equal.{heads as heads_of};
ghost use Rattle.ft_items.specs.Item.{by_rule, by_rulewith, by_inst};
ghost use Rattle.ft_items.specs.Store.{rules_in};
ghost use Rattle.ft_items.specs.Rows.{rule_instance, rule_instance_with, boundary_instance};
ghost use Rattle.ft_reference.specs.Refusals.{AllSmall, claim_expressions};
ghost use Rattle.ft_reference.specs.Compare.{boundary_checks};
ghost use Rattle.ft_reference.specs.Checks.{all_argument_checks, rule_checks, rule_with_checks, instance_checks};
ghost use Rattle.ft_syntax.specs.Table.{arguments_in, ArgumentsBelow};
ghost use Rattle.ft_syntax.specs.Instances.{instance_in, PairsBelow};
ghost use Rattle.ft_judge.specs.Meaning.{claim_in, goal_in, boundary_in, FormBelow, GoalBelow, BoundaryBelow};
ghost use Rattle.ft_kernel.specs.State.{IsThesisOf, IsBoundaryOf};
ghost use Rattle.ft_calls.specs.Answers.{Answers, Stays};
ghost use Rattle.ft_calls.specs.Forming.{plain_in, plain_goal_in};
ghost use Rattle.ft_apply.specs.Named.{entry_of, statements_of, AreThesesOf, rule_of, boundary_after as boundary_of_next};
ghost use Rattle.ft_apply.specs.Outcomes.{SmallOr, Asks, Tests, Formed};
ghost use Rattle.ft_apply.specs.Instances.{goal_at, filled_at};

use crate::fitting::{Given, arguments, counts};
use crate::named::sets;
use crate::putting::{put_boundary, put_goal};
use ft_base::Memory;
use ft_calls::{conclude, conclude_boundary, plain, same_side, same_type};
use ft_judge::{Boundary, Fault, Form, Goal, Refusal};
use ft_kernel::{B, J, Judgements, Kernel, RuleId, Step};
use ft_syntax::{Arg, Instance, SynFault, Terms};
use std::alloc::Global;

/// The boundary of the premise after the arguments, or of the conclusion where no premise is left.
pub fn next_boundary(alloc: Global, k: &mut Kernel, r: RuleId, args: &[J]) -> Result<B, Fault>
    requires rule { r < length (rules_in k.old.items) }
    requires arguments { AreThesesOf k.old args.now }
    ensures answers { Answers k.old (by_inst r args.now) result k.new }
    ensures boundary { IfOk result (λ b. IsBoundaryOf k.new b) }
{
    let _terms = k.terms();
    let boundary = match next_formed(alloc, k, r, args) {
        Ok(boundary) => boundary,
        Err(fault) => return Err(fault),
    };
    let set = sets(alloc, k, args)?;
    let step = Step::Inst(r, Judgements::of(alloc, args)?);
    conclude_boundary(k, boundary, set, step)
}

// The next boundary at the arguments, which fit the first premises.
fn next_formed(alloc: Global, k: &mut Kernel, r: RuleId, args: &[J]) -> Result<Boundary, Fault>
    requires rule { r < length (rules_in k.old.items) }
    requires arguments { AreThesesOf k.old args.now }
    ensures within { IfOk result (λ b. BoundaryBelow (length k.new.trees) b) }
    ensures formed { Formed (boundary_in k.new.trees) k.new.trees
        (instance_checks (rule_of k.old.items r) (statements_of k.old.items args.now))
        (boundary_instance (rule_of k.old.items r) (statements_of k.old.items args.now)) result }
    ensures stays { Stays k.old k.new }
{
    let premises = k.rule(r).premises.copy()?;
    let count = args.len();
    let wanted = premises.items().len();
    if count > wanted {
        return Err(counts(count, wanted));
    }
    let given = match arguments(alloc, k, &premises.items()[..count], args) {
        Ok(given) => given,
        Err(fault) => return Err(fault),
    };
    let next = boundary_after(k, r, count)?;
    match put_boundary(alloc, k, &next, &given.instance) {
        Ok(boundary) => Ok(boundary),
        Err(fault) => Err(Fault::from(fault)),
    }
}

/// The boundary of the premise after so many, or of the conclusion where no premise is left.
pub(crate) fn boundary_after(k: &Kernel, r: RuleId, count: usize) -> Result<Boundary, Memory>
    requires rule { r < length (rules_in k.now.items) }
    ensures within { IfOk result (λ b. BoundaryBelow (length k.now.trees) b) }
    ensures boundary { IfOk result (λ b.
        boundary_in k.now.trees b ≡ boundary_of_next (rule_of k.now.items r) count) }
{
    let rule = k.rule(r);
    let premises = rule.premises.items();
    if count < premises.len() {
        let met = k.met(premises[count]);
        return k.boundary_at(met.boundary).copy();
    }
    k.boundary_at(rule.conclusion).copy()
}

/// The conclusion of the rule at the arguments: of a rule for a type or a term, the symbol at their heads.
pub fn apply(alloc: Global, k: &mut Kernel, r: RuleId, args: &[J]) -> Result<J, Fault>
    requires rule { r < length (rules_in k.old.items) }
    requires arguments { AreThesesOf k.old args.now }
    ensures answers { Answers k.old (by_rule r args.now) result k.new }
    ensures thesis { IfOk result (λ j. IsThesisOf k.new j) }
{
    let _terms = k.terms();
    let form = match applied_formed(alloc, k, r, args) {
        Ok(form) => form,
        Err(fault) => return Err(fault),
    };
    let set = sets(alloc, k, args)?;
    let step = Step::Rule(r, Judgements::of(alloc, args)?);
    conclude(k, plain(alloc, form), set, step)
}

/// The conclusion at the arguments, which fit the premises.
pub(crate) fn applied_formed(
    alloc: Global,
    k: &mut Kernel,
    r: RuleId,
    args: &[J],
) -> Result<Form, Fault>
    requires rule { r < length (rules_in k.old.items) }
    requires arguments { AreThesesOf k.old args.now }
    ensures within { IfOk result (λ f. FormBelow (length k.new.trees) f) }
    ensures formed { Formed (plain_in k.new.trees) k.new.trees
        (rule_checks r (rule_of k.old.items r) (statements_of k.old.items args.now))
        (rule_instance r (rule_of k.old.items r) (statements_of k.old.items args.now)) result }
    ensures stays { Stays k.old k.new }
{
    let given = match all_arguments(alloc, k, r, args) {
        Ok(given) => given,
        Err(fault) => return Err(fault),
    };
    let goal = match conclusion(k, r, &given.instance) {
        Ok(goal) => goal,
        Err(fault) => return Err(Fault::from(fault)),
    };
    match filled(k, r, &goal, given.heads.items()) {
        Ok(form) => Ok(form),
        Err(fault) => Err(Fault::from(fault)),
    }
}

// The theses as arguments for all premises of the rule, which they fit.
fn all_arguments(alloc: Global, k: &mut Kernel, r: RuleId, args: &[J]) -> Result<Given, Fault>
    requires rule { r < length (rules_in k.old.items) }
    requires arguments { AreThesesOf k.old args.now }
    ensures heads { IfOk result (λ g. arguments_in k.new.trees g.heads ≡
        heads_of (statements_of k.old.items args.now)) }
    ensures below { IfOk result (λ g. ArgumentsBelow (length k.new.trees) g.heads) }
    ensures instance { IfOk result (λ g. instance_in k.new.trees g.instance.pairs ≡
        instance_of (rule_of k.old.items r).premises
        (heads_of (statements_of k.old.items args.now))) }
    ensures pairs { IfOk result (λ g. PairsBelow (length k.new.trees) g.instance.pairs) }
    ensures checks { Asks k.new.trees (all_argument_checks (rule_of k.old.items r).premises
        (statements_of k.old.items args.now)) result }
    ensures stays { Stays k.old k.new }
{
    let premises = k.rule(r).premises.copy()?;
    let wanted = premises.items().len();
    if args.len() != wanted {
        return Err(counts(args.len(), wanted));
    }
    arguments(alloc, k, premises.items(), args)
}

// What the rule concludes, at the instance.
fn conclusion(k: &mut Kernel, r: RuleId, i: &Instance) -> Result<Goal, SynFault>
    requires rule { r < length (rules_in k.old.items) }
    requires pairs { PairsBelow (length k.old.trees) i.now.pairs }
    ensures within { IfOk result (λ g. GoalBelow (length k.new.trees) g) }
    ensures goal { IfOk result (λ g. goal_in k.new.trees g ≡
        goal_at k.old.trees i.now.pairs (rule_of k.old.items r).conclusion) }
    ensures small { SmallOr (AllSmall (claim_expressions
        (goal_at k.old.trees i.now.pairs (rule_of k.old.items r).conclusion))) result }
    ensures stays { Stays k.old k.new }
{
    let goal = k.boundary_at(k.rule(r).conclusion).goal;
    put_goal(k, &goal, i)
}

// The goal filled with the symbol at the heads, where it is that of a type or a term.
fn filled(k: &mut Kernel, r: RuleId, goal: &Goal, heads: &[Arg]) -> Result<Form, SynFault>
    requires goal { GoalBelow (length k.old.trees) goal.now }
    requires heads { ArgumentsBelow (length k.old.trees) heads.now }
    requires small { AllSmall (claim_expressions (goal_in k.old.trees goal.now)) }
    ensures within { IfOk result (λ f. FormBelow (length k.new.trees) f) }
    ensures form { IfOk result (λ f. claim_in k.new.trees f ≡
        filled_at k.old.trees goal.now r heads.now) }
    ensures small { SmallOr (AllSmall (claim_expressions
        (filled_at k.old.trees goal.now r heads.now))) result }
    ensures stays { Stays k.old k.new }
{
    match *goal {
        Goal::Ty => Ok(Form::Ty(k.symbol(r.number(), heads)?)),
        Goal::Tm(a) => Ok(Form::Tm(k.symbol(r.number(), heads)?, a)),
        Goal::EqTy(a, b) => Ok(Form::EqTy(a, b)),
        Goal::EqTm(s, t, a) => Ok(Form::EqTm(s, t, a)),
    }
}

/// The same, where the given boundary is that of the conclusion at the arguments.
pub fn apply_with(alloc: Global, k: &mut Kernel, r: RuleId, b: B, args: &[J]) -> Result<J, Fault>
    requires rule { r < length (rules_in k.old.items) }
    requires boundary { IsBoundaryOf k.old b }
    requires arguments { AreThesesOf k.old args.now }
    ensures answers { Answers k.old (by_rulewith r b args.now) result k.new }
    ensures thesis { IfOk result (λ j. IsThesisOf k.new j) }
{
    let _terms = k.terms();
    let form = match applied_with_formed(alloc, k, r, b, args) {
        Ok(form) => form,
        Err(fault) => return Err(fault),
    };
    let set = k.set_of(b).union(&sets(alloc, k, args)?)?;
    let step = Step::Rulewith(r, b, Judgements::of(alloc, args)?);
    conclude(k, plain(alloc, form), set, step)
}

// The conclusion at the arguments, which fit the premises, where the given boundary is its own.
fn applied_with_formed(
    alloc: Global,
    k: &mut Kernel,
    r: RuleId,
    b: B,
    args: &[J],
) -> Result<Form, Fault>
    requires rule { r < length (rules_in k.old.items) }
    requires boundary { IsBoundaryOf k.old b }
    requires arguments { AreThesesOf k.old args.now }
    ensures within { IfOk result (λ f. FormBelow (length k.new.trees) f) }
    ensures formed { Formed (plain_in k.new.trees) k.new.trees
        (rule_with_checks r (rule_of k.old.items r) (entry_of k.old.items b).statement
        (statements_of k.old.items args.now))
        (rule_instance_with r (rule_of k.old.items r) (entry_of k.old.items b).statement
        (statements_of k.old.items args.now)) result }
    ensures stays { Stays k.old k.new }
{
    let given = match all_arguments(alloc, k, r, args) {
        Ok(given) => given,
        Err(fault) => return Err(fault),
    };
    let goal = match conclusion(k, r, &given.instance) {
        Ok(goal) => goal,
        Err(fault) => return Err(Fault::from(fault)),
    };
    match same_goal(k.terms(), k.boundary_at(b), &goal) {
        Ok(()) => {}
        Err(refusal) => return Err(Fault::Refused(refusal)),
    }
    match filled(k, r, &goal, given.heads.items()) {
        Ok(form) => Ok(form),
        Err(fault) => Err(Fault::from(fault)),
    }
}

// Whether the boundary is the goal without domains.
fn same_goal(t: &Terms, b: &Boundary, goal: &Goal) -> Result<(), Refusal>
    requires boundary { BoundaryBelow (length t.now) b.now }
    requires goal { GoalBelow (length t.now) goal.now }
    ensures { Tests t.now (boundary_checks (boundary_in t.now b.now)
        (plain_goal_in t.now goal.now)) result }
{
    if !b.domains.items().is_empty() {
        return Err(Refusal::WrongForm);
    }
    match (&b.goal, goal) {
        (Goal::Ty, Goal::Ty) => Ok(()),
        (Goal::Tm(a), Goal::Tm(c)) => same_type(t, *a, *c),
        (Goal::EqTy(a, c), Goal::EqTy(d, e)) => {
            same_side(t, *a, *d)?;
            same_side(t, *c, *e)
        }
        (Goal::EqTm(u, v, a), Goal::EqTm(w, x, c)) => {
            same_type(t, *a, *c)?;
            same_side(t, *u, *w)?;
            same_side(t, *v, *x)
        }
        _ => Err(Refusal::WrongForm),
    }
}
