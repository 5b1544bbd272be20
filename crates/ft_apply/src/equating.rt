//! The symbol of a rule at equal arguments.

ghost use Rattle.std.specs.Prelude.{◌≡◌, ◌<◌, length, IfOk};
ghost use Rattle.ft_items.specs.Equal.{is_object_goal};
ghost use Rattle.ft_items.specs.Item.{by_cong};
ghost use Rattle.ft_items.specs.Store.{rules_in};
ghost use Rattle.ft_reference.specs.Refusals.{AllSmall, claim_expressions};
ghost use Rattle.ft_syntax.specs.Table.{ArgumentsBelow};
ghost use Rattle.ft_judge.specs.Meaning.{claim_in, FormBelow};
ghost use Rattle.ft_kernel.specs.State.{IsThesisOf};
ghost use Rattle.ft_calls.specs.Answers.{Answers, Stays};
ghost use Rattle.ft_calls.specs.Forming.{plain_in};
ghost use Rattle.ft_apply.specs.Named.{AreThesesOf, rule_of};
ghost use Rattle.ft_apply.specs.Outcomes.{SmallOr, Formed};
ghost use Rattle.ft_apply.specs.Instances.{equated_at};
ghost use Rattle.ft_apply.specs.Equations.{congruence_checks_in, congruence_in};

use crate::applying::applied_formed;
use crate::named::sets;
use crate::starting::right_heads;
use ft_calls::{conclude, plain};
use ft_judge::{Fault, Form, Goal, Refusal};
use ft_kernel::{J, Judgements, Kernel, RuleId, Step};
use ft_syntax::{Arg, SynFault};
use std::alloc::Global;

/// The symbol of the rule at the heads of the arguments equals it at the right sides of the equations, which start at these
/// heads, one for each object premise.
pub fn congruence(
    alloc: Global,
    k: &mut Kernel,
    r: RuleId,
    args: &[J],
    equations: &[J],
) -> Result<J, Fault>
    requires rule { r < length (rules_in k.old.items) }
    requires arguments { AreThesesOf k.old args.now }
    requires equations { AreThesesOf k.old equations.now }
    ensures answers { Answers k.old (by_cong r args.now equations.now) result k.new }
    ensures thesis { IfOk result (λ j. IsThesisOf k.new j) }
{
    let _terms = k.terms();
    let form = match congruence_formed(alloc, k, r, args, equations) {
        Ok(form) => form,
        Err(fault) => return Err(fault),
    };
    let left = sets(alloc, k, args)?;
    let right = sets(alloc, k, equations)?;
    let set = left.union(&right)?;
    let lefts = Judgements::of(alloc, args)?;
    let rights = Judgements::of(alloc, equations)?;
    conclude(k, plain(alloc, form), set, Step::Cong(r, lefts, rights))
}

// The equation between the symbol at the arguments, which fit the premises, and at the right sides of the equations.
fn congruence_formed(
    alloc: Global,
    k: &mut Kernel,
    r: RuleId,
    args: &[J],
    equations: &[J],
) -> Result<Form, Fault>
    requires rule { r < length (rules_in k.old.items) }
    requires arguments { AreThesesOf k.old args.now }
    requires equations { AreThesesOf k.old equations.now }
    ensures within { IfOk result (λ f. FormBelow (length k.new.trees) f) }
    ensures formed { Formed (plain_in k.new.trees) k.new.trees
        (congruence_checks_in k.old.items r args.now equations.now)
        (congruence_in k.old.items r args.now equations.now) result }
    ensures stays { Stays k.old k.new }
{
    if !has_symbol(k, r) {
        return Err(Fault::Refused(Refusal::WrongForm));
    }
    let left = match applied_formed(alloc, k, r, args) {
        Ok(left) => left,
        Err(fault) => return Err(fault),
    };
    let rights = match right_heads(alloc, k, args, equations) {
        Ok(rights) => rights,
        Err(fault) => return Err(fault),
    };
    match equated(k, r, &left, rights.items()) {
        Ok(form) => Ok(form),
        Err(fault) => Err(Fault::from(fault)),
    }
}

// Whether the rule is for a type or a term, and so has a symbol.
fn has_symbol(k: &Kernel, r: RuleId) -> bool
    requires { r < length (rules_in k.now.items) }
    ensures { result ≡ is_object_goal (rule_of k.now.items r).conclusion }
{
    match k.boundary_at(k.rule(r).conclusion).goal {
        Goal::Ty => true,
        Goal::Tm(_) => true,
        Goal::EqTy(..) => false,
        Goal::EqTm(..) => false,
    }
}

// The equation of the type or term with the symbol at other arguments.
fn equated(k: &mut Kernel, r: RuleId, left: &Form, rights: &[Arg]) -> Result<Form, SynFault>
    requires left { FormBelow (length k.old.trees) left.now }
    requires rights { ArgumentsBelow (length k.old.trees) rights.now }
    requires small { AllSmall (claim_expressions (claim_in k.old.trees left.now)) }
    ensures within { IfOk result (λ f. FormBelow (length k.new.trees) f) }
    ensures form { IfOk result (λ f. claim_in k.new.trees f ≡
        equated_at k.old.trees left.now r rights.now) }
    ensures small { SmallOr (AllSmall (claim_expressions
        (equated_at k.old.trees left.now r rights.now))) result }
    ensures stays { Stays k.old k.new }
{
    match *left {
        Form::Ty(a) => Ok(Form::EqTy(a, k.symbol(r.number(), rights)?)),
        Form::Tm(t, a) => Ok(Form::EqTm(t, k.symbol(r.number(), rights)?, a)),
        Form::EqTy(a, b) => Ok(Form::EqTy(a, b)),
        Form::EqTm(s, t, a) => Ok(Form::EqTm(s, t, a)),
    }
}
