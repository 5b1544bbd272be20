//! Rules: by their names, and at arguments.

ghost use Rattle.std.specs.Prelude.{IfSome};
ghost use Rattle.ft_items.specs.Store.{declared_by};
ghost use Rattle.ft_reference.specs.Nucleus as reference;
ghost use Rattle.ft_meaning.specs.Values.{nucleus};
ghost use Rattle.ft_meaning.specs.Forms.{judged};
ghost use Rattle.ft_apply.specs.Named.{AreThesesOf};
ghost use Rattle.ft_telling.specs.Words.{stated_all};
ghost use Rattle.ft_calling.specs.Calling.{IsRuleOf, rule_at, ToldRule, ToldJudgement, ToldGoal};

use ft_base::Name;
use ft_kernel::{B, J, Kernel, RuleId};
use ft_telling::{Halt, halted, halted_boundary};
use std::alloc::Global;

/// The rule of a name. It takes no memory.
#[tactic(auto, using(crate::proofs::RulesCalled::named_told, crate::proofs::RulesCalled::named_is_rule))]
pub fn rule_of_name(k: &Kernel, name: &Name) -> Option<RuleId>
    ensures told { ToldRule k.now name.now result }
    ensures rule { IfSome result (λ r. IsRuleOf k.now r) }
{
    let _terms = k.terms();
    k.rule_named(name)
}

/// The conclusion of a rule at arguments.
#[tactic(auto, using(crate::proofs::RulesCalled::applied_told))]
pub fn apply(alloc: Global, k: &mut Kernel, at: u64, rule: RuleId, args: &[J]) -> Result<J, Halt>
    requires rule { IsRuleOf k.old rule }
    requires arguments { AreThesesOf k.old args.now }
    ensures told { ToldJudgement k.old
        (judged at (λ W. reference.apply W (rule_at k.old rule) (stated_all k.old args.now)))
        result k.new }
{
    let _terms = k.terms();
    halted(at, ft_apply::apply(alloc, k, rule, args))
}

/// The boundary of the premise after arguments, or of the conclusion where no premise is left.
#[tactic(auto, using(crate::proofs::RulesCalled::next_told))]
pub fn next_boundary(
    alloc: Global,
    k: &mut Kernel,
    at: u64,
    rule: RuleId,
    args: &[J],
) -> Result<B, Halt>
    requires rule { IsRuleOf k.old rule }
    requires arguments { AreThesesOf k.old args.now }
    ensures told { ToldGoal k.old
        (nucleus at (λ W.
        reference.next_boundary W (rule_at k.old rule) (stated_all k.old args.now)))
        result k.new }
{
    let _terms = k.terms();
    halted_boundary(at, ft_apply::next_boundary(alloc, k, rule, args))
}

/// The symbol of a rule at equal arguments.
#[tactic(auto, using(crate::proofs::RulesCalled::congruence_told))]
pub fn congruence(
    alloc: Global,
    k: &mut Kernel,
    at: u64,
    rule: RuleId,
    args: &[J],
    equations: &[J],
) -> Result<J, Halt>
    requires rule { IsRuleOf k.old rule }
    requires arguments { AreThesesOf k.old args.now }
    requires equations { AreThesesOf k.old equations.now }
    ensures told { ToldJudgement k.old
        (judged at (λ W. reference.congruence W (rule_at k.old rule) (stated_all k.old args.now)
        (stated_all k.old equations.now)))
        result k.new }
{
    let _terms = k.terms();
    halted(at, ft_apply::congruence(alloc, k, rule, args, equations))
}
