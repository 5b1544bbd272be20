//! The instance that the arguments of a symbol are.

ghost use Rattle.std.specs.Prelude.{◌≡◌, ◌<◌, length, IfOk};
ghost use Rattle.ft_theory.specs.Rules.{rule_at};
ghost use Rattle.ft_items.specs.Store.{declared_by, rules_in};
ghost use Rattle.ft_syntax.specs.Arguments.{node_of};
ghost use Rattle.ft_syntax.specs.Table.{tree};
ghost use Rattle.ft_syntax.specs.declared.syntax.Node.TheVariants.{Sym};
ghost use Rattle.ft_syntax.specs.Instances.{instance_in, PairsBelow};
ghost use Rattle.ft_parts.specs.Types.{instance_at};

use ft_base::Memory;
use ft_kernel::{Kernel, RuleId};
use ft_syntax::{E, Instance, Pairs};
use std::alloc::Global;

/// The instance that has the arguments of the expression for the premises of the rule.
#[tactic(auto, using(crate::proofs::Pairing::pairing_start, crate::proofs::Pairing::pairing_more, crate::proofs::Pairing::pairing_end))]
pub(crate) fn instance(alloc: Global, k: &Kernel, r: RuleId, e: E) -> Result<Instance, Memory>
    requires rule { r < length (rules_in k.now.items) }
    requires below { e < length k.now.trees }
    requires symbol { node_of (tree k.now.trees e) ≡ Sym r }
    ensures pairs { IfOk result (λ i. PairsBelow (length k.now.trees) i.pairs) }
    ensures instance { IfOk result (λ i. instance_in k.now.trees i.pairs ≡
        instance_at (rule_at (declared_by k.now.items).rules r) (tree k.now.trees e)) }
{
    let premises = k.rule(r).premises.items();
    let terms = k.terms();
    let count = terms.count(e).min(premises.len() as u64);
    let mut pairs = Pairs::new(alloc);
    for i in 0..count {
        let premise = premises[i as usize];
        let argument = terms.arg(e, i + 1);
        pairs.push((premise.number(), argument))?;
    }
    Ok(Instance { pairs })
}
