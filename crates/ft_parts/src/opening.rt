//! Terms for the variables of domains.

ghost use Rattle.std.specs.Prelude.{◌≡◌, ◌≤◌, ◌<◌, ◌-◌, Some, length, slice_get, IfOk, IfErr};
ghost use Rattle.ft_theory.specs.Small.{IsSmall};
ghost use Rattle.ft_syntax.specs.Arguments.{arguments_of, AreTerms};
ghost use Rattle.ft_syntax.specs.Table.{tree};
ghost use Rattle.ft_syntax.specs.declared.syntax.SynFault.TheVariants.{TooBig};
ghost use Rattle.ft_calls.specs.Answers.{Stays};
ghost use Rattle.ft_parts.specs.Types.{opened_by};

use ft_kernel::Kernel;
use ft_syntax::{E, SynFault};

// The term at a place of the expression, from 1.
#[tactic(auto, using(crate::proofs::Opened::term_there, crate::proofs::Opened::no_dummy))]
fn term_at(k: &Kernel, e: E, i: u64) -> E
    requires below { e < length k.now.trees }
    requires first { 1 ≤ i }
    requires last { i ≤ length (arguments_of (tree k.now.trees e)) }
    requires terms { AreTerms (arguments_of (tree k.now.trees e)) }
    ensures term { slice_get (arguments_of (tree k.now.trees e)) (i - 1) ≡
        Some (0, Some (tree k.now.trees result)) }
    ensures below { result < length k.now.trees }
{
    match k.terms().arg(e, i).body {
        Some(term) => term,
        None => unreachable!(),
    }
}

/// The type below so many domains, with the first terms of the expression for their variables. `TooBig`
/// comes exactly where it is not small.
#[tactic(auto, using(crate::proofs::Opened::opening_start, crate::proofs::Opened::opening_more, crate::proofs::Opened::opening_big, crate::proofs::Opened::opening_end))]
pub(crate) fn open_all(k: &mut Kernel, ty: E, domains: u64, e: E) -> Result<E, SynFault>
    requires below { e < length k.old.trees }
    requires ty { ty < length k.old.trees }
    requires domains { domains ≤ length (arguments_of (tree k.old.trees e)) }
    requires terms { AreTerms (arguments_of (tree k.old.trees e)) }
    ensures within { IfOk result (λ r. r < length k.new.trees) }
    ensures tree { IfOk result (λ r. tree k.new.trees r ≡
        opened_by domains (arguments_of (tree k.old.trees e)) (tree k.old.trees ty)) }
    ensures too_big { IfErr result (λ f. f ≡ TooBig → IsSmall
        (opened_by domains (arguments_of (tree k.old.trees e)) (tree k.old.trees ty)) → ⊥) }
    ensures stays { Stays k.old k.new }
{
    let mut opened = ty;
    for i in 0..domains {
        k.terms().are_small();
        let term = term_at(k, e, i + 1);
        opened = match k.open_bound(opened, domains - 1 - i, term) {
            Ok(opened) => opened,
            Err(fault) => return Err(fault),
        };
    }
    Ok(opened)
}
