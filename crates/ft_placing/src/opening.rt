//! Terms put for the variables of domains, in a table of their own.

ghost use Rattle.std.specs.Prelude.{◌≡◌, ◌<◌, length, IfOk, IfErr};
ghost use Rattle.ft_theory.specs.Small.{IsSmall};
ghost use Rattle.ft_items.specs.Equal.{equal_expressions};
ghost use Rattle.ft_syntax.specs.Table.{tree, Extends, AllBelow};
ghost use Rattle.ft_syntax.specs.declared.syntax.SynFault.TheVariants.{TooBig};
ghost use Rattle.ft_placing.specs.Opening.{is_put, meta_at, opened_by, trees_of};

use ft_base::Memory;
use ft_syntax::{E, SynFault, Terms};
use std::alloc::Global;

// The expressions of another table.
#[tactic(auto, using(crate::proofs::Copied::copied_start, crate::proofs::Copied::copied_more, crate::proofs::Copied::copied_end, ft_syntax::specs::Laws::one_below))]
fn copies(alloc: Global, own: &mut Terms, terms: &Terms, list: &[E]) -> Result<Vec<E>, Memory>
    requires { AllBelow (length terms.now) list.now }
    ensures are { IfOk result (λ xs. trees_of own.new xs.items ≡ trees_of terms.now list.now) }
    ensures below { IfOk result (λ xs. AllBelow (length own.new) xs.items) }
{
    let mut copied = Vec::new(alloc);
    for k in 0..list.len() {
        let term = own.copy_from(terms, list[k])?;
        copied.push(term)?;
    }
    Ok(copied)
}

// The expression with the terms for the variables of as many domains around it, the first term for the outermost.
#[tactic(auto, using(crate::proofs::Opened::opened_start, crate::proofs::Opened::opened_more, crate::proofs::Opened::opened_end, crate::proofs::Opened::opened_big, ft_syntax::specs::Laws::one_below, ft_syntax::specs::Laws::below_extends))]
fn opened(own: &mut Terms, list: &[E], e: E) -> Result<E, SynFault>
    requires e { e < length own.old }
    requires list { AllBelow (length own.old) list.now }
    ensures within { IfOk result (λ r. r < length own.new) }
    ensures tree { IfOk result (λ r. tree own.new r ≡
        opened_by 0 (trees_of own.old list.now) (tree own.old e)) }
    ensures too_big { IfErr result (λ f. f ≡ TooBig
        → IsSmall (opened_by 0 (trees_of own.old list.now) (tree own.old e)) → ⊥) }
{
    let mut formed = e;
    for k in 0..list.len() {
        // what is put, and where, is small, so that what is not small has no small outcome
        own.are_small();
        let under = (list.len() - 1 - k) as u64;
        match own.open_bound(formed, under, list[k]) {
            Err(fault) => return Err(fault),
            Ok(next) => formed = next,
        }
    }
    Ok(formed)
}

/// Whether the expression that is found is the one that is wanted with the terms for the variables of as many domains around it.
#[tactic(auto, using(crate::proofs::Opened::found_same, crate::proofs::Opened::found_big))]
pub fn is_opened(
    alloc: Global,
    terms: &Terms,
    list: &[E],
    wanted: E,
    found: E,
) -> Result<bool, Memory>
    requires list { AllBelow (length terms.now) list.now }
    requires wanted { wanted < length terms.now }
    requires found { found < length terms.now }
    ensures { IfOk result (λ yes. yes ≡ is_put terms.now list.now wanted found) }
{
    // what is found is small, so that what is not small is another
    let _ = terms.depth(found);
    let mut own = Terms::new(alloc);
    let put = copies(alloc, &mut own, terms, list)?;
    let copied = own.copy_from(terms, wanted)?;
    match opened(&mut own, &put, copied) {
        Err(SynFault::TooBig) => Ok(false),
        Err(SynFault::Memory) => Err(Memory),
        Ok(formed) => {
            let stated = own.copy_from(terms, found)?;
            Ok(own.equal_expr(formed, stated))
        }
    }
}

/// Whether the expression that is found is the metavariable at the terms.
#[tactic(auto, using(crate::proofs::Opened::applied_same, crate::proofs::Opened::applied_big))]
pub fn is_applied(
    alloc: Global,
    terms: &Terms,
    m: u64,
    list: &[E],
    found: E,
) -> Result<bool, Memory>
    requires list { AllBelow (length terms.now) list.now }
    requires found { found < length terms.now }
    ensures { IfOk result (λ yes. yes ≡ equal_expressions (meta_at terms.now m list.now)
        (tree terms.now found)) }
{
    // what is found is small, so that an application that is not small is another
    let _ = terms.depth(found);
    let mut own = Terms::new(alloc);
    let put = copies(alloc, &mut own, terms, list)?;
    match own.meta(m, &put) {
        Err(SynFault::TooBig) => Ok(false),
        Err(SynFault::Memory) => Err(Memory),
        Ok(formed) => {
            let stated = own.copy_from(terms, found)?;
            Ok(own.equal_expr(formed, stated))
        }
    }
}
