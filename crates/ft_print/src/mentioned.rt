//! The variables that expressions mention.

ghost use Rattle.std.specs.Prelude.{◌≡◌, ◌<◌, ◌++◌, length, IfOk, OnOk};
ghost use Rattle.std.specs.List.Sorted.{IsNonDecreasing};
ghost use Rattle.ft_items.specs.Sets.{union};
ghost use Rattle.ft_syntax.specs.Table.{tree};
ghost use Rattle.ft_meaning.specs.Texts.{variables};
ghost use Rattle.ft_meaning.specs.Faults.{variables_of};
ghost use Rattle.ft_print.specs.Mentions.{mentioned};

use ft_base::Memory;
use ft_syntax::{E, Node, Terms};
use std::alloc::Global;

// The free variables of two expressions, ascending.
pub fn variables_mentioned(alloc: Global, terms: &Terms, a: E, b: E) -> Result<Vec<u64>, Memory>
    requires { (a < length terms.now) × (b < length terms.now) }
    ensures variables { IfOk result
        (λ v. v.items ≡
        variables (union (variables_of (tree terms.now a)) (variables_of (tree terms.now b)))) }
    ensures ascending { IfOk result (λ v. IsNonDecreasing v.items) }
{
    let mut found = Vec::new(alloc);
    push_mentioned(terms, a, &mut found)?;
    push_mentioned(terms, b, &mut found)?;
    found.sort_unstable();
    found.dedup();
    Ok(found)
}

// Appends the free variables of an expression, in the order of its text.
fn push_mentioned(terms: &Terms, e: E, found: &mut Vec<u64>) -> Result<(), Memory>
    requires within { e < length terms.now }
    ensures ok { OnOk result (found.new.items ≡ found.old.items ++ mentioned (tree terms.now e)) }
{
    if let Node::Free(v) = terms.node(e) {
        found.push(v)?;
        return Ok(());
    }
    for i in 0..terms.count(e) {
        match terms.arg(e, i + 1).body {
            Some(body) => push_mentioned(terms, body, found)?,
            None => {}
        }
    }
    Ok(())
}
