//! The variables that a line mentions.

ghost use Rattle.std.specs.Prelude.{◌≡◌, length, filter, nat_lt, IfOk};
ghost use Rattle.std.specs.List.Sorted.{IsNonDecreasing};
ghost use Rattle.ft_meaning.specs.Texts.{variables};

use ft_assume::{Assume, Atom};
use ft_base::Memory;
use std::alloc::Global;

// The variables of a set, ascending.
pub fn variables_of(alloc: Global, set: &Assume) -> Result<Vec<u64>, Memory>
    ensures variables { IfOk result (λ v. v.items ≡ variables set.now) }
    ensures ascending { IfOk result (λ v. IsNonDecreasing v.items) }
{
    let mut found = Vec::new(alloc);
    for atom in set.atoms() {
        if let Atom::Var(v) = *atom {
            found.push(v)?;
        }
    }
    Ok(found)
}

// The place of a variable among those of a line, by halving.
pub fn place_of(variables: &[u64], v: u64) -> u64
    requires ascending { IsNonDecreasing variables.now }
    ensures { result ≡ length (filter (λ w. nat_lt w v) variables.now) }
{
    variables.partition_point(|w| *w < v) as u64
}
