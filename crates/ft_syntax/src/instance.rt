//! Instances: arguments for metavariables.

ghost use Rattle.std.specs.Prelude.{◌≡◌, ◌++◌, ◌∷◌, [], OnOk, OnErr};
ghost use Rattle.ft_syntax.specs.Instances.{body_for};

use crate::syntax::{Arg, E};
use ft_base::Memory;
use std::alloc::Global;
use std::marker::Model;

/// Pairs of a metavariable and its argument, which contracts see as their list.
#[derive(Debug, Drop)]
pub struct Pairs {
    items: Vec<(u64, Arg)>,
}

impl Model for Pairs {
    ghost use Rattle.std.specs.Prelude.{List, ℕ};
    ghost use Rattle.ft_syntax.specs.declared.syntax.Arg.{Arg};

    ghost Value = { List (ℕ × Arg) };

    ghost view = { λ p. p.items.items };
}

impl Pairs {
    /// No pairs. It takes no memory.
    pub fn new(alloc: Global) -> Pairs
        ensures { result ≡ [] }
    {
        Pairs {
            items: Vec::new(alloc),
        }
    }

    /// Adds a pair after the others. After `Memory` the list is as before.
    pub fn push(&mut self, pair: (u64, Arg)) -> Result<(), Memory>
        ensures ok { OnOk result (self.new ≡ self.old ++ pair ∷ []) }
        ensures err { OnErr result (self.new ≡ self.old) }
    {
        self.items.extend_from_slice(&[pair])?;
        Ok(())
    }

    /// The pairs. It takes no memory.
    pub fn items(&self) -> &[(u64, Arg)]
        ensures { result.now ≡ self.now }
    {
        self.items.as_slice()
    }
}

/// An instance: for each metavariable, what is put for it. Of several pairs of a metavariable with as many binders the first
/// counts. A metavariable is replaced where it stands at as many terms as its argument has binders.
#[derive(Debug, Drop)]
pub struct Instance {
    pub pairs: Pairs,
}

// The body for the metavariable m at k terms.
#[tactic(auto, using(crate::proofs::Planting::body_for_start, crate::proofs::Planting::body_for_here, crate::proofs::Planting::body_for_past, crate::proofs::Planting::body_for_end))]
pub(crate) fn body_at(pairs: &[(u64, Arg)], m: u64, k: u64) -> Option<E>
    ensures { result ≡ body_for pairs.now m k }
{
    for (n, argument) in pairs {
        if *n == m && argument.binders == k && argument.body.is_some() {
            return argument.body;
        }
    }
    None
}
