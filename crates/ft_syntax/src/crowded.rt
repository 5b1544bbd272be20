//! The rows that have no mark.

ghost use Rattle.std.specs.Prelude.{◌≡◌, ℕ, List, Some, None, OnOk, IsTrue};
ghost use Rattle.ft_syntax.specs.Chains.{place_in, KeepsOthers};

use std::alloc::{AllocError, Global};
use std::collections::BTreeMap;

/// The places of the rows that have no mark, by their spellings. A spelling may be there of a row that was not added.
#[derive(Drop)]
pub struct Crowded {
    places: BTreeMap<Vec<u64>, usize>,
}

impl Crowded {
    /// No rows. It takes no memory.
    pub fn new(alloc: Global) -> Crowded
        ensures { (ks : List ℕ) → place_in result ks ≡ None }
    {
        Crowded {
            places: BTreeMap::new(alloc),
        }
    }

    /// Whether there are none. It takes no memory.
    pub fn is_empty(&self) -> bool
        ensures { IsTrue result → (ks : List ℕ) → place_in self.now ks ≡ None }
    {
        self.places.is_empty()
    }

    /// The place of the row of this spelling. It takes no memory.
    pub fn place(&self, spelling: &[u64]) -> Option<usize>
        ensures { result ≡ place_in self.now spelling.now }
    {
        self.places.get(spelling).copied()
    }

    /// Adds a row's place. After `AllocError` all is as before.
    #[tactic(auto, using(crate::proofs::Crowding::put_keeps, crate::proofs::Crowding::unput_keeps))]
    pub fn put(&mut self, spelling: Vec<u64>, place: usize) -> Result<(), AllocError>
        ensures here { OnOk result (place_in self.new spelling.items ≡ Some place) }
        ensures others { KeepsOthers self.old self.new spelling.items }
    {
        self.places.insert(spelling, place)?;
        Ok(())
    }
}
