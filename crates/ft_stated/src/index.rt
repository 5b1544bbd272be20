//! Where the items of a kind stand.

ghost use Rattle.std.specs.Prelude.{◌≡◌, List, IfOk, OnOk};
ghost use Rattle.ft_theory.specs.Expressions.{Expression};
ghost use Rattle.ft_stated.specs.Lines.{item_in, items_in};
ghost use Rattle.ft_stated.specs.Places.{is_entry, is_metavariable, is_rule, with_place, AreIndexes};

use crate::stated::Stated;
use ft_base::Memory;
use std::alloc::Global;

/// The places of the entries, of the metavariables and of the rules of a list, each in order.
#[derive(Debug, Drop)]
pub struct Index {
    pub entries: Vec<u64>,
    pub metavariables: Vec<u64>,
    pub rules: Vec<u64>,
}

impl Index {
    // Adds the place of an item to those of its kind.
    fn note(&mut self, place: u64, x: &Stated) -> Result<(), Memory>
        ensures entries { (ts : List Expression) → OnOk result (self.new.entries.items ≡ with_place (is_entry (item_in ts x.now)) self.old.entries.items place) }
        ensures metavariables { (ts : List Expression) → OnOk result (self.new.metavariables.items ≡ with_place (is_metavariable (item_in ts x.now)) self.old.metavariables.items place) }
        ensures rules { (ts : List Expression) → OnOk result (self.new.rules.items ≡ with_place (is_rule (item_in ts x.now)) self.old.rules.items place) }
    {
        match x {
            Stated::Thesis(..) | Stated::Boundary(..) => self.entries.push(place)?,
            Stated::Met(..) => self.metavariables.push(place)?,
            Stated::Rule(..) => self.rules.push(place)?,
            Stated::Var(..) | Stated::Shown(_) => {}
        }
        Ok(())
    }

    // The places of what is stated.
    pub fn of(alloc: Global, stated: &[Stated]) -> Result<Index, Memory>
        ensures { (ts : List Expression) → IfOk result (λ x. AreIndexes (items_in ts stated.now) x.entries.items x.metavariables.items x.rules.items) }
    {
        let mut index = Index {
            entries: Vec::new(alloc),
            metavariables: Vec::new(alloc),
            rules: Vec::new(alloc),
        };
        'noting: for k in 0..stated.len() {
            index.note(k as u64, &stated[k])?;
        }
        Ok(index)
    }
}
