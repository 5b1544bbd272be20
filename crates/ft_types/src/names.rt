//! What names stand for.

ghost use Rattle.std.specs.Prelude.{◌≡◌, ◌∷◌, [], OnOk, OnErr};
ghost use Rattle.ft_meaning.specs.Names.{named};

use ft_base::{Memory, Name};
use std::alloc::Global;
use std::collections::HashMap;
use std::marker::Model;

/// A name and what it stands for.
#[derive(Drop)]
pub struct Entry<T> {
    pub name: Name,
    pub meaning: T,
}

/// What names stand for: a list of names with their meanings, in which the last meaning of a name
/// counts.
#[derive(Drop)]
pub struct Names<T> {
    entries: Vec<Entry<T>>,
    last: HashMap<Name, T>,
}

impl<T> Model for Names<T> {
    ghost use Rattle.std.specs.Prelude.{List};
    ghost use Rattle.ft_items.specs.Item.{Name};
    ghost use Rattle.ft_types.specs.Names.{listed, HasLast};

    ghost Value = { List (Name × T) };

    ghost view = { λ n. listed n.entries.items };

    ghost invariant = { λ n. HasLast n.entries.items n.last.entries };
}

impl<T: Copy + Drop> Names<T> {
    /// No names. It takes no memory.
    pub fn new(alloc: Global) -> Names<T>
        ensures { result ≡ [] }
    {
        Names {
            entries: Vec::new(alloc),
            last: HashMap::new(alloc),
        }
    }

    /// What the name stands for. It takes no memory.
    pub fn get(&self, name: &Name) -> Option<T>
        ensures { result ≡ named self.now name.now }
    {
        self.last.get(name).copied()
    }

    /// Gives the name a meaning from now on. After `Memory` all is as before.
    pub fn add(&mut self, name: &Name, meaning: T) -> Result<(), Memory>
        ensures ok { OnOk result (self.new ≡ (name.now, meaning) ∷ self.old) }
        ensures err { OnErr result (self.new ≡ self.old) }
    {
        let key = name.copy()?;
        self.entries.push(Entry {
            name: name.copy()?,
            meaning,
        })?;
        if let Err(e) = self.last.insert(key, meaning) {
            self.entries.pop();
            return Err(e.into());
        }
        Ok(())
    }
}
