//! Names with values, of which the last one of a name counts.

ghost use Rattle.std.specs.Prelude.{◌≡◌, ◌∷◌, [], OnOk, OnErr};
ghost use Rattle.ft_meaning.specs.Names.{named};
ghost use Rattle.ft_values.specs.Names.{listed};

use crate::values::Value;
use ft_base::{Memory, Name};
use std::alloc::Global;
use std::collections::HashMap;
use std::marker::Model;

/// A name and its value.
#[derive(Drop)]
pub struct Entry {
    pub name: Name,
    pub value: Value,
}

/// Names with values, found by a map.
#[derive(Drop)]
pub struct Names {
    entries: Vec<Entry>,
    last: HashMap<Name, Value>,
}

impl Model for Names {
    ghost use Rattle.std.specs.Prelude.{List};
    ghost use Rattle.ft_items.specs.Item.{Name};
    ghost use Rattle.ft_values.specs.declared.values.Value.{Value as AnyValue};
    ghost use Rattle.ft_values.specs.Names.{listed, HasLast};

    ghost Value = { List (Name × AnyValue) };

    ghost view = { λ n. listed n.entries.items };

    ghost invariant = { λ n. HasLast n.entries.items n.last.entries };
}

impl Names {
    /// No names. It takes no memory.
    pub fn new(alloc: Global) -> Names
        ensures { result ≡ [] }
    {
        Names {
            entries: Vec::new(alloc),
            last: HashMap::new(alloc),
        }
    }

    /// The value of the name. It takes no memory.
    pub fn get(&self, name: &Name) -> Option<Value>
        ensures { result ≡ named self.now name.now }
    {
        self.last.get(name).copied()
    }

    /// Gives the name a value from now on. After `Memory` all is as before.
    pub fn add(&mut self, name: &Name, value: Value) -> Result<(), Memory>
        ensures ok { OnOk result (self.new ≡ (name.now, value) ∷ self.old) }
        ensures err { OnErr result (self.new ≡ self.old) }
    {
        let key = name.copy()?;
        self.entries.push(Entry {
            name: name.copy()?,
            value,
        })?;
        if let Err(e) = self.last.insert(key, value) {
            self.entries.pop();
            return Err(e.into());
        }
        Ok(())
    }
}
