//! Sequences of values.

ghost use Rattle.std.specs.Prelude.{◌≡◌, ◌++◌, ◌∷◌, [], IfOk, OnOk, OnErr};

use crate::memory::Memory;
use std::alloc::Global;
use std::marker::Model;

/// Values in order, which contracts see as their list.
#[derive(Debug, Drop)]
pub struct Sequence<T> {
    values: Vec<T>,
}

impl<T> Model for Sequence<T> {
    ghost use Rattle.std.specs.Prelude.{List};

    ghost Value = { List T };

    ghost view = { λ s. s.values.items };
}

impl<T: Copy + Drop> Sequence<T> {
    /// No values. It takes no memory.
    pub fn new(alloc: Global) -> Sequence<T>
        ensures { result ≡ [] }
    {
        Sequence {
            values: Vec::new(alloc),
        }
    }

    /// Adds a value after the others. After `Memory` the sequence is as before.
    pub fn push(&mut self, value: T) -> Result<(), Memory>
        ensures ok { OnOk result (self.new ≡ self.old ++ value ∷ []) }
        ensures err { OnErr result (self.new ≡ self.old) }
    {
        match self.values.push(value) {
            Ok(()) => Ok(()),
            Err(_) => Err(Memory),
        }
    }

    /// The values. It takes no memory.
    pub fn items(&self) -> &[T]
        ensures { result.now ≡ self.now }
    {
        self.values.as_slice()
    }

    /// An equal sequence.
    pub fn copy(&self) -> Result<Sequence<T>, Memory>
        ensures { IfOk result (λ s. s ≡ self.now) }
    {
        Sequence::of(*self.values.allocator(), self.values.as_slice())
    }

    /// The values of the slice.
    pub fn of(alloc: Global, values: &[T]) -> Result<Sequence<T>, Memory>
        ensures { IfOk result (λ s. s ≡ values.now) }
    {
        Ok(Sequence {
            values: Vec::from_slice(alloc, values)?,
        })
    }
}
