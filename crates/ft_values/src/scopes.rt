//! Scopes, whose outer names are shared.

ghost use Rattle.std.specs.Prelude.{◌≡◌, [], ◌∷◌, ◌++◌, length, IfOk, OnOk, OnErr};
ghost use Rattle.ft_meaning.specs.Names.{named};
ghost use Rattle.ft_values.specs.Scopes.{names_in, IsScopeOf};

use crate::values::Value;
use ft_base::{Memory, Name};
use std::alloc::Global;
use std::marker::Model;

/// The names within a command at a place of it: none, or those of a row.
#[derive(Clone, Copy, Debug, PartialEq, Eq, Drop)]
pub enum Scope {
    Top,
    Within(u64),
}

/// A name with its value, and the scope around it.
#[derive(Drop)]
pub struct Binding {
    pub name: Name,
    pub value: Value,
    pub outer: Scope,
}

/// Scopes in rows that only grow. The scope around a row stands before it, so that a scope is
/// shared by all that stand within it, and none is copied.
#[derive(Drop)]
pub struct Scopes {
    bindings: Vec<Binding>,
}

impl Model for Scopes {
    ghost use Rattle.std.specs.Prelude.{List};
    ghost use Rattle.ft_items.specs.Item.{Name};
    ghost use Rattle.ft_values.specs.declared.values.Value.{Value as AnyValue};

    ghost Value = { List (List (Name × AnyValue)) };

    ghost use Rattle.ft_values.specs.Scopes.{names_of, AllWithin};

    ghost view = { λ t. names_of t.bindings.items };

    ghost invariant = { λ t. AllWithin t.bindings.items };
}

impl Scopes {
    /// No scopes but the one without names. It takes no memory.
    pub fn new(alloc: Global) -> Scopes
        ensures { result ≡ [] }
    {
        Scopes {
            bindings: Vec::new(alloc),
        }
    }

    /// The scope with one more name. After `Memory` all is as before.
    pub fn bind(&mut self, outer: Scope, name: &Name, value: Value) -> Result<Scope, Memory>
        requires { IsScopeOf (length self.old) outer }
        ensures scope { IfOk result (λ s. IsScopeOf (length self.new) s) }
        ensures means { IfOk result
            (λ s. names_in self.new s ≡ (name.now, value) ∷ names_in self.old outer) }
        ensures list { OnOk result
            (self.new ≡ self.old ++ ((name.now, value) ∷ names_in self.old outer) ∷ []) }
        ensures err { OnErr result (self.new ≡ self.old) }
    {
        let row = self.bindings.len() as u64;
        let name = name.copy()?;
        self.bindings.push(Binding { name, value, outer })?;
        Ok(Scope::Within(row))
    }

    /// The value of a name in a scope. It takes no memory.
    #[tactic(auto, using(crate::proofs::Layers::name_found, crate::proofs::Layers::name_further))]
    pub fn get(&self, scope: Scope, name: &Name) -> Option<Value>
        requires { IsScopeOf (length self.now) scope }
        ensures { result ≡ named (names_in self.now scope) name.now }
    {
        let mut rest = scope;
        'searching: while let Scope::Within(row) = rest {
            let binding = &self.bindings[row as usize];
            if binding.name == *name {
                return Some(binding.value);
            }
            rest = binding.outer;
        }
        None
    }

    /// Takes all scopes away but the one without names. It takes no memory.
    pub fn clear(&mut self)
        ensures { self.new ≡ [] }
    {
        self.bindings.clear();
    }
}
