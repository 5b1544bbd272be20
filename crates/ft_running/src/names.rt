//! What names stand for.

ghost use Rattle.std.specs.Prelude.{◌≡◌, ◌∷◌, IfOk, IfSome, OnOk, OnErr};
ghost use Rattle.ft_meaning.specs.Names.{named};
ghost use Rattle.ft_running.specs.Evaluation.{value_over, IsValueOf, environment_of, IsScopeIn};
ghost use Rattle.ft_running.specs.Evaluation.{with_row, with_top, without_scopes, GoesFurther};
ghost use Rattle.ft_running.specs.Readers.{value_in};

use crate::state::State;
use ft_base::{Memory, Name};
use ft_values::{Scope, Value};

impl State {
    /// The value of a name in a scope. It takes no memory.
    pub fn value(&self, scope: Scope, name: &Name) -> Option<Value>
        requires { IsScopeIn self.now scope }
        ensures value { IfSome result (λ v. IsValueOf self.now v) }
        ensures means { value_in self.now result
            ≡ named (environment_of self.now scope) name.now }
    {
        match self.scopes.get(scope, name) {
            Some(value) => Some(value),
            None => self.top.get(name),
        }
    }

    /// The scope with one more name. After `Memory` all is as before.
    pub fn bind(&mut self, outer: Scope, name: &Name, v: Value) -> Result<Scope, Memory>
        requires scope { IsScopeIn self.old outer }
        requires value { IsValueOf self.old v }
        ensures scope { IfOk result (λ s. IsScopeIn self.new s) }
        ensures means { IfOk result (λ s. environment_of self.new s
            ≡ (name.now, value_over self.old v) ∷ environment_of self.old outer) }
        ensures adds { OnOk result (self.new ≡ with_row outer name.now v self.old) }
        ensures err { OnErr result (self.new ≡ self.old) }
        ensures further { GoesFurther self.old self.new }
    {
        self.scopes.bind(outer, name, v)
    }

    /// Gives a name a value for the commands after. After `Memory` all is as before.
    pub fn declare(&mut self, name: &Name, v: Value) -> Result<(), Memory>
        requires { IsValueOf self.old v }
        ensures ok { OnOk result (self.new ≡ with_top name.now v self.old) }
        ensures err { OnErr result (self.new ≡ self.old) }
    {
        self.top.add(name, v)
    }

    /// Takes the scopes of a command away. It takes no memory.
    pub fn clear_scopes(&mut self)
        ensures { self.new ≡ without_scopes self.old }
    {
        self.scopes.clear();
    }
}
