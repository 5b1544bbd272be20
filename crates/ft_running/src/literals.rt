//! Patterns without further patterns against values.

ghost use Rattle.std.specs.Prelude.{ℕ, ◌≡◌, if◌then◌else◌};
ghost use Rattle.ft_meaning.specs.Matching.{matches};
ghost use Rattle.ft_meaning.specs.Trees.{truth_pattern, unit_pattern, none_pattern, nil_pattern};
ghost use Rattle.ft_meaning.specs.Trees.{name_pattern};
ghost use Rattle.ft_telling.specs.declared.halt.Why.TheVariants.{Stuck};
ghost use Rattle.ft_running.specs.Evaluation.{run_of, value_over, IsValueOf, IsScopeIn};
ghost use Rattle.ft_running.specs.Evaluation.{environment_of, GoesFurther};
ghost use Rattle.ft_running.specs.Matching.{no_member, nothing_held};
ghost use Rattle.ft_running.specs.Telling.{TellsMatch};

use crate::state::State;
use ft_base::Name;
use ft_telling::{Halt, Why};
use ft_values::{Scope, Value};

/// The run is stuck at a place. It takes no memory.
pub(crate) fn stuck(at: u64) -> Halt
    ensures { result ≡ record { at = at; why = Stuck } }
{
    Halt {
        at,
        why: Why::Stuck,
    }
}

// What is found, where the value is of the kind; else the run is stuck.
fn found_if(at: u64, holds: bool, found: Option<Scope>) -> Result<Option<Scope>, Halt>
    ensures { result ≡ (if holds then Ok found else Err (record { at = at; why = Stuck })) }
{
    if holds { Ok(found) } else { Err(stuck(at)) }
}

impl State {
    /// A truth value against a value. It takes no memory.
    pub(crate) fn match_truth(
        &self,
        at: u64,
        wanted: bool,
        v: Value,
        scope: Scope,
    ) -> Result<Option<Scope>, Halt>
        requires value { IsValueOf self.now v }
        requires scope { IsScopeIn self.now scope }
        ensures { (a : ℕ) → TellsMatch
            (matches at (truth_pattern a wanted) (value_over self.now v)
            (environment_of self.now scope) (run_of self.now))
            result self.now }
    {
        match self.truth(v) {
            Some(b) => Ok((b == wanted).then_some(scope)),
            None => Err(stuck(at)),
        }
    }

    /// The unit against a value. It takes no memory.
    pub(crate) fn match_unit(&self, at: u64, v: Value, scope: Scope) -> Result<Option<Scope>, Halt>
        requires value { IsValueOf self.now v }
        requires scope { IsScopeIn self.now scope }
        ensures { (a : ℕ) → TellsMatch
            (matches at (unit_pattern a) (value_over self.now v)
            (environment_of self.now scope) (run_of self.now))
            result self.now }
    {
        found_if(at, self.is_unit(v), Some(scope))
    }

    /// `none` against a value. It takes no memory.
    pub(crate) fn match_none(&self, at: u64, v: Value, scope: Scope) -> Result<Option<Scope>, Halt>
        requires value { IsValueOf self.now v }
        requires scope { IsScopeIn self.now scope }
        ensures { (a : ℕ) → TellsMatch
            (matches at (none_pattern a) (value_over self.now v)
            (environment_of self.now scope) (run_of self.now))
            result self.now }
    {
        match self.option_part(v) {
            Some(_) => Ok(None),
            None => found_if(at, self.is_none(v), Some(scope)),
        }
    }

    /// `nil` against a value. It takes no memory.
    pub(crate) fn match_nil(&self, at: u64, v: Value, scope: Scope) -> Result<Option<Scope>, Halt>
        requires value { IsValueOf self.now v }
        requires scope { IsScopeIn self.now scope }
        ensures { (a : ℕ) → TellsMatch
            (matches at (nil_pattern a) (value_over self.now v)
            (environment_of self.now scope) (run_of self.now))
            result self.now }
    {
        match self.list_parts(v) {
            Some(_) => Ok(None),
            None => found_if(at, self.is_nil(v), Some(scope)),
        }
    }

    /// A list with a first member against a value that is none. It takes no memory.
    pub(crate) fn match_no_member(&self, at: u64, v: Value) -> Result<Option<Scope>, Halt>
        requires { IsValueOf self.now v }
        ensures { TellsMatch (no_member (value_over self.now v) (run_of self.now)) result self.now }
    {
        found_if(at, self.is_nil(v), None)
    }

    /// An option that holds something against a value that is none. It takes no memory.
    pub(crate) fn match_nothing(&self, at: u64, v: Value) -> Result<Option<Scope>, Halt>
        requires { IsValueOf self.now v }
        ensures { TellsMatch
            (nothing_held (value_over self.now v) (run_of self.now))
            result self.now }
    {
        found_if(at, self.is_none(v), None)
    }

    /// A name against a value: the name stands for it.
    pub(crate) fn match_name(
        &mut self,
        name: &Name,
        v: Value,
        scope: Scope,
    ) -> Result<Option<Scope>, Halt>
        requires value { IsValueOf self.old v }
        requires scope { IsScopeIn self.old scope }
        ensures tells { (at a : ℕ) → TellsMatch
            (matches at (name_pattern a name.now) (value_over self.old v)
            (environment_of self.old scope) (run_of self.old))
            result self.new }
        ensures further { GoesFurther self.old self.new }
        ensures units { self.new.units ≡ self.old.units }
    {
        let scope = self.bind(scope, name, v)?;
        Ok(Some(scope))
    }
}
