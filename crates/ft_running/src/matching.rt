//! Patterns against values.

ghost use Rattle.std.specs.Prelude.{◌≡◌, map, IfOk};
ghost use Rattle.ft_kernel.specs.State.{IsThesisOf};
ghost use Rattle.ft_meaning.specs.Matching.{matches, match_arguments, ◌and_also◌};
ghost use Rattle.ft_meaning.specs.Trees.{pattern, patterns};
ghost use Rattle.ft_values.specs.Kept.{stated_at};
ghost use Rattle.ft_running.specs.Evaluation.{run_of, value_over, IsValueOf, IsScopeIn};
ghost use Rattle.ft_running.specs.Evaluation.{environment_of, GoesFurther};
ghost use Rattle.ft_running.specs.Matching.{matches_argument};
ghost use Rattle.ft_running.specs.Telling.{TellsMatch};

use crate::literals::stuck;
use crate::state::State;
use ft_grammar::Pattern;
use ft_kernel::J;
use ft_telling::Halt;
use ft_values::{Scope, Value};

impl State {
    /// A pattern against a value in a scope, at the place of the match: the scope with the names of
    /// the pattern, or None where it does not match.
    #[cycle(matching)]
    #[tactic(auto, using(crate::proofs::Told::cons_told, crate::proofs::Told::no_cons_told, crate::proofs::Told::some_told, crate::proofs::Told::no_some_told, crate::proofs::Told::pair_told, crate::proofs::Told::symbol_told, crate::proofs::Told::named_told))]
    pub fn matches(
        &mut self,
        at: u64,
        wanted: &Pattern,
        v: Value,
        scope: Scope,
    ) -> Result<Option<Scope>, Halt>
        requires value { IsValueOf self.old v }
        requires scope { IsScopeIn self.old scope }
        ensures tells { TellsMatch
            (matches at (pattern wanted.now) (value_over self.old v)
            (environment_of self.old scope) (run_of self.old))
            result self.new }
        ensures further { GoesFurther self.old self.new }
        ensures units { self.new.units ≡ self.old.units }
    {
        match wanted {
            Pattern::Cons(_, p, q) => match self.list_parts(v) {
                Some(parts) => self.match_both(at, p.get(), q.get(), parts, scope),
                None => self.match_no_member(at, v),
            },
            Pattern::SomeWord(_, p) => match self.option_part(v) {
                Some(part) => self.matches(at, p.get(), part, scope),
                None => self.match_nothing(at, v),
            },
            Pattern::Symbol(_, name, ps) => match self.applied(at, name, v) {
                Ok(Some(j)) => self.match_arguments(at, ps.as_slice(), j, scope),
                Ok(None) => Ok(None),
                Err(halt) => Err(halt),
            },
            Pattern::Name(_, name) => self.match_name(name, v, scope),
            Pattern::Wildcard(_) => Ok(Some(scope)),
            Pattern::TrueWord(_) => self.match_truth(at, true, v, scope),
            Pattern::FalseWord(_) => self.match_truth(at, false, v, scope),
            Pattern::Unit(_) => self.match_unit(at, v, scope),
            Pattern::NoneWord(_) => self.match_none(at, v, scope),
            Pattern::Nil(_) => self.match_nil(at, v, scope),
            Pattern::Pair(_, p, q) => match self.pair_parts(v) {
                Some(parts) => self.match_both(at, p.get(), q.get(), parts, scope),
                None => Err(stuck(at)),
            },
        }
    }

    // Two patterns against two values, the second over what the first names.
    #[cycle(matching)]
    fn match_both(
        &mut self,
        at: u64,
        p: &Pattern,
        q: &Pattern,
        parts: (Value, Value),
        scope: Scope,
    ) -> Result<Option<Scope>, Halt>
        requires first { IsValueOf self.old parts.0 }
        requires second { IsValueOf self.old parts.1 }
        requires scope { IsScopeIn self.old scope }
        ensures tells { TellsMatch
            ((matches at (pattern p.now) (value_over self.old parts.0)
            (environment_of self.old scope)
            and_also matches at (pattern q.now) (value_over self.old parts.1))
            (run_of self.old))
            result self.new }
        ensures further { GoesFurther self.old self.new }
        ensures units { self.new.units ≡ self.old.units }
    {
        self.holds();
        match self.matches(at, p, parts.0, scope) {
            Ok(Some(found)) => self.matches(at, q, parts.1, found),
            Ok(None) => Ok(None),
            Err(halt) => Err(halt),
        }
    }

    // A pattern against the argument at a place.
    #[cycle(matching)]
    fn match_argument(
        &mut self,
        at: u64,
        p: &Pattern,
        j: J,
        i: u64,
        scope: Scope,
    ) -> Result<Option<Scope>, Halt>
        requires thesis { IsThesisOf self.old.list j }
        requires scope { IsScopeIn self.old scope }
        ensures tells { TellsMatch
            (matches_argument at (pattern p.now) (stated_at self.old.list j) i
            (environment_of self.old scope) (run_of self.old))
            result self.new }
        ensures further { GoesFurther self.old self.new }
        ensures units { self.new.units ≡ self.old.units }
    {
        self.holds();
        match self.argument_value(at, j, i) {
            Ok(v) => self.matches(at, p, v, scope),
            Err(halt) => Err(halt),
        }
    }

    // Patterns against the arguments of an application, from the first on.
    #[cycle(matching)]
    fn match_arguments(
        &mut self,
        at: u64,
        ps: &[Pattern],
        j: J,
        scope: Scope,
    ) -> Result<Option<Scope>, Halt>
        requires thesis { IsThesisOf self.old.list j }
        requires scope { IsScopeIn self.old scope }
        ensures tells { TellsMatch
            (match_arguments at (patterns (map pattern ps.now)) (stated_at self.old.list j) 1
            (environment_of self.old scope) (run_of self.old))
            result self.new }
        ensures further { GoesFurther self.old self.new }
        ensures units { self.new.units ≡ self.old.units }
    {
        self.holds();
        let mut found = scope;
        'matching: for (i, p) in ps.iter().enumerate() {
            match self.match_argument(at, p, j, i as u64 + 1, found) {
                Ok(Some(next)) => found = next,
                Ok(None) => return Ok(None),
                Err(halt) => return Err(halt),
            }
        }
        Ok(Some(found))
    }
}
