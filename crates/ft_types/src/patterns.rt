//! The names of patterns with their types.

ghost use Rattle.std.specs.Prelude.{length, map, OnOk};
ghost use Rattle.ft_meaning.specs.Trees.{pattern, patterns, name_pattern};
ghost use Rattle.ft_meaning.specs.Typing.{bindings, all_bindings};
ghost use Rattle.ft_types.specs.Types.{type_in, Below};
ghost use Rattle.ft_types.specs.Names.{listed};
ghost use Rattle.ft_types.specs.Checking.{scope_of, ValuesBelow, Binds, Tests, symbol_wanted};

use crate::checker::{Checker, fits_arity, last_named, twice, unbound};
use crate::fault::TypeFault;
use crate::names::Entry;
use crate::types::KnownType;
use ft_base::Name;
use ft_grammar::{Named, Pattern};

impl Checker {
    // Puts a name after those that were found before, among which it is not.
    #[tactic(auto, using(crate::proofs::Bindings::bound_more, crate::proofs::Bindings::found_below, crate::proofs::Scopes::renamed_some, crate::proofs::Scopes::renamed_none))]
    fn bind_name(
        &self,
        at: u64,
        name: &Name,
        t: KnownType,
        found: &mut Vec<Entry<KnownType>>,
    ) -> Result<(), TypeFault>
        requires below { Below (length self.now.types) t }
        requires found_below { ValuesBelow (length self.now.types) (listed found.old.items) }
        ensures below { OnOk result (ValuesBelow (length self.now.types) (listed found.new.items)) }
        ensures binds { Binds self.now found.old.items found.new.items result
            (bindings (name_pattern at name.now) (scope_of self.now) (type_in self.now.types t)) }
    {
        if last_named(found, name).is_some() {
            return Err(twice(at, name));
        }
        let name = name.copy()?;
        found.push(Entry { name, meaning: t })?;
        Ok(())
    }

    /// Puts the names of a pattern against the type after those that were found before, among which
    /// they are not.
    #[cycle(binding)]
    #[tactic(auto, using(crate::proofs::Rules::written_patterns, crate::proofs::Bindings::bindings_cons, crate::proofs::Bindings::bindings_some, crate::proofs::Bindings::bindings_none, crate::proofs::Bindings::bindings_nil, crate::proofs::Bindings::bindings_pair, crate::proofs::Bindings::symbol_fails, crate::proofs::Bindings::symbol_goes))]
    pub fn bindings(
        &self,
        p: &Pattern,
        t: KnownType,
        found: &mut Vec<Entry<KnownType>>,
    ) -> Result<(), TypeFault>
        requires below { Below (length self.now.types) t }
        requires found_below { ValuesBelow (length self.now.types) (listed found.old.items) }
        ensures below { OnOk result (ValuesBelow (length self.now.types) (listed found.new.items)) }
        ensures binds { Binds self.now found.old.items found.new.items result
            (bindings (pattern p.now) (scope_of self.now) (type_in self.now.types t)) }
    {
        match p {
            Pattern::Cons(at, p, q) => {
                let part = self.list_part(*at, t)?;
                self.bindings(p.get(), part, found)?;
                self.bindings(q.get(), t, found)
            }
            Pattern::SomeWord(at, p) => {
                let part = self.option_part(*at, t)?;
                self.bindings(p.get(), part, found)
            }
            Pattern::Symbol(at, n, ps) => {
                self.ensure_type(*at, KnownType::Judgement, t)?;
                self.symbol(n, ps.len() as u64)?;
                self.parts_bindings(ps.as_slice(), found)
            }
            Pattern::Name(at, name) => self.bind_name(*at, name, t, found),
            Pattern::Wildcard(_) => Ok(()),
            Pattern::TrueWord(at) | Pattern::FalseWord(at) => self.ensure_type(
                *at,
                KnownType::Bool,
                t,
            ),
            Pattern::Unit(at) => self.ensure_type(*at, KnownType::Unit, t),
            Pattern::NoneWord(at) => {
                self.option_part(*at, t)?;
                Ok(())
            }
            Pattern::Nil(at) => {
                self.list_part(*at, t)?;
                Ok(())
            }
            Pattern::Pair(at, p, q) => {
                let (first, second) = self.pair_parts(*at, t)?;
                self.bindings(p.get(), first, found)?;
                self.bindings(q.get(), second, found)
            }
        }
    }

    // The names of patterns against `judgement`.
    #[cycle(binding)]
    fn parts_bindings(
        &self,
        ps: &[Pattern],
        found: &mut Vec<Entry<KnownType>>,
    ) -> Result<(), TypeFault>
        requires { ValuesBelow (length self.now.types) (listed found.old.items) }
        ensures below { OnOk result (ValuesBelow (length self.now.types) (listed found.new.items)) }
        ensures binds { Binds self.now found.old.items found.new.items result
            (all_bindings (patterns (map pattern ps.now)) (scope_of self.now)) }
    {
        for p in ps {
            self.bindings(p, KnownType::Judgement, found)?;
        }
        Ok(())
    }

    // The name is a symbol's, and so many are given as it takes.
    #[tactic(auto, unfolding(crate::specs::Checking::symbol_wanted))]
    fn symbol(&self, n: &Named, given: u64) -> Result<(), TypeFault>
        ensures { Tests (symbol_wanted n.now given (scope_of self.now)) result }
    {
        let rule = self.rule(n)?;
        if !rule.is_symbol {
            return Err(unbound(n));
        }
        fits_arity(n, rule.premises, given)
    }
}
