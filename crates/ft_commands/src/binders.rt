//! The binders of a premise.

ghost use Rattle.std.specs.Prelude.{◌≡◌, ◌++◌, ◌∷◌, [], List, map, IfOk, OnOk};
ghost use Rattle.ft_meaning.specs.Trees.{binder};
ghost use Rattle.ft_meaning.specs.Commands.{bind_all};
ghost use Rattle.ft_running.specs.Evaluation.{run_of, environment_of, IsScopeIn, GoesFurther};
ghost use Rattle.ft_eval.specs.Asking.{AsksNothing};
ghost use Rattle.ft_eval.specs.CommandsAsking.{BindersAskNothing};
ghost use Rattle.ft_commands.specs.Runs.{bind_one};
ghost use Rattle.ft_commands.specs.Telling.{TellsBound, TellsBindings};

use ft_base::Memory;
use ft_drafting::Bound;
use ft_eval::evaluate;
use ft_grammar::Binder;
use ft_running::{End, State};
use ft_values::Scope;

/// The variables that the binders of a premise bind, in their order, and the scope after them.
#[derive(Drop)]
pub struct Bindings {
    pub scope: Scope,
    pub bounds: Vec<Bound>,
}

// A binder: its variable, and the scope after it.
#[tactic(auto, using(crate::proofs::Binding::one_bound, crate::proofs::Binding::domain_ends, crate::proofs::Binding::term_ends, crate::proofs::Binding::memory_ends, ft_running::proofs::Further::further_both, ft_running::proofs::Further::scope_further))]
fn bind_one(state: &mut State, b: &Binder, scope: Scope) -> Result<(Bound, Scope), End>
    requires scope { IsScopeIn state.old scope }
    requires asks { AsksNothing (binder b.now).domain }
    ensures tells { TellsBound
        (bind_one (binder b.now) (environment_of state.old scope) (run_of state.old)) result
        state.new }
    ensures further { GoesFurther state.old state.new }
{
    state.holds();
    let v = match evaluate(state, &b.domain, scope) {
        Ok(v) => v,
        Err(end) => return Err(end),
    };
    let (variable, term) = match state.new_term(b.name.at, &b.name.name, v) {
        Ok(pair) => pair,
        Err(end) => return Err(end),
    };
    state.holds();
    match state.bind(scope, &b.name.name, term) {
        Ok(inner) => Ok((
            Bound {
                at: b.name.at,
                variable,
            },
            inner,
        )),
        Err(memory) => Err(End::from(memory)),
    }
}

// One more variable.
fn push(bounds: &mut Vec<Bound>, x: Bound) -> Result<(), Memory>
    ensures { OnOk result (bounds.new.items ≡ bounds.old.items ++ x ∷ []) }
{
    bounds.push(x)?;
    Ok(())
}

/// The binders in turn.
pub(crate) fn bind_all(state: &mut State, binders: &[Binder], scope: Scope) -> Result<Bindings, End>
    requires scope { IsScopeIn state.old scope }
    requires asks { BindersAskNothing (map binder binders.now) }
    ensures tells { TellsBindings
        (bind_all (map binder binders.now) (environment_of state.old scope) [] (run_of state.old))
        result state.new }
    ensures further { GoesFurther state.old state.new }
{
    state.holds();
    let mut bounds = Vec::new(state.allocator());
    let mut scope = scope;
    for b in binders {
        let (x, inner) = match bind_one(state, b, scope) {
            Ok(pair) => pair,
            Err(end) => return Err(end),
        };
        match push(&mut bounds, x) {
            Ok(()) => scope = inner,
            Err(memory) => return Err(End::from(memory)),
        }
    }
    Ok(Bindings { scope, bounds })
}
