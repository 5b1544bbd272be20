//! Variables that were bound in turn, and metavariables.

ghost use Rattle.ft_reference.specs.Nucleus as reference;
ghost use Rattle.ft_meaning.specs.Values.{nucleus};
ghost use Rattle.ft_meaning.specs.Commands.{abstract_all};
ghost use Rattle.ft_meaning.specs.Forms.{judged};
ghost use Rattle.ft_kernel.specs.State.{IsBoundaryOf};
ghost use Rattle.ft_rules.specs.Drafts.{met_of};
ghost use Rattle.ft_telling.specs.Telling.{variable_at};
ghost use Rattle.ft_values.specs.Kept.{stated_at};
ghost use Rattle.ft_running.specs.Evaluation.{run_of, GoesFurther};
ghost use Rattle.ft_running.specs.Asked.{TellsGoal, IsVariableIn};
ghost use Rattle.ft_running.specs.Telling.{TellsValue};
ghost use Rattle.ft_drafting.specs.Drafting.{AreBoundIn, bounds_over, IsMetavariableIn};

use crate::answered::{concluded, goal};
use crate::called;
use ft_kernel::{B, M, V};
use ft_running::{End, State};
use ft_values::Value;

/// A variable of a premise, with the place of its name.
#[derive(Clone, Copy, Debug, Drop)]
pub struct Bound {
    pub at: u64,
    pub variable: V,
}

// The boundary with a variable bound.
fn abstract_one(state: &mut State, at: u64, y: V, b: B) -> Result<B, End>
    requires variable { IsVariableIn state.old y }
    requires boundary { IsBoundaryOf state.old.list b }
    ensures tells { TellsGoal
        (nucleus at (λ W. reference.abstract_variable W (variable_at state.old.list y)
        (stated_at state.old.list b)) (run_of state.old)) result state.new }
    ensures further { GoesFurther state.old state.new }
{
    state.holds();
    let answer = called::bound(&mut state.kernel, at, y, b);
    let _items = state.kernel.len();
    goal(state, answer)
}

/// The boundary with the variables bound, the last of them first.
pub fn abstract_all(state: &mut State, bounds: &[Bound], b: B) -> Result<B, End>
    requires variables { AreBoundIn state.old bounds.now }
    requires boundary { IsBoundaryOf state.old.list b }
    ensures tells { TellsGoal
        (abstract_all (bounds_over state.old bounds.now) (stated_at state.old.list b)
        (run_of state.old)) result state.new }
    ensures further { GoesFurther state.old state.new }
{
    let mut bound = b;
    'binding: for i in (0..bounds.len()).rev() {
        let last = bounds[i];
        match abstract_one(state, last.at, last.variable, bound) {
            Ok(next) => bound = next,
            Err(end) => return Err(end),
        }
    }
    Ok(bound)
}

/// The metavariable at its bound variables.
pub fn generic(state: &mut State, at: u64, metavariable: M) -> Result<Value, End>
    requires { IsMetavariableIn state.old metavariable }
    ensures tells { TellsValue
        (judged at (λ W. reference.generic W (met_of state.old.list.items metavariable))
        (run_of state.old)) result state.new }
    ensures further { GoesFurther state.old state.new }
{
    state.holds();
    let answer = called::generic(state.alloc, &mut state.kernel, at, metavariable);
    let _items = state.kernel.len();
    concluded(state, answer)
}
