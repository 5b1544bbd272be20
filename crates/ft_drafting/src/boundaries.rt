//! The boundaries of premises and conclusions.

ghost use Rattle.std.specs.Prelude.{IfOk};
ghost use Rattle.ft_reference.specs.Nucleus as reference;
ghost use Rattle.ft_meaning.specs.Values.{nucleus};
ghost use Rattle.ft_kernel.specs.State.{IsThesisOf};
ghost use Rattle.ft_rules.specs.Drafts.{IsPlainBoundaryOf};
ghost use Rattle.ft_values.specs.Kept.{stated_at};
ghost use Rattle.ft_running.specs.Evaluation.{run_of, GoesFurther};
ghost use Rattle.ft_running.specs.Asked.{TellsGoal};

use crate::answered::goal;
use crate::called;
use ft_kernel::{B, J};
use ft_running::{End, State};

/// The boundary of types.
pub fn boundary_type(state: &mut State, at: u64) -> Result<B, End>
    ensures tells { TellsGoal (nucleus at reference.boundary_type (run_of state.old)) result
        state.new }
    ensures plain { IfOk result (λ b. IsPlainBoundaryOf state.new.list b) }
    ensures further { GoesFurther state.old state.new }
{
    state.holds();
    let answer = called::types(state.alloc, &mut state.kernel, at);
    let _items = state.kernel.len();
    goal(state, answer)
}

/// The boundary of terms of a type.
pub fn boundary_term(state: &mut State, at: u64, ty: J) -> Result<B, End>
    requires { IsThesisOf state.old.list ty }
    ensures tells { TellsGoal
        (nucleus at (λ W. reference.boundary_term W (stated_at state.old.list ty))
        (run_of state.old)) result state.new }
    ensures plain { IfOk result (λ b. IsPlainBoundaryOf state.new.list b) }
    ensures further { GoesFurther state.old state.new }
{
    state.holds();
    let answer = called::terms(state.alloc, &mut state.kernel, at, ty);
    let _items = state.kernel.len();
    goal(state, answer)
}

/// The boundary of equations between two types.
pub fn boundary_types(state: &mut State, at: u64, left: J, right: J) -> Result<B, End>
    requires theses { IsThesisOf state.old.list left × IsThesisOf state.old.list right }
    ensures tells { TellsGoal
        (nucleus at (λ W. reference.boundary_eq_type W (stated_at state.old.list left)
        (stated_at state.old.list right)) (run_of state.old)) result state.new }
    ensures plain { IfOk result (λ b. IsPlainBoundaryOf state.new.list b) }
    ensures further { GoesFurther state.old state.new }
{
    state.holds();
    let answer = called::type_equations(state.alloc, &mut state.kernel, at, left, right);
    let _items = state.kernel.len();
    goal(state, answer)
}

/// The boundary of equations between two terms of a type.
pub fn boundary_terms(state: &mut State, at: u64, ty: J, left: J, right: J) -> Result<B, End>
    requires ty { IsThesisOf state.old.list ty }
    requires sides { IsThesisOf state.old.list left × IsThesisOf state.old.list right }
    ensures tells { TellsGoal
        (nucleus at (λ W. reference.boundary_eq_term W (stated_at state.old.list ty)
        (stated_at state.old.list left) (stated_at state.old.list right)) (run_of state.old))
        result state.new }
    ensures plain { IfOk result (λ b. IsPlainBoundaryOf state.new.list b) }
    ensures further { GoesFurther state.old state.new }
{
    state.holds();
    let answer = called::term_equations(state.alloc, &mut state.kernel, at, ty, left, right);
    let _items = state.kernel.len();
    goal(state, answer)
}
