//! The boundaries that premises ask for and rules conclude.

ghost use Rattle.std.specs.Prelude.{IfOk, option_map};
ghost use Rattle.ft_meaning.specs.Trees.{form, term_body, types_body, terms_body, equation_body};
ghost use Rattle.ft_meaning.specs.Commands.{boundary_by};
ghost use Rattle.ft_rules.specs.Drafts.{IsPlainBoundaryOf};
ghost use Rattle.ft_running.specs.Evaluation.{run_of, environment_of, IsScopeIn, GoesFurther};
ghost use Rattle.ft_running.specs.Asked.{TellsGoal};
ghost use Rattle.ft_eval.specs.Asking.{AsksNothing};
ghost use Rattle.ft_eval.specs.CommandsAsking.{BodyAsksNothing};
ghost use Rattle.ft_commands.specs.Parts.{body_of, body_place, conclusion_of, conclusion_place};

use crate::claims::claim;
use ft_drafting::{boundary_term, boundary_terms, boundary_type, boundary_types};
use ft_grammar::{Ast, Body, Conclusion};
use ft_kernel::B;
use ft_running::{End, State};
use ft_values::Scope;

// The boundary of terms of a type.
#[tactic(auto, using(crate::proofs::Bounded::term_bounded, crate::proofs::Bounded::term_ends, ft_running::proofs::Further::further_both))]
fn of_term(state: &mut State, at: u64, ty: &Ast, scope: Scope) -> Result<B, End>
    requires scope { IsScopeIn state.old scope }
    requires asks { AsksNothing (form ty.now) }
    ensures tells { TellsGoal
        (boundary_by at (term_body (form ty.now)) (environment_of state.old scope)
        (run_of state.old)) result state.new }
    ensures plain { IfOk result (λ b. IsPlainBoundaryOf state.new.list b) }
    ensures further { GoesFurther state.old state.new }
{
    let ty = match claim(state, ty, scope) {
        Ok(ty) => ty,
        Err(end) => return Err(end),
    };
    boundary_term(state, at, ty)
}

// The boundary of equations between two types.
#[tactic(auto, using(crate::proofs::Bounded::types_bounded, crate::proofs::Bounded::types_first_ends, crate::proofs::Bounded::types_second_ends, ft_running::proofs::Further::further_both, ft_running::proofs::Further::scope_further, ft_running::proofs::Further::thesis_further))]
fn of_types(state: &mut State, at: u64, left: &Ast, right: &Ast, scope: Scope) -> Result<B, End>
    requires scope { IsScopeIn state.old scope }
    requires asks { AsksNothing (form left.now) × AsksNothing (form right.now) }
    ensures tells { TellsGoal
        (boundary_by at (types_body (form left.now) (form right.now))
        (environment_of state.old scope) (run_of state.old)) result state.new }
    ensures plain { IfOk result (λ b. IsPlainBoundaryOf state.new.list b) }
    ensures further { GoesFurther state.old state.new }
{
    state.holds();
    let a = match claim(state, left, scope) {
        Ok(a) => a,
        Err(end) => return Err(end),
    };
    let b = match claim(state, right, scope) {
        Ok(b) => b,
        Err(end) => return Err(end),
    };
    boundary_types(state, at, a, b)
}

// The boundary of equations between two terms of a type.
#[tactic(auto, using(crate::proofs::Bounded::terms_bounded, crate::proofs::Bounded::terms_first_ends, crate::proofs::Bounded::terms_second_ends, crate::proofs::Bounded::terms_third_ends, ft_running::proofs::Further::further_both, ft_running::proofs::Further::scope_further, ft_running::proofs::Further::thesis_further))]
fn of_terms(
    state: &mut State,
    at: u64,
    left: &Ast,
    right: &Ast,
    ty: &Ast,
    scope: Scope,
) -> Result<B, End>
    requires scope { IsScopeIn state.old scope }
    requires asks { AsksNothing (form left.now) × AsksNothing (form right.now)
        × AsksNothing (form ty.now) }
    ensures tells { TellsGoal
        (boundary_by at (terms_body (form left.now) (form right.now) (form ty.now))
        (environment_of state.old scope) (run_of state.old)) result state.new }
    ensures plain { IfOk result (λ b. IsPlainBoundaryOf state.new.list b) }
    ensures further { GoesFurther state.old state.new }
{
    state.holds();
    let s = match claim(state, left, scope) {
        Ok(s) => s,
        Err(end) => return Err(end),
    };
    let t = match claim(state, right, scope) {
        Ok(t) => t,
        Err(end) => return Err(end),
    };
    let a = match claim(state, ty, scope) {
        Ok(a) => a,
        Err(end) => return Err(end),
    };
    boundary_terms(state, at, a, s, t)
}

// The boundary of equations, at a type where one is written.
fn of_equation(
    state: &mut State,
    at: u64,
    left: &Ast,
    right: &Ast,
    ty: &Option<Ast>,
    scope: Scope,
) -> Result<B, End>
    requires scope { IsScopeIn state.old scope }
    requires asks { BodyAsksNothing (equation_body left.now right.now ty.now) }
    ensures tells { TellsGoal
        (boundary_by at (equation_body left.now right.now ty.now)
        (environment_of state.old scope) (run_of state.old)) result state.new }
    ensures plain { IfOk result (λ b. IsPlainBoundaryOf state.new.list b) }
    ensures further { GoesFurther state.old state.new }
{
    match ty {
        None => of_types(state, at, left, right, scope),
        Some(ty) => of_terms(state, at, left, right, ty, scope),
    }
}

/// The boundary that a premise asks for.
pub(crate) fn of_body(state: &mut State, body: &Body, scope: Scope) -> Result<B, End>
    requires scope { IsScopeIn state.old scope }
    requires asks { BodyAsksNothing (body_of body.now) }
    ensures tells { TellsGoal
        (boundary_by (body_place body.now) (body_of body.now) (environment_of state.old scope)
        (run_of state.old)) result state.new }
    ensures plain { IfOk result (λ b. IsPlainBoundaryOf state.new.list b) }
    ensures further { GoesFurther state.old state.new }
{
    match body {
        Body::Type(at, _) => boundary_type(state, *at),
        Body::Term(at, _, ty) => of_term(state, *at, ty, scope),
        Body::Equation(at, left, right, ty, _) => of_equation(state, *at, left, right, ty, scope),
    }
}

/// The boundary that a rule concludes.
pub(crate) fn of_conclusion(
    state: &mut State,
    conclusion: &Conclusion,
    scope: Scope,
) -> Result<B, End>
    requires scope { IsScopeIn state.old scope }
    requires asks { BodyAsksNothing (conclusion_of conclusion.now) }
    ensures tells { TellsGoal
        (boundary_by (conclusion_place conclusion.now) (conclusion_of conclusion.now)
        (environment_of state.old scope) (run_of state.old)) result state.new }
    ensures plain { IfOk result (λ b. IsPlainBoundaryOf state.new.list b) }
    ensures further { GoesFurther state.old state.new }
{
    match conclusion {
        Conclusion::Type(at) => boundary_type(state, *at),
        Conclusion::Term(at, ty) => of_term(state, *at, ty, scope),
        Conclusion::Equation(at, left, right, ty) => {
            of_equation(state, *at, left, right, ty, scope)
        }
    }
}
