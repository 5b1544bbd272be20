//! Calls of the nucleus for boundaries and metavariables, and what they tell of a run.

ghost use Rattle.std.specs.Prelude.{◌<◌, IfOk, length};
ghost use Rattle.ft_items.specs.Store.{metavariables_in};
ghost use Rattle.ft_reference.specs.Nucleus as reference;
ghost use Rattle.ft_meaning.specs.Values.{nucleus};
ghost use Rattle.ft_meaning.specs.Forms.{judged};
ghost use Rattle.ft_kernel.specs.State.{IsThesisOf, IsBoundaryOf, IsVariableOf};
ghost use Rattle.ft_rules.specs.Drafts.{IsPlainBoundaryOf, met_of};
ghost use Rattle.ft_values.specs.Kept.{stated_at};
ghost use Rattle.ft_telling.specs.Telling.{variable_at};
ghost use Rattle.ft_calling.specs.Calling.{ToldGoal, ToldJudgement};

use ft_kernel::{B, J, Kernel, M, V};
use ft_telling::{Halt, halted, halted_boundary};
use std::alloc::Global;

/// The boundary of types.
#[tactic(auto, using(crate::proofs::Bounded::type_told, crate::proofs::Bounded::type_plain))]
pub(crate) fn types(alloc: Global, k: &mut Kernel, at: u64) -> Result<B, Halt>
    ensures told { ToldGoal k.old (nucleus at reference.boundary_type) result k.new }
    ensures plain { IfOk result (λ b. IsPlainBoundaryOf k.new b) }
{
    halted_boundary(at, ft_nucleus::boundary_type(alloc, k))
}

/// The boundary of terms of a type.
#[tactic(auto, using(crate::proofs::Bounded::term_told, crate::proofs::Bounded::term_plain))]
pub(crate) fn terms(alloc: Global, k: &mut Kernel, at: u64, ty: J) -> Result<B, Halt>
    requires { IsThesisOf k.old ty }
    ensures told { ToldGoal k.old
        (nucleus at (λ W. reference.boundary_term W (stated_at k.old ty))) result k.new }
    ensures plain { IfOk result (λ b. IsPlainBoundaryOf k.new b) }
{
    halted_boundary(at, ft_nucleus::boundary_term(alloc, k, ty))
}

/// The boundary of equations between two types.
#[tactic(auto, using(crate::proofs::Bounded::types_told, crate::proofs::Bounded::types_plain))]
pub(crate) fn type_equations(
    alloc: Global,
    k: &mut Kernel,
    at: u64,
    left: J,
    right: J,
) -> Result<B, Halt>
    requires theses { IsThesisOf k.old left × IsThesisOf k.old right }
    ensures told { ToldGoal k.old
        (nucleus at (λ W. reference.boundary_eq_type W (stated_at k.old left)
        (stated_at k.old right)))
        result k.new }
    ensures plain { IfOk result (λ b. IsPlainBoundaryOf k.new b) }
{
    halted_boundary(at, ft_nucleus::boundary_eq_type(alloc, k, left, right))
}

/// The boundary of equations between two terms of a type.
#[tactic(auto, using(crate::proofs::Bounded::terms_told, crate::proofs::Bounded::terms_plain))]
pub(crate) fn term_equations(
    alloc: Global,
    k: &mut Kernel,
    at: u64,
    ty: J,
    left: J,
    right: J,
) -> Result<B, Halt>
    requires ty { IsThesisOf k.old ty }
    requires sides { IsThesisOf k.old left × IsThesisOf k.old right }
    ensures told { ToldGoal k.old
        (nucleus at (λ W. reference.boundary_eq_term W (stated_at k.old ty)
        (stated_at k.old left) (stated_at k.old right)))
        result k.new }
    ensures plain { IfOk result (λ b. IsPlainBoundaryOf k.new b) }
{
    halted_boundary(at, ft_nucleus::boundary_eq_term(alloc, k, ty, left, right))
}

/// The boundary with the variable bound.
#[tactic(auto, using(crate::proofs::BoundInTurn::bound_told))]
pub(crate) fn bound(k: &mut Kernel, at: u64, y: V, b: B) -> Result<B, Halt>
    requires variable { IsVariableOf k.old y }
    requires boundary { IsBoundaryOf k.old b }
    ensures told { ToldGoal k.old
        (nucleus at (λ W. reference.abstract_variable W (variable_at k.old y)
        (stated_at k.old b)))
        result k.new }
{
    let _terms = k.terms();
    halted_boundary(at, ft_nucleus::abstract_boundary(k, y, b))
}

/// The metavariable at its bound variables.
#[tactic(auto, using(crate::proofs::BoundInTurn::generic_told))]
pub(crate) fn generic(alloc: Global, k: &mut Kernel, at: u64, m: M) -> Result<J, Halt>
    requires { m < length (metavariables_in k.old.items) }
    ensures told { ToldJudgement k.old
        (judged at (λ W. reference.generic W (met_of k.old.items m))) result k.new }
{
    let _terms = k.terms();
    halted(at, ft_metas::generic(alloc, k, m))
}
