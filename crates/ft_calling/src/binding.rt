//! Variables: declared, at their types, bound, and terms for them.

ghost use Rattle.std.specs.Prelude.{◌≤◌, ◌+◌, OnOk};
ghost use Rattle.std.specs.Prelude.{◌≡◌};
ghost use Rattle.ft_reference.specs.Nucleus as reference;
ghost use Rattle.ft_meaning.specs.Values.{nucleus, judgement, boundary};
ghost use Rattle.ft_meaning.specs.Forms.{make_variable, abstract_value, substitute_value};
ghost use Rattle.ft_kernel.specs.State.{IsThesisOf, IsBoundaryOf, IsVariableOf};
ghost use Rattle.ft_values.specs.Kept.{stated_at};
ghost use Rattle.ft_telling.specs.Telling.{variable_at};
ghost use Rattle.ft_calling.specs.Calling.{VariablesBelow, ToldVariable, ToldThesis};
ghost use Rattle.ft_calling.specs.Calling.{ToldJudgement, ToldBoundary};

use ft_base::{Name, Units};
use ft_kernel::{B, J, Kernel, V};
use ft_telling::{Halt, halted, halted_boundary, halted_variable, spend};
use std::alloc::Global;

/// A new variable of the type, for one unit, which is spent also where the type is refused. Its
/// number is that of the units used before.
#[tactic(auto, using(crate::proofs::VariablesCalled::variable_told, crate::proofs::VariablesCalled::unspent_told))]
pub fn new_variable(
    k: &mut Kernel,
    at: u64,
    name: &Name,
    ty: J,
    units: &mut Units,
) -> Result<V, Halt>
    requires ty { IsThesisOf k.old ty }
    requires below { VariablesBelow units.old.used k.old }
    ensures told { ToldVariable k.old units.old (make_variable at name.now (stated_at k.old ty))
        result k.new units.new }
    ensures used { OnOk result (units.new.used ≡ units.old.used + 1) }
    ensures more { units.old.used ≤ units.new.used }
    ensures total { units.new.total ≡ units.old.total }
{
    let _terms = k.terms();
    let number = units.used();
    match spend(k, at, units) {
        Ok(()) => {}
        Err(halt) => return Err(halt),
    }
    let _used = units.used();
    halted_variable(at, ft_nucleus::new_var(k, number, name, ty))
}

/// The variable at its type.
#[tactic(auto, using(crate::proofs::VariablesCalled::term_told))]
pub fn variable(alloc: Global, k: &mut Kernel, at: u64, v: V) -> Result<J, Halt>
    requires { IsVariableOf k.old v }
    ensures told { ToldThesis k.old
        (nucleus at (λ W. reference.variable W (variable_at k.old v))) result k.new }
{
    let _terms = k.terms();
    halted(at, ft_nucleus::variable(alloc, k, v))
}

/// The judgement with the variable bound.
#[tactic(auto, using(crate::proofs::VariablesCalled::bound_told))]
pub fn abstract_judgement(k: &mut Kernel, at: u64, v: V, j: J) -> Result<J, Halt>
    requires variable { IsVariableOf k.old v }
    requires judgement { IsThesisOf k.old j }
    ensures told { ToldJudgement k.old
        (abstract_value at (variable_at k.old v) (judgement (stated_at k.old j))) result k.new }
{
    let _terms = k.terms();
    halted(at, ft_nucleus::abstract_var(k, v, j))
}

/// The boundary with the variable bound.
#[tactic(auto, using(crate::proofs::VariablesCalled::bound_boundary_told))]
pub fn abstract_boundary(k: &mut Kernel, at: u64, v: V, b: B) -> Result<B, Halt>
    requires variable { IsVariableOf k.old v }
    requires boundary { IsBoundaryOf k.old b }
    ensures told { ToldBoundary k.old
        (abstract_value at (variable_at k.old v) (boundary (stated_at k.old b))) result k.new }
{
    let _terms = k.terms();
    halted_boundary(at, ft_nucleus::abstract_boundary(k, v, b))
}

/// The judgement with the term for its first variable.
#[tactic(auto, using(crate::proofs::VariablesCalled::substituted_told))]
pub fn substitute_judgement(k: &mut Kernel, at: u64, j: J, t: J) -> Result<J, Halt>
    requires judgement { IsThesisOf k.old j }
    requires term { IsThesisOf k.old t }
    ensures told { ToldJudgement k.old
        (substitute_value at (judgement (stated_at k.old j)) (stated_at k.old t)) result k.new }
{
    let _terms = k.terms();
    halted(at, ft_nucleus::substitute(k, j, t))
}

/// The boundary with the term for its first variable.
#[tactic(auto, using(crate::proofs::VariablesCalled::substituted_boundary_told))]
pub fn substitute_boundary(k: &mut Kernel, at: u64, b: B, t: J) -> Result<B, Halt>
    requires boundary { IsBoundaryOf k.old b }
    requires term { IsThesisOf k.old t }
    ensures told { ToldBoundary k.old
        (substitute_value at (boundary (stated_at k.old b)) (stated_at k.old t)) result k.new }
{
    let _terms = k.terms();
    halted_boundary(at, ft_nucleus::substitute_boundary(k, b, t))
}
