//! The steps that a file states.

use crate::numbers::Numbers;

/// The step of an entry, with the numbers of what it names. Each variant has the name of its word in a derivation file.
#[derive(Debug, Drop)]
pub enum StatedStep {
    /// The variable at its type.
    Var(u64),
    /// The metavariable at its bound variables.
    Generic(u64),
    /// The metavariable at terms.
    Meta(u64, Numbers),
    /// The metavariable at equal terms.
    Metacong(u64, Numbers),
    /// Abstraction of a variable.
    Abs(u64, u64),
    /// A term for the first domain.
    Subst(u64, u64),
    /// Equal terms for the first domain.
    Substeq(u64, u64),
    /// Reflexivity.
    Refl(u64),
    /// Symmetry.
    Sym(u64),
    /// Transitivity.
    Trans(u64, u64),
    /// Conversion of a term.
    Conv(u64, u64),
    /// Conversion of an equation of terms.
    Conveq(u64, u64),
    /// The left side.
    Left(u64),
    /// The right side.
    Right(u64),
    /// The type.
    Typeof(u64),
    /// The first domain.
    Domain(u64),
    /// The boundary of a thesis.
    Boundary(u64),
    /// The first thesis with both sets.
    Widen(u64, u64),
    /// The boundary of a type.
    Btype,
    /// The boundary of a term at a type.
    Bterm(u64),
    /// The boundary of an equation of types.
    Beqty(u64, u64),
    /// The boundary of an equation of terms, the type first.
    Beqtm(u64, u64, u64),
    /// A rule at arguments.
    Rule(u64, Numbers),
    /// A rule at arguments, with the conclusion boundary.
    Rulewith(u64, u64, Numbers),
    /// The next boundary of a rule at arguments.
    Inst(u64, Numbers),
    /// A symbol at equal arguments: the left arguments, then the equations.
    Cong(u64, Numbers, Numbers),
    /// An argument moved to the boundary at the right sides.
    Convprem(u64, Numbers, Numbers, u64),
    /// An argument moved to the boundary at the left sides.
    Convback(u64, Numbers, Numbers, u64),
    /// The argument of an application at a place, from 1.
    Arg(u64, u64),
    /// The natural type.
    Natural(u64),
}
