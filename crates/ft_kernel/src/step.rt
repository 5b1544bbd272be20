//! The steps that entries state.

use crate::token::{B, J, Judgements, M, RuleId, V};

/// What a step that serves theses and boundaries alike is made from.
#[derive(Clone, Copy, Debug, PartialEq, Eq)]
pub enum Part {
    Thesis(J),
    Boundary(B),
}

/// The step of an entry, with what it names. Each variant has the name of its word in a derivation file.
#[derive(Debug, Drop)]
pub enum Step {
    /// The variable at its type.
    Var(V),
    /// The metavariable at its bound variables.
    Generic(M),
    /// The metavariable at terms.
    Meta(M, Judgements),
    /// The metavariable at equal terms.
    Metacong(M, Judgements),
    /// Abstraction of a variable.
    Abs(V, Part),
    /// A term for the first domain.
    Subst(Part, J),
    /// Equal terms for the first domain.
    Substeq(J, J),
    /// Reflexivity.
    Refl(J),
    /// Symmetry.
    Sym(J),
    /// Transitivity.
    Trans(J, J),
    /// Conversion of a term.
    Conv(J, J),
    /// Conversion of an equation of terms.
    Conveq(J, J),
    /// The left side.
    Left(Part),
    /// The right side.
    Right(Part),
    /// The type.
    Typeof(Part),
    /// The first domain.
    Domain(Part),
    /// The boundary of a thesis.
    Boundary(J),
    /// The first thesis with both sets.
    Widen(J, J),
    /// The boundary of a type.
    Btype,
    /// The boundary of a term at a type.
    Bterm(J),
    /// The boundary of an equation of types.
    Beqty(J, J),
    /// The boundary of an equation of terms, the type first.
    Beqtm(J, J, J),
    /// A rule at arguments.
    Rule(RuleId, Judgements),
    /// A rule at arguments, with the conclusion boundary.
    Rulewith(RuleId, B, Judgements),
    /// The next boundary of a rule at arguments.
    Inst(RuleId, Judgements),
    /// A symbol at equal arguments: the left arguments, then the equations.
    Cong(RuleId, Judgements, Judgements),
    /// An argument moved to the boundary at the right sides.
    Convprem(RuleId, Judgements, Judgements, J),
    /// An argument moved to the boundary at the left sides.
    Convback(RuleId, Judgements, Judgements, J),
    /// The argument of an application at a place, from 1.
    Arg(u64, J),
    /// The natural type.
    Natural(J),
}
