//! Calls of the nucleus by what they are handed, so that a table can name them.

ghost use Rattle.std.specs.Prelude.{IfOk, IfErr, length};
ghost use Rattle.ft_kernel.specs.State.{IsThesisOf};
ghost use Rattle.ft_tests_nucleus.specs.Drafts.{Grows};
ghost use Rattle.ft_tests_nucleus.specs.Faults.{FaultBelow};

use ft_judge::Fault;
use ft_kernel::{J, Kernel};
use ft_nucleus::{
    Which, convert, convert_equation, refl, side, substitute, substitute_equal, sym, trans, widen,
};
use ft_parts::natural;
use std::alloc::Global;

/// Calls on one thesis that answer a thesis.
#[derive(Clone, Copy, Debug)]
pub enum One {
    Refl,
    Sym,
    Natural,
    Side(Which),
}

/// Calls on two theses that answer a thesis.
#[derive(Clone, Copy, Debug)]
pub enum Two {
    Trans,
    Convert,
    ConvertEquation,
    Widen,
    Substitute,
    SubstituteEqual,
}

/// A call on one thesis.
#[tactic(auto, using(crate::proofs::Below::answers_below, crate::proofs::Growing::answers_grow))]
pub fn of_one(alloc: Global, k: &mut Kernel, call: One, j: J) -> Result<J, Fault>
    requires { IsThesisOf k.old j }
    ensures grows { Grows k.old k.new }
    ensures thesis { IfOk result (λ j. IsThesisOf k.new j) }
    ensures below { IfErr result (λ f. FaultBelow (length k.new.trees) f) }
{
    match call {
        One::Refl => refl(k, j),
        One::Sym => sym(alloc, k, j),
        One::Natural => natural(alloc, k, j),
        One::Side(which) => side(alloc, k, j, which),
    }
}

/// A call on two theses.
#[tactic(auto, using(crate::proofs::Below::answers_below, crate::proofs::Growing::answers_grow))]
pub fn of_two(alloc: Global, k: &mut Kernel, call: Two, i: J, j: J) -> Result<J, Fault>
    requires first { IsThesisOf k.old i }
    requires second { IsThesisOf k.old j }
    ensures grows { Grows k.old k.new }
    ensures thesis { IfOk result (λ j. IsThesisOf k.new j) }
    ensures below { IfErr result (λ f. FaultBelow (length k.new.trees) f) }
{
    match call {
        Two::Trans => trans(alloc, k, i, j),
        Two::Convert => convert(alloc, k, i, j),
        Two::ConvertEquation => convert_equation(alloc, k, i, j),
        Two::Widen => widen(k, i, j),
        Two::Substitute => substitute(k, i, j),
        Two::SubstituteEqual => substitute_equal(k, i, j),
    }
}
