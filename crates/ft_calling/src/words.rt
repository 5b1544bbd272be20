//! Words at judgements and boundaries.

ghost use Rattle.std.specs.Prelude.{ℕ, ◌≡◌};
ghost use Rattle.ft_reference.specs.Nucleus as reference;
ghost use Rattle.ft_grammar.specs.declared.form.OneForm.TheVariants as one;
ghost use Rattle.ft_grammar.specs.declared.form.TwoForm.TheVariants as two;
ghost use Rattle.ft_meaning.specs.Values.{judgement, boundary};
ghost use Rattle.ft_meaning.specs.Forms.{judged, word_at as word, word_at_two as word_two};
ghost use Rattle.ft_kernel.specs.State.{IsThesisOf, IsBoundaryOf};
ghost use Rattle.ft_values.specs.Kept.{stated_at};
ghost use Rattle.ft_telling.specs.Words.{is_term_equation};
ghost use Rattle.ft_calling.specs.Asking.{IsAskedOfJudgement, IsAskedOfBoundary, IsAskedOfTwo};
ghost use Rattle.ft_calling.specs.Calling.{ToldJudgement, ToldBoundary};

use ft_grammar::{OneForm, TwoForm};
use ft_judge::Form;
use ft_kernel::{B, J, Kernel};
use ft_nucleus::{Which, side, side_of_boundary};
use ft_telling::{Halt, Why, halted, halted_boundary};
use std::alloc::Global;

/// A word at a judgement, but for those that ask something else than a judgement of the nucleus.
#[tactic(auto, using(crate::proofs::WordsCalled::refl_told, crate::proofs::WordsCalled::sym_told, crate::proofs::WordsCalled::left_told, crate::proofs::WordsCalled::right_told, crate::proofs::WordsCalled::typeof_told, crate::proofs::WordsCalled::domain_told, crate::proofs::WordsCalled::natural_told))]
pub fn word_at(alloc: Global, k: &mut Kernel, at: u64, asked: OneForm, j: J) -> Result<J, Halt>
    requires judgement { IsThesisOf k.old j }
    requires word { IsAskedOfJudgement asked }
    ensures told { ToldJudgement k.old (word at asked (judgement (stated_at k.old j)))
        result k.new }
{
    let _terms = k.terms();
    match asked {
        OneForm::Refl => halted(at, ft_nucleus::refl(k, j)),
        OneForm::Sym => halted(at, ft_nucleus::sym(alloc, k, j)),
        OneForm::Left => halted(at, side(alloc, k, j, Which::Left)),
        OneForm::Right => halted(at, side(alloc, k, j, Which::Right)),
        OneForm::Typeof => halted(at, side(alloc, k, j, Which::Ty)),
        OneForm::Domain => halted(at, side(alloc, k, j, Which::Domain)),
        OneForm::Natural => halted(at, ft_parts::natural(alloc, k, j)),
        OneForm::Normal | OneForm::Boundaryof | OneForm::SomeWord => unreachable!(),
    }
}

/// The boundary of a judgement.
#[tactic(auto, using(crate::proofs::WordsCalled::boundaryof_told))]
pub fn boundaryof(alloc: Global, k: &mut Kernel, at: u64, j: J) -> Result<B, Halt>
    requires { IsThesisOf k.old j }
    ensures told { ToldBoundary k.old (word at one.Boundaryof (judgement (stated_at k.old j)))
        result k.new }
{
    let _terms = k.terms();
    halted_boundary(at, ft_nucleus::boundary(alloc, k, j))
}

/// A word at a boundary; those that are not for parts are stuck.
#[tactic(auto, using(crate::proofs::WordsCalled::boundary_left_told, crate::proofs::WordsCalled::boundary_right_told, crate::proofs::WordsCalled::boundary_typeof_told, crate::proofs::WordsCalled::boundary_domain_told, crate::proofs::WordsCalled::boundary_stuck_told))]
pub fn word_at_boundary(
    alloc: Global,
    k: &mut Kernel,
    at: u64,
    asked: OneForm,
    b: B,
) -> Result<J, Halt>
    requires boundary { IsBoundaryOf k.old b }
    requires word { IsAskedOfBoundary asked }
    ensures told { ToldJudgement k.old (word at asked (boundary (stated_at k.old b)))
        result k.new }
{
    let _terms = k.terms();
    match asked {
        OneForm::Left => halted(at, side_of_boundary(alloc, k, b, Which::Left)),
        OneForm::Right => halted(at, side_of_boundary(alloc, k, b, Which::Right)),
        OneForm::Typeof => halted(at, side_of_boundary(alloc, k, b, Which::Ty)),
        OneForm::Domain => halted(at, side_of_boundary(alloc, k, b, Which::Domain)),
        OneForm::Refl
        | OneForm::Sym
        | OneForm::Natural
        | OneForm::Normal
        | OneForm::Boundaryof
        | OneForm::SomeWord => Err(Halt {
            at,
            why: Why::Stuck,
        }),
    }
}

/// A word at two judgements, but for `equal`; `fill` is stuck, as the first is no boundary.
#[tactic(auto, using(crate::proofs::WordsCalled::trans_told, crate::proofs::WordsCalled::other_convert_told, crate::proofs::WordsCalled::widen_told, crate::proofs::WordsCalled::rewrite_told, crate::proofs::WordsCalled::fill_told))]
pub fn word_at_two(
    alloc: Global,
    k: &mut Kernel,
    at: u64,
    asked: TwoForm,
    i: J,
    j: J,
) -> Result<J, Halt>
    requires first { IsThesisOf k.old i }
    requires second { IsThesisOf k.old j }
    requires word { IsAskedOfTwo asked }
    ensures told { (second : ℕ) → ToldJudgement k.old
        (word_two at second asked (judgement (stated_at k.old i)) (judgement (stated_at k.old j)))
        result k.new }
{
    let _terms = k.terms();
    match asked {
        TwoForm::Trans => halted(at, ft_nucleus::trans(alloc, k, i, j)),
        TwoForm::Convert => convert(alloc, k, at, i, j),
        TwoForm::Widen => halted(at, ft_nucleus::widen(k, i, j)),
        TwoForm::Rewrite => halted(at, ft_nucleus::substitute_equal(k, i, j)),
        TwoForm::Equal => unreachable!(),
        TwoForm::Fill => Err(Halt {
            at,
            why: Why::Stuck,
        }),
    }
}

// Conversion of a term, or of an equation of terms.
#[tactic(auto, using(crate::proofs::WordsCalled::convert_told, crate::proofs::WordsCalled::convert_equation_told))]
fn convert(alloc: Global, k: &mut Kernel, at: u64, i: J, j: J) -> Result<J, Halt>
    requires first { IsThesisOf k.old i }
    requires second { IsThesisOf k.old j }
    ensures told { (second : ℕ) → ToldJudgement k.old
        (word_two at second two.Convert (judgement (stated_at k.old i))
        (judgement (stated_at k.old j)))
        result k.new }
{
    let _terms = k.terms();
    if is_equation(k, i) {
        return halted(at, ft_nucleus::convert_equation(alloc, k, i, j));
    }
    halted(at, ft_nucleus::convert(alloc, k, i, j))
}

// Whether the judgement is an equation of terms without domains.
fn is_equation(k: &Kernel, j: J) -> bool
    requires { IsThesisOf k.now j }
    ensures { result ≡ is_term_equation (stated_at k.now j).statement }
{
    let thesis = k.thesis_of(j);
    thesis.domains.items().is_empty() && matches!(thesis.form, Form::EqTm(..))
}

/// The argument at a place of an application.
#[tactic(auto, using(crate::proofs::WordsCalled::argument_told))]
pub fn argument(alloc: Global, k: &mut Kernel, at: u64, j: J, place: u64) -> Result<J, Halt>
    requires { IsThesisOf k.old j }
    ensures told { ToldJudgement k.old
        (judged at (λ W. reference.argument W place (stated_at k.old j))) result k.new }
{
    let _terms = k.terms();
    halted(at, ft_parts::argument(alloc, k, j, place))
}
