//! Terms for the variable of a first domain.

ghost use Rattle.std.specs.Prelude.{◌≡◌, ◌<◌, ℕ, length, IfOk, IfErr};
ghost use Rattle.ft_items.specs.Item.{by_subst};
ghost use Rattle.ft_syntax.specs.Table.{AllBelow};
ghost use Rattle.ft_judge.specs.Meaning.{ThesisBelow};
ghost use Rattle.ft_judge.specs.declared.fault.Refusal.TheVariants.{WrongForm};
ghost use Rattle.ft_kernel.specs.State.{IsThesisOf, IsBoundaryOf};
ghost use Rattle.ft_calls.specs.Answers.{Answers};
ghost use Rattle.ft_nucleus.specs.Substituting.{StatesTerm, StatesNoTerm, FindsTerm};

use ft_calls::{conclude, conclude_boundary, same_type};
use ft_judge::{Fault, Form, Refusal, Thesis};
use ft_kernel::{B, J, Kernel, Part, Step};
use ft_syntax::{E, Terms};

/// The thesis with the term for the variable of its first domain.
pub fn substitute(k: &mut Kernel, j: J, t: J) -> Result<J, Fault>
    requires thesis { IsThesisOf k.old j }
    requires term { IsThesisOf k.old t }
    ensures answers { Answers k.old (by_subst j t) result k.new }
    ensures thesis { IfOk result (λ j. IsThesisOf k.new j) }
{
    let x = k.thesis_of(j);
    let term = match term_for(k.terms(), x.domains.items(), k.thesis_of(t)) {
        Ok(term) => term,
        Err(refusal) => return Err(Fault::Refused(refusal)),
    };
    let x = x.copy()?;
    let set = k.asm_of(j).union(k.asm_of(t))?;
    let opened = match k.open_first(&x, term) {
        Ok(opened) => opened,
        Err(fault) => return Err(Fault::from(fault)),
    };
    k.terms().are_small();
    conclude(k, opened, set, Step::Subst(Part::Thesis(j), t))
}

/// The boundary with the term for the variable of its first domain.
pub fn substitute_boundary(k: &mut Kernel, b: B, t: J) -> Result<B, Fault>
    requires boundary { IsBoundaryOf k.old b }
    requires term { IsThesisOf k.old t }
    ensures answers { Answers k.old (by_subst b t) result k.new }
    ensures boundary { IfOk result (λ b. IsBoundaryOf k.new b) }
{
    let x = k.boundary_at(b);
    let term = match term_for(k.terms(), x.domains.items(), k.thesis_of(t)) {
        Ok(term) => term,
        Err(refusal) => return Err(Fault::Refused(refusal)),
    };
    let x = x.copy()?;
    let set = k.set_of(b).union(k.asm_of(t))?;
    let opened = match k.open_first_boundary(&x, term) {
        Ok(opened) => opened,
        Err(fault) => return Err(Fault::from(fault)),
    };
    k.terms().are_small();
    conclude_boundary(k, opened, set, Step::Subst(Part::Boundary(b), t))
}

// The term of a plain thesis that is of the type of the first domain.
#[tactic(auto, using(crate::proofs::Substituting::no_term, crate::proofs::Substituting::other_type, crate::proofs::Substituting::first_below))]
fn term_for(t: &Terms, domains: &[E], y: &Thesis) -> Result<E, Refusal>
    requires domains { AllBelow (length t.now) domains.now }
    requires term { ThesisBelow (length t.now) y.now }
    ensures finds { FindsTerm t.now domains.now y.now result }
    ensures below { IfOk result (λ e. e < length t.now) }
    ensures domain { IfOk result (λ _. 0 < length domains.now) }
{
    if domains.is_empty() {
        return Err(Refusal::NotAbstracted);
    }
    let (term, ty) = plain_term(y)?;
    same_type(t, ty, domains[0])?;
    Ok(term)
}

// A term with its type. Theses under domains, and those of other forms, are refused.
#[tactic(auto, using(crate::proofs::Substituting::states_term, crate::proofs::Substituting::no_term_around))]
fn plain_term(y: &Thesis) -> Result<(E, E), Refusal>
    ensures term { IfOk result (λ p. StatesTerm y.now p.0 p.1) }
    ensures below { (n : ℕ) → ThesisBelow n y.now → IfOk result (λ p. (p.0 < n) × (p.1 < n)) }
    ensures other { IfErr result (λ q. StatesNoTerm y.now) }
    ensures refused { IfErr result (λ q. q ≡ WrongForm) }
{
    if !y.domains.items().is_empty() {
        return Err(Refusal::WrongForm);
    }
    match y.form {
        Form::Tm(term, ty) => Ok((term, ty)),
        _ => Err(Refusal::WrongForm),
    }
}
