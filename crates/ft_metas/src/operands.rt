//! What is given for the domains of a metavariable's boundary.

ghost use Rattle.std.specs.Prelude.{◌≡◌, ℕ, ◌<◌, length, IfOk, IfErr};
ghost use Rattle.ft_syntax.specs.Table.{tree, terms_in, AllBelow};
ghost use Rattle.ft_judge.specs.Meaning.{boundary_in, ThesisBelow, BoundaryBelow};
ghost use Rattle.ft_judge.specs.declared.fault.Refusal.TheVariants.{WrongForm, ArgumentCount};
ghost use Rattle.ft_judge.specs.declared.fault.Fault.TheVariants.{Refused};
ghost use Rattle.ft_kernel.specs.State.{IsThesisOf};
ghost use Rattle.ft_calls.specs.Answers.{Stays};
ghost use Rattle.ft_metas.specs.Named.{entry_of, statements_of, AreThesesOf};
ghost use Rattle.ft_metas.specs.Outcomes.{Asks};
ghost use Rattle.ft_metas.specs.Putting.{put_in};
ghost use Rattle.ft_metas.specs.Operands.{operand_of, operands_of, all_checks, one_checks, StatesOperand, StatesNone};

use crate::putting::put;
use ft_calls::same_type;
use ft_judge::{Boundary, Domains, Fault, Form, Refusal, Thesis};
use ft_kernel::{J, Kernel};
use ft_syntax::E;
use std::alloc::Global;

/// What is given: terms, or equations of terms, whose left sides stand for the domains' variables.
#[derive(Clone, Copy, Debug, PartialEq, Eq)]
pub(crate) enum Given {
    Terms,
    Equations,
}

/// The terms or left sides of the theses, one for each domain, each of the type that its domain is with the earlier ones.
pub(crate) fn operands(
    alloc: Global,
    k: &mut Kernel,
    given: Given,
    b: &Boundary,
    args: &[J],
) -> Result<Domains, Fault>
    requires boundary { BoundaryBelow (length k.old.trees) b.now }
    requires arguments { AreThesesOf k.old args.now }
    ensures within { IfOk result (λ es. AllBelow (length k.new.trees) es) }
    ensures count { IfOk result (λ es. length es ≡ length b.now.domains) }
    ensures operands { IfOk result (λ es. terms_in k.new.trees es ≡
        operands_of given (statements_of k.old.items args.now)) }
    ensures checks { Asks k.new.trees (all_checks given (boundary_in k.old.trees b.now)
        (statements_of k.old.items args.now)) result }
    ensures stays { Stays k.old k.new }
{
    let domains = b.domains.items();
    let wanted = domains.len();
    if args.len() != wanted {
        return Err(counts(args.len(), wanted));
    }
    let mut found = Domains::new(alloc);
    for i in 0..args.len() {
        let next = match operand_at(k, given, domains[i], found.items(), args[i]) {
            Ok(next) => next,
            Err(fault) => return Err(fault),
        };
        found.push(next)?;
    }
    Ok(found)
}

// So many were given, so many are wanted.
fn counts(given: usize, wanted: usize) -> Fault
    ensures { result ≡ Refused (ArgumentCount given wanted) }
{
    Fault::Refused(Refusal::ArgumentCount(given as u64, wanted as u64))
}

// The term or left side of the thesis, of the type that the domain is with the earlier ones.
fn operand_at(k: &mut Kernel, given: Given, domain: E, earlier: &[E], j: J) -> Result<E, Fault>
    requires domain { domain < length k.old.trees }
    requires earlier { AllBelow (length k.old.trees) earlier.now }
    requires thesis { IsThesisOf k.old j }
    ensures within { IfOk result (λ t. t < length k.new.trees) }
    ensures operand { IfOk result (λ t.
        tree k.new.trees t ≡ operand_of given (entry_of k.old.items j).statement) }
    ensures checks { Asks k.new.trees (one_checks given (put_in k.old.trees earlier.now domain)
        (entry_of k.old.items j).statement) result }
    ensures stays { Stays k.old k.new }
{
    let (term, ty) = match operand(given, k.thesis_of(j)) {
        Ok(two) => two,
        Err(refusal) => return Err(Fault::Refused(refusal)),
    };
    let wanted = match put(k, domain, earlier) {
        Ok(wanted) => wanted,
        Err(fault) => return Err(Fault::from(fault)),
    };
    match same_type(k.terms(), ty, wanted) {
        Ok(()) => Ok(term),
        Err(refusal) => Err(Fault::Refused(refusal)),
    }
}

// The term or left side of a plain thesis, with its type. Theses of another form are refused.
#[tactic(auto, using(crate::proofs::Taking::none_under))]
fn operand(given: Given, y: &Thesis) -> Result<(E, E), Refusal>
    ensures operand { IfOk result (λ p. StatesOperand given y.now p.0 p.1) }
    ensures below { (n : ℕ) → ThesisBelow n y.now → IfOk result (λ p. (p.0 < n) × (p.1 < n)) }
    ensures other { IfErr result (λ q. StatesNone given y.now) }
    ensures refused { IfErr result (λ q. q ≡ WrongForm) }
{
    if !y.domains.items().is_empty() {
        return Err(Refusal::WrongForm);
    }
    match (given, y.form) {
        (Given::Terms, Form::Tm(term, ty)) => Ok((term, ty)),
        (Given::Equations, Form::EqTm(left, _, ty)) => Ok((left, ty)),
        _ => Err(Refusal::WrongForm),
    }
}
