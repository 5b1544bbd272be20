//! Metavariables at equal terms.

ghost use Rattle.std.specs.Prelude.{◌≡◌, ◌<◌, ℕ, length, true, IfOk};
ghost use Rattle.ft_items.specs.Equal.{right_head, right_terms};
ghost use Rattle.ft_items.specs.Item.{by_metacong};
ghost use Rattle.ft_items.specs.Store.{metavariables_in};
ghost use Rattle.ft_items.specs.Rows.{meta_congruence as congruence_of};
ghost use Rattle.ft_reference.specs.Refusals.{AllSmall, claim_expressions};
ghost use Rattle.ft_reference.specs.Checks.{meta_congruence_checks};
ghost use Rattle.ft_syntax.specs.Table.{tree, terms_in, AllBelow};
ghost use Rattle.ft_judge.specs.Meaning.{claim_in, goal_in, FormBelow, GoalBelow};
ghost use Rattle.ft_kernel.specs.State.{IsThesisOf};
ghost use Rattle.ft_calls.specs.Answers.{Answers, Stays};
ghost use Rattle.ft_calls.specs.Forming.{plain_in};
ghost use Rattle.ft_metas.specs.Named.{entry_of, statements_of, declared_of, AreThesesOf};
ghost use Rattle.ft_metas.specs.Outcomes.{SmallOr, Formed};
ghost use Rattle.ft_metas.specs.Operands.{IsPlainEquation, AreEquations};
ghost use Rattle.ft_metas.specs.Putting.{equated_at, IsObjectOver, IsEquationOf};

use crate::named::{boundary_of, set_at};
use crate::operands::{Given, operands};
use crate::putting::put_goal;
use ft_base::Memory;
use ft_calls::{conclude, plain};
use ft_judge::{Domains, Fault, Form, Goal, Refusal};
use ft_kernel::{J, Judgements, Kernel, M, Step};
use ft_syntax::{E, SynFault};
use std::alloc::Global;

/// The metavariable at the left sides of the equations equals it at their right sides.
pub fn meta_congruence(alloc: Global, k: &mut Kernel, m: M, es: &[J]) -> Result<J, Fault>
    requires metavariable { m < length (metavariables_in k.old.items) }
    requires equations { AreThesesOf k.old es.now }
    ensures answers { Answers k.old (by_metacong m es.now) result k.new }
    ensures thesis { IfOk result (λ j. IsThesisOf k.new j) }
{
    let _terms = k.terms();
    let form = match congruent(alloc, k, m, es) {
        Ok(form) => form,
        Err(fault) => return Err(fault),
    };
    let set = set_at(alloc, k, m, es)?;
    let step = Step::Metacong(m, Judgements::of(alloc, es)?);
    conclude(k, plain(alloc, form), set, step)
}

// The equation of the metavariable at both sides of the equations, one for each domain of its boundary.
fn congruent(alloc: Global, k: &mut Kernel, m: M, es: &[J]) -> Result<Form, Fault>
    requires metavariable { m < length (metavariables_in k.old.items) }
    requires equations { AreThesesOf k.old es.now }
    ensures within { IfOk result (λ f. FormBelow (length k.new.trees) f) }
    ensures formed { Formed (plain_in k.new.trees) k.new.trees
        (meta_congruence_checks m (declared_of k.old.items m).boundary
        (statements_of k.old.items es.now))
        (congruence_of m (declared_of k.old.items m).boundary (statements_of k.old.items es.now))
        result }
    ensures stays { Stays k.old k.new }
{
    let boundary = boundary_of(k, m)?;
    if !is_object(&boundary.goal) {
        return Err(Fault::Refused(Refusal::WrongForm));
    }
    let lefts = match operands(alloc, k, Given::Equations, &boundary, es) {
        Ok(lefts) => lefts,
        Err(fault) => return Err(fault),
    };
    let rights = right_sides(alloc, k, es)?;
    let goal = match put_goal(k, &boundary.goal, lefts.items()) {
        Ok(goal) => goal,
        Err(fault) => return Err(Fault::from(fault)),
    };
    match equated(k, m, &goal, lefts.items(), rights.items()) {
        Ok(form) => Ok(form),
        Err(fault) => Err(Fault::from(fault)),
    }
}

// Whether the goal is that of a type or a term.
fn is_object(goal: &Goal) -> bool
    ensures { IsObjectOver goal.now result }
{
    match *goal {
        Goal::Ty | Goal::Tm(_) => true,
        Goal::EqTy(..) | Goal::EqTm(..) => false,
    }
}

// The right sides of plain equations.
#[tactic(auto, using(crate::proofs::Sides::siding_start, crate::proofs::Sides::siding_end))]
fn right_sides(alloc: Global, k: &Kernel, es: &[J]) -> Result<Domains, Memory>
    requires theses { AreThesesOf k.now es.now }
    requires equations { AreEquations (statements_of k.now.items es.now) }
    ensures within { IfOk result (λ fs. AllBelow (length k.now.trees) fs) }
    ensures terms { IfOk result (λ fs.
        terms_in k.now.trees fs ≡ right_terms (statements_of k.now.items es.now)) }
{
    let mut found = Domains::new(alloc);
    for i in 0..es.len() {
        found.push(right_side(k, es[i]))?;
    }
    Ok(found)
}

// The right side of a plain equation.
fn right_side(k: &Kernel, e: J) -> E
    requires thesis { IsThesisOf k.now e }
    requires equation { IsPlainEquation (entry_of k.now.items e).statement }
    ensures within { result < length k.now.trees }
    ensures side { tree k.now.trees result ≡ right_head (entry_of k.now.items e).statement }
{
    match k.thesis_of(e).form {
        Form::EqTm(_, right, _) => right,
        _ => unreachable!(),
    }
}

// The equation of the metavariable at two lists of terms, for the goal of a type or a term.
fn equated(k: &mut Kernel, m: M, goal: &Goal, lefts: &[E], rights: &[E]) -> Result<Form, SynFault>
    requires goal { GoalBelow (length k.old.trees) goal.now }
    requires lefts { AllBelow (length k.old.trees) lefts.now }
    requires rights { AllBelow (length k.old.trees) rights.now }
    requires small { AllSmall (claim_expressions (goal_in k.old.trees goal.now)) }
    requires object { IsObjectOver goal.now true }
    ensures within { IfOk result (λ f. FormBelow (length k.new.trees) f) }
    ensures form { IfOk result (λ f. claim_in k.new.trees f ≡
        equated_at k.old.trees goal.now m lefts.now rights.now) }
    ensures small { SmallOr (AllSmall (claim_expressions
        (equated_at k.old.trees goal.now m lefts.now rights.now))) result }
    ensures stays { Stays k.old k.new }
{
    let left = match k.meta(m.number(), lefts) {
        Ok(left) => left,
        Err(fault) => return Err(fault),
    };
    let right = match k.meta(m.number(), rights) {
        Ok(right) => right,
        Err(fault) => return Err(fault),
    };
    Ok(equation(goal, left, right))
}

// The equation of two types, or of two terms, for the goal of one.
fn equation(goal: &Goal, left: E, right: E) -> Form
    requires { IsObjectOver goal.now true }
    ensures equation { IsEquationOf goal.now left right result }
    ensures below { (n : ℕ) → GoalBelow n goal.now → left < n → right < n → FormBelow n result }
{
    match *goal {
        Goal::Ty => Form::EqTy(left, right),
        Goal::Tm(a) => Form::EqTm(left, right, a),
        _ => unreachable!(),
    }
}
