//! The sides, types, domains and boundaries of what is derived.

ghost use Rattle.std.specs.Prelude.{◌≡◌, ℕ, List, length, option_map, IfOk, IfSome};
ghost use Rattle.ft_theory.specs.Expressions.{Expression};
ghost use Rattle.ft_items.specs.Item.{by_boundary};
ghost use Rattle.ft_syntax.specs.Table.{AllBelow};
ghost use Rattle.ft_judge.specs.Meaning.{claim_in, goal_in, FormBelow, GoalBelow};
ghost use Rattle.ft_kernel.specs.State.{IsThesisOf, IsBoundaryOf};
ghost use Rattle.ft_kernel.specs.Steps.{step_of, entry_of};
ghost use Rattle.ft_calls.specs.Answers.{Answers};
ghost use Rattle.ft_nucleus.specs.Sides.{side_step, claim_part, domains_left, FormsPart, FormsDomain};

use ft_base::Memory;
use ft_calls::{conclude, conclude_boundary};
use ft_judge::{Domains, Fault, Form, Goal, Refusal, Thesis, boundary_of};
use ft_kernel::{B, J, Kernel, Part, Step};
use ft_syntax::E;
use std::alloc::Global;

/// A part of a statement: a side or the type, under its domains; or its first domain, as a type.
#[derive(Clone, Copy, Debug, PartialEq, Eq)]
pub enum Which {
    Left,
    Right,
    Ty,
    Domain,
}

/// The part of the thesis.
pub fn side(alloc: Global, k: &mut Kernel, j: J, which: Which) -> Result<J, Fault>
    requires { IsThesisOf k.old j }
    ensures answers { Answers k.old (side_step which j) result k.new }
    ensures thesis { IfOk result (λ j. IsThesisOf k.new j) }
{
    let x = k.thesis_of(j);
    let below = part_of_form(&x.form, which);
    let form = match part(x.domains.items(), below, which) {
        Ok(form) => form,
        Err(refusal) => return Err(Fault::Refused(refusal)),
    };
    let domains = around(alloc, &x.domains, which)?;
    let set = k.asm_of(j).copy()?;
    conclude(
        k,
        Thesis { domains, form },
        set,
        step(Part::Thesis(j), which),
    )
}

/// The part of the boundary.
pub fn side_of_boundary(alloc: Global, k: &mut Kernel, b: B, which: Which) -> Result<J, Fault>
    requires { IsBoundaryOf k.old b }
    ensures answers { Answers k.old (side_step which b) result k.new }
    ensures thesis { IfOk result (λ j. IsThesisOf k.new j) }
{
    let x = k.boundary_at(b);
    let below = part_of_goal(&x.goal, which);
    let form = match part(x.domains.items(), below, which) {
        Ok(form) => form,
        Err(refusal) => return Err(Fault::Refused(refusal)),
    };
    let domains = around(alloc, &x.domains, which)?;
    let set = k.set_of(b).copy()?;
    conclude(
        k,
        Thesis { domains, form },
        set,
        step(Part::Boundary(b), which),
    )
}

/// The boundary of the thesis.
pub fn boundary(alloc: Global, k: &mut Kernel, j: J) -> Result<B, Fault>
    requires { IsThesisOf k.old j }
    ensures answers { Answers k.old (by_boundary j) result k.new }
    ensures boundary { IfOk result (λ b. IsBoundaryOf k.new b) }
{
    let boundary = boundary_of(alloc, k.thesis_of(j))?;
    let set = k.asm_of(j).copy()?;
    conclude_boundary(k, boundary, set, Step::Boundary(j))
}

// The step of a part.
fn step(part: Part, which: Which) -> Step
    ensures { step_of result ≡ side_step which (entry_of part) }
{
    match which {
        Which::Left => Step::Left(part),
        Which::Right => Step::Right(part),
        Which::Ty => Step::Typeof(part),
        Which::Domain => Step::Domain(part),
    }
}

// The part of a form below its domains.
fn part_of_form(form: &Form, which: Which) -> Option<Form>
    ensures part { (ts : List Expression) →
        option_map (claim_in ts) result ≡ claim_part which (claim_in ts form.now) }
    ensures below { (n : ℕ) → FormBelow n form.now → IfSome result (λ f. FormBelow n f) }
{
    match (&which, form) {
        (Which::Left, Form::EqTy(a, _)) => Some(Form::Ty(*a)),
        (Which::Left, Form::EqTm(s, _, a)) => Some(Form::Tm(*s, *a)),
        (Which::Right, Form::EqTy(_, b)) => Some(Form::Ty(*b)),
        (Which::Right, Form::EqTm(_, t, a)) => Some(Form::Tm(*t, *a)),
        (Which::Ty, Form::Tm(_, a)) => Some(Form::Ty(*a)),
        (Which::Ty, Form::EqTm(_, _, a)) => Some(Form::Ty(*a)),
        _ => None,
    }
}

// The part of a goal below its domains.
fn part_of_goal(goal: &Goal, which: Which) -> Option<Form>
    ensures part { (ts : List Expression) →
        option_map (claim_in ts) result ≡ claim_part which (goal_in ts goal.now) }
    ensures below { (n : ℕ) → GoalBelow n goal.now → IfSome result (λ f. FormBelow n f) }
{
    match (&which, goal) {
        (Which::Left, Goal::EqTy(a, _)) => Some(Form::Ty(*a)),
        (Which::Left, Goal::EqTm(s, _, a)) => Some(Form::Tm(*s, *a)),
        (Which::Right, Goal::EqTy(_, b)) => Some(Form::Ty(*b)),
        (Which::Right, Goal::EqTm(_, t, a)) => Some(Form::Tm(*t, *a)),
        (Which::Ty, Goal::Tm(a)) => Some(Form::Ty(*a)),
        (Which::Ty, Goal::EqTm(_, _, a)) => Some(Form::Ty(*a)),
        _ => None,
    }
}

// The part that is asked for, of which `below` is what stands below the domains.
fn part(domains: &[E], below: Option<Form>, which: Which) -> Result<Form, Refusal>
    ensures forms { FormsPart which below domains.now result }
    ensures below { (n : ℕ) → AllBelow n domains.now → IfSome below (λ f. FormBelow n f) →
        IfOk result (λ f. FormBelow n f) }
{
    match which {
        Which::Domain => first_domain(domains),
        _ => below.ok_or(Refusal::WrongForm),
    }
}

// The first domain as a type.
fn first_domain(domains: &[E]) -> Result<Form, Refusal>
    ensures forms { FormsDomain domains.now result }
    ensures below { (n : ℕ) → AllBelow n domains.now → IfOk result (λ f. FormBelow n f) }
{
    if domains.is_empty() {
        return Err(Refusal::NotAbstracted);
    }
    Ok(Form::Ty(domains[0]))
}

// The domains that stand around the part.
fn around(alloc: Global, domains: &Domains, which: Which) -> Result<Domains, Memory>
    ensures { IfOk result (λ ds. ds ≡ domains_left which domains.now) }
{
    match which {
        Which::Domain => Ok(Domains::new(alloc)),
        _ => domains.copy(),
    }
}
