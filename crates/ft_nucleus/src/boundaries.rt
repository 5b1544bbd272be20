//! The boundaries of types, terms and equations.

ghost use Rattle.std.specs.Prelude.{ℕ, List, length, IfOk};
ghost use Rattle.ft_theory.specs.Expressions.{Expression};
ghost use Rattle.ft_items.specs.Item.{by_btype, by_bterm, by_beqty, by_beqtm};
ghost use Rattle.ft_items.specs.Rows.{term_boundary, type_equation_boundary, term_equation_boundary};
ghost use Rattle.ft_reference.specs.Checks.{term_equation_checks};
ghost use Rattle.ft_judge.specs.Meaning.{FormBelow, GoalBelow};
ghost use Rattle.ft_kernel.specs.State.{IsThesisOf, IsBoundaryOf};
ghost use Rattle.ft_calls.specs.Answers.{Answers};
ghost use Rattle.ft_calls.specs.Forming.{FormsOne, FormsTwo, FormsThree, plain_goal_in};
ghost use Rattle.ft_nucleus.specs.Forms.{term_boundary_checks, type_equation_boundary_checks};

use ft_assume::Assume;
use ft_calls::{conclude_boundary, form_named, forms_named, plain_boundary, same_type};
use ft_judge::{Fault, Form, Goal, Refusal};
use ft_kernel::{B, J, Kernel, Step};
use ft_syntax::Terms;
use std::alloc::Global;

/// The boundary of a type.
pub fn boundary_type(alloc: Global, k: &mut Kernel) -> Result<B, Fault>
    ensures answers { Answers k.old by_btype result k.new }
    ensures boundary { IfOk result (λ b. IsBoundaryOf k.new b) }
{
    let goal = plain_boundary(alloc, Goal::Ty);
    conclude_boundary(k, goal, Assume::new(alloc), Step::Btype)
}

/// The boundary of a term of the type.
pub fn boundary_term(alloc: Global, k: &mut Kernel, ty: J) -> Result<B, Fault>
    requires { IsThesisOf k.old ty }
    ensures answers { Answers k.old (by_bterm ty) result k.new }
    ensures boundary { IfOk result (λ b. IsBoundaryOf k.new b) }
{
    let x = match form_named(k, ty) {
        Ok(form) => form,
        Err(refusal) => return Err(Fault::Refused(refusal)),
    };
    let goal = match term_goal(&x) {
        Ok(goal) => goal,
        Err(refusal) => return Err(Fault::Refused(refusal)),
    };
    let set = k.asm_of(ty).copy()?;
    conclude_boundary(k, plain_boundary(alloc, goal), set, Step::Bterm(ty))
}

// The goal of a term of the type.
fn term_goal(x: &Form) -> Result<Goal, Refusal>
    ensures forms { (ts : List Expression) →
        FormsOne plain_goal_in term_boundary_checks term_boundary ts x.now result }
    ensures below { (n : ℕ) → FormBelow n x.now → IfOk result (λ g. GoalBelow n g) }
{
    match *x {
        Form::Ty(a) => Ok(Goal::Tm(a)),
        _ => Err(Refusal::WrongForm),
    }
}

/// The boundary of an equation of the types.
pub fn boundary_eq_type(alloc: Global, k: &mut Kernel, a: J, b: J) -> Result<B, Fault>
    requires left { IsThesisOf k.old a }
    requires right { IsThesisOf k.old b }
    ensures answers { Answers k.old (by_beqty a b) result k.new }
    ensures boundary { IfOk result (λ b. IsBoundaryOf k.new b) }
{
    let (x, y) = match forms_named(k, a, b) {
        Ok(forms) => forms,
        Err(refusal) => return Err(Fault::Refused(refusal)),
    };
    let goal = match type_equation_goal(&x, &y) {
        Ok(goal) => goal,
        Err(refusal) => return Err(Fault::Refused(refusal)),
    };
    let set = k.asm_of(a).union(k.asm_of(b))?;
    conclude_boundary(k, plain_boundary(alloc, goal), set, Step::Beqty(a, b))
}

// The goal of an equation of the types.
fn type_equation_goal(x: &Form, y: &Form) -> Result<Goal, Refusal>
    ensures forms { (ts : List Expression) →
        FormsTwo plain_goal_in type_equation_boundary_checks type_equation_boundary ts
        x.now y.now result }
    ensures below { (n : ℕ) → FormBelow n x.now → FormBelow n y.now → IfOk result (GoalBelow n) }
{
    match (x, y) {
        (Form::Ty(a), Form::Ty(b)) => Ok(Goal::EqTy(*a, *b)),
        _ => Err(Refusal::WrongForm),
    }
}

/// The boundary of an equation of the terms, of the type.
pub fn boundary_eq_term(alloc: Global, k: &mut Kernel, ty: J, s: J, t: J) -> Result<B, Fault>
    requires ty { IsThesisOf k.old ty }
    requires left { IsThesisOf k.old s }
    requires right { IsThesisOf k.old t }
    ensures answers { Answers k.old (by_beqtm ty s t) result k.new }
    ensures boundary { IfOk result (λ b. IsBoundaryOf k.new b) }
{
    let x = match form_named(k, ty) {
        Ok(form) => form,
        Err(refusal) => return Err(Fault::Refused(refusal)),
    };
    let (y, z) = match forms_named(k, s, t) {
        Ok(forms) => forms,
        Err(refusal) => return Err(Fault::Refused(refusal)),
    };
    let goal = match term_equation_goal(k.terms(), &x, &y, &z) {
        Ok(goal) => goal,
        Err(refusal) => return Err(Fault::Refused(refusal)),
    };
    let terms = k.asm_of(s).union(k.asm_of(t))?;
    let set = k.asm_of(ty).union(&terms)?;
    conclude_boundary(k, plain_boundary(alloc, goal), set, Step::Beqtm(ty, s, t))
}

// The goal of an equation of the terms, of the type.
fn term_equation_goal(t: &Terms, x: &Form, y: &Form, z: &Form) -> Result<Goal, Refusal>
    requires ty { FormBelow (length t.now) x.now }
    requires left { FormBelow (length t.now) y.now }
    requires right { FormBelow (length t.now) z.now }
    ensures forms { FormsThree plain_goal_in term_equation_checks term_equation_boundary t.now
        x.now y.now z.now result }
    ensures below { IfOk result (λ g. GoalBelow (length t.now) g) }
{
    match (x, y, z) {
        (Form::Ty(a), Form::Tm(s, b), Form::Tm(u, c)) => {
            same_type(t, *b, *a)?;
            same_type(t, *c, *a)?;
            Ok(Goal::EqTm(*s, *u, *a))
        }
        _ => Err(Refusal::WrongForm),
    }
}
