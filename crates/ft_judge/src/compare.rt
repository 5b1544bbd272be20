//! Whether a thesis fits a boundary.

ghost use Rattle.std.specs.Prelude.{◌≡◌, ◌<◌, ◌↔◌, ℕ, [], ◌∷◌, length, Err, IsOk, IsTrue};
ghost use Rattle.ft_theory.specs.Statements.{fill as fill_statement};
ghost use Rattle.ft_syntax.specs.Table.{tree, AllBelow};
ghost use Rattle.ft_judge.specs.Meaning.{thesis_in, boundary_in, head_in, head_of_form, ThesisBelow, BoundaryBelow, FormBelow, GoalBelow};
ghost use Rattle.ft_judge.specs.Fits.{types, sides, differ, domain_comparisons, form_comparisons, comparisons, IsFormFor, IsSameForm, IsFirstDifference};
ghost use Rattle.ft_judge.specs.declared.fault.Refusal.TheVariants.{WrongForm};

use crate::fault::{Differ, Refusal};
use crate::judgement::{Boundary, Form, Goal, Thesis};
use ft_syntax::{E, Terms};

/// Whether the boundary filled with the thesis's head is the thesis, or the first difference: the form and the number of
/// domains; the domains from the first; the type; the left and the right side. It takes no memory.
#[tactic(auto, using(crate::proofs::Differences::both_parts, crate::proofs::Differences::first_part, crate::proofs::Differences::fits_meaning, crate::proofs::Differences::misfit_meaning))]
pub fn fits(t: &Terms, x: &Thesis, b: &Boundary) -> Result<(), Refusal>
    requires thesis { ThesisBelow (length t.now) x.now }
    requires boundary { BoundaryBelow (length t.now) b.now }
    ensures form { (IsSameForm x.now b.now → ⊥) → result ≡ Err WrongForm }
    ensures first { IsSameForm x.now b.now → IsFirstDifference t.now (comparisons x.now b.now) result }
    ensures meaning { IsOk result ↔ (fill_statement (boundary_in t.now b.now) (head_in t.now (head_of_form x.now.form)) ≡ thesis_in t.now x.now) }
{
    let found = x.domains.items();
    let wanted = b.domains.items();
    if !is_form_for(&x.form, &b.goal) || found.len() != wanted.len() {
        return Err(Refusal::WrongForm);
    }
    match same_domains(t, found, wanted) {
        Ok(()) => same_form(t, &x.form, &b.goal, found.len() as u64),
        Err(refusal) => Err(refusal),
    }
}

// Whether the form is one for the goal.
fn is_form_for(form: &Form, goal: &Goal) -> bool
    ensures { IsTrue result ↔ IsFormFor form.now goal.now }
{
    match (form, goal) {
        (Form::Ty(_), Goal::Ty) => true,
        (Form::Tm(_, _), Goal::Tm(_)) => true,
        (Form::EqTy(_, _), Goal::EqTy(_, _)) => true,
        (Form::EqTm(_, _, _), Goal::EqTm(_, _, _)) => true,
        _ => false,
    }
}

// The first of the domains that differs.
#[tactic(auto, using(crate::proofs::Differences::comparing_start, crate::proofs::Differences::comparing_more, crate::proofs::Differences::comparing_refused, crate::proofs::Differences::comparing_end, ft_syntax::specs::Laws::one_below))]
fn same_domains(t: &Terms, found: &[E], wanted: &[E]) -> Result<(), Refusal>
    requires found { AllBelow (length t.now) found.now }
    requires wanted { AllBelow (length t.now) wanted.now }
    requires as_many { length found.now ≡ length wanted.now }
    ensures { IsFirstDifference t.now (domain_comparisons 0 found.now wanted.now) result }
{
    for i in 0..found.len() {
        if !t.equal_expr(found[i], wanted[i]) {
            return Err(Refusal::TypeDiffers(Differ {
                found: found[i],
                wanted: wanted[i],
                under: i as u64,
            }));
        }
    }
    Ok(())
}

// The first of the expressions below the domains that differs.
fn same_form(t: &Terms, form: &Form, goal: &Goal, under: u64) -> Result<(), Refusal>
    requires form { FormBelow (length t.now) form.now }
    requires goal { GoalBelow (length t.now) goal.now }
    requires same { IsFormFor form.now goal.now }
    ensures { IsFirstDifference t.now (form_comparisons under form.now goal.now) result }
{
    match (form, goal) {
        (Form::Ty(_), Goal::Ty) => Ok(()),
        (Form::Tm(_, a), Goal::Tm(b)) => same_type(t, *a, *b, under),
        (Form::EqTy(a, b), Goal::EqTy(c, d)) => same_sides(t, (*a, *b), (*c, *d), under),
        (Form::EqTm(l, r, a), Goal::EqTm(m, s, b)) => match same_type(t, *a, *b, under) {
            Ok(()) => same_sides(t, (*l, *r), (*m, *s), under),
            Err(refusal) => Err(refusal),
        },
        _ => unreachable!(),
    }
}

// Whether the type found is the one wanted.
fn same_type(t: &Terms, found: E, wanted: E, under: u64) -> Result<(), Refusal>
    requires { (found < length t.now) × (wanted < length t.now) }
    ensures { IsFirstDifference t.now (types (differ found wanted under) ∷ []) result }
{
    if t.equal_expr(found, wanted) {
        return Ok(());
    }
    Err(Refusal::TypeDiffers(Differ {
        found,
        wanted,
        under,
    }))
}

// Whether the side found is the one wanted.
fn same_side(t: &Terms, found: E, wanted: E, under: u64) -> Result<(), Refusal>
    requires { (found < length t.now) × (wanted < length t.now) }
    ensures { IsFirstDifference t.now (sides (differ found wanted under) ∷ []) result }
{
    if t.equal_expr(found, wanted) {
        return Ok(());
    }
    Err(Refusal::SidesDiffer(Differ {
        found,
        wanted,
        under,
    }))
}

// The left, and then the right side.
fn same_sides(t: &Terms, found: (E, E), wanted: (E, E), under: u64) -> Result<(), Refusal>
    requires found { (found.0 < length t.now) × (found.1 < length t.now) }
    requires wanted { (wanted.0 < length t.now) × (wanted.1 < length t.now) }
    ensures { IsFirstDifference t.now (sides (differ found.0 wanted.0 under) ∷ sides (differ found.1 wanted.1 under) ∷ []) result }
{
    match same_side(t, found.0, wanted.0, under) {
        Ok(()) => same_side(t, found.1, wanted.1, under),
        Err(refusal) => Err(refusal),
    }
}
