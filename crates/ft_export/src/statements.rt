//! Theses and boundaries as text.

ghost use Rattle.std.specs.Prelude.{◌≡◌, ◌++◌, length, OnOk};
ghost use Rattle.ft_theory.specs.Small.{IsSmall};
ghost use Rattle.ft_theory.specs.Statements.{AllOfClaim};
ghost use Rattle.ft_items.specs.Texts.{claim_text, statement_text, ItsNumbersFit, StatementFits};
ghost use Rattle.ft_syntax.specs.Table.{AllBelow};
ghost use Rattle.ft_judge.specs.Meaning.{claim_in, goal_in, thesis_in, boundary_in, FormBelow, GoalBelow, ThesisBelow, BoundaryBelow};
ghost use Rattle.ft_export.specs.Statements.{domains_text, lettered_text, EachFits};

use crate::expressions::push_expression;
use ft_base::{Memory, Text};
use ft_judge::{Boundary, Form, Goal, Thesis};
use ft_syntax::{E, Terms};

// Appends a thesis.
pub fn push_thesis(terms: &Terms, x: &Thesis, out: &mut Text) -> Result<(), Memory>
    requires below { ThesisBelow (length terms.now) x.now }
    ensures ok { OnOk result (out.new ≡ out.old ++ statement_text (thesis_in terms.now x.now)) }
    ensures fits { OnOk result (StatementFits (thesis_in terms.now x.now)) }
{
    push_domains(terms, x.domains.items(), out)?;
    push_form(terms, x.form, out)
}

// Appends a boundary.
pub fn push_boundary(terms: &Terms, x: &Boundary, out: &mut Text) -> Result<(), Memory>
    requires below { BoundaryBelow (length terms.now) x.now }
    ensures ok { OnOk result (out.new ≡ out.old ++ statement_text (boundary_in terms.now x.now)) }
    ensures fits { OnOk result (StatementFits (boundary_in terms.now x.now)) }
{
    push_domains(terms, x.domains.items(), out)?;
    push_goal(terms, x.goal, out)
}

// Appends each domain in braces.
fn push_domains(terms: &Terms, domains: &[E], out: &mut Text) -> Result<(), Memory>
    requires below { AllBelow (length terms.now) domains.now }
    ensures ok { OnOk result (out.new ≡ out.old ++ domains_text terms.now domains.now) }
    ensures fits { OnOk result (EachFits terms.now domains.now) }
{
    for e in domains {
        out.push_str("{")?;
        push_expression(terms, *e, out)?;
        out.push_str("}")?;
    }
    Ok(())
}

// Appends what a thesis says below its domains.
fn push_form(terms: &Terms, form: Form, out: &mut Text) -> Result<(), Memory>
    requires below { FormBelow (length terms.now) form }
    ensures ok { OnOk result (out.new ≡ out.old ++ claim_text (claim_in terms.now form)) }
    ensures fits { OnOk result (AllOfClaim (λ e. IsSmall e × ItsNumbersFit e) (claim_in terms.now form)) }
{
    match form {
        Form::Ty(a) => push_claim(terms, "T", &[a], out),
        Form::Tm(t, a) => push_claim(terms, "t", &[t, a], out),
        Form::EqTy(a, b) => push_claim(terms, "E", &[a, b], out),
        Form::EqTm(s, t, a) => push_claim(terms, "e", &[s, t, a], out),
    }
}

// Appends what a boundary asks below its domains.
fn push_goal(terms: &Terms, goal: Goal, out: &mut Text) -> Result<(), Memory>
    requires below { GoalBelow (length terms.now) goal }
    ensures ok { OnOk result (out.new ≡ out.old ++ claim_text (goal_in terms.now goal)) }
    ensures fits { OnOk result (AllOfClaim (λ e. IsSmall e × ItsNumbersFit e) (goal_in terms.now goal)) }
{
    match goal {
        Goal::Ty => push_claim(terms, "T", &[], out),
        Goal::Tm(a) => push_claim(terms, "t", &[a], out),
        Goal::EqTy(a, b) => push_claim(terms, "E", &[a, b], out),
        Goal::EqTm(s, t, a) => push_claim(terms, "e", &[s, t, a], out),
    }
}

// Appends a letter and expressions, with a space before each.
fn push_claim(terms: &Terms, letter: &str, parts: &[E], out: &mut Text) -> Result<(), Memory>
    requires below { AllBelow (length terms.now) parts.now }
    ensures ok { OnOk result (out.new ≡ out.old ++ lettered_text terms.now letter.now parts.now) }
    ensures fits { OnOk result (EachFits terms.now parts.now) }
{
    out.push_str(letter)?;
    for e in parts {
        out.push_str(" ")?;
        push_expression(terms, *e, out)?;
    }
    Ok(())
}
