//! Reading theses and boundaries into a table.

ghost use Rattle.std.specs.Prelude.{◌≡◌, ◌<◌, [], length};
ghost use Rattle.ft_theory.specs.Statements.{equal_types, equal_terms, type_equation_goal, term_equation_goal};
ghost use Rattle.ft_syntax.specs.Table.{tree, Extends};
ghost use Rattle.ft_lines.specs.Expressions.{ReadsTree};
ghost use Rattle.ft_lines.specs.Statements as spec;
ghost use Rattle.ft_lines.specs.Statements.{ReadsPair, ReadsTriple, ReadsForm, ReadsGoal, ReadsDomains, ReadsThesis, ReadsBoundary};

use crate::cursor::Cursor;
use crate::expressions::expression;
use crate::fault::Fault;
use ft_judge::{Boundary, Domains, Form, Goal, Thesis};
use ft_syntax::{E, Terms};
use std::alloc::Global;

/// The thesis that is next.
#[tactic(auto, unfolding(crate::specs::Statements::statement))]
pub fn thesis(alloc: Global, terms: &mut Terms, text: &mut Cursor<'_>) -> Result<Thesis, Fault>
    ensures reads { ReadsThesis (spec.thesis text.old) terms.new result text.new }
    ensures goes_on { Extends terms.old terms.new }
{
    let domains = domains(alloc, terms, text)?;
    let form = form(alloc, terms, text)?;
    Ok(Thesis { domains, form })
}

/// The boundary that is next.
#[tactic(auto, unfolding(crate::specs::Statements::statement))]
pub fn boundary(alloc: Global, terms: &mut Terms, text: &mut Cursor<'_>) -> Result<Boundary, Fault>
    ensures reads { ReadsBoundary (spec.boundary text.old) terms.new result text.new }
    ensures goes_on { Extends terms.old terms.new }
{
    let domains = domains(alloc, terms, text)?;
    let goal = goal(alloc, terms, text)?;
    Ok(Boundary { domains, goal })
}

// The domains in braces that are next.
#[tactic(auto, unfolding(crate::specs::Statements::domains_from))]
fn domains(alloc: Global, terms: &mut Terms, text: &mut Cursor<'_>) -> Result<Domains, Fault>
    ensures reads { ReadsDomains (spec.domains_from (length text.old) [] text.old) terms.new result text.new }
    ensures goes_on { Extends terms.old terms.new }
{
    let mut found = Domains::new(alloc);
    for _turn in 0..text.left() {
        if !text.passes(b'{') {
            return Ok(found);
        }
        let domain = domain(alloc, terms, text)?;
        found.push(domain)?;
    }
    Err(Fault::Form)
}

#[tactic(auto, unfolding(crate::specs::Statements::domain))]
fn domain(alloc: Global, terms: &mut Terms, text: &mut Cursor<'_>) -> Result<E, Fault>
    ensures reads { ReadsTree (spec.domain text.old) terms.new result text.new }
    ensures goes_on { Extends terms.old terms.new }
{
    let domain = expression(alloc, terms, text)?;
    text.expect(b'}')?;
    Ok(domain)
}

/// The form of a thesis that is next.
#[tactic(auto, unfolding(crate::specs::Statements::form))]
pub fn form(alloc: Global, terms: &mut Terms, text: &mut Cursor<'_>) -> Result<Form, Fault>
    ensures reads { ReadsForm (spec.form text.old) terms.new result text.new }
    ensures goes_on { Extends terms.old terms.new }
{
    if text.passes(b'T') {
        type_form(alloc, terms, text)
    } else if text.passes(b't') {
        term_form(alloc, terms, text)
    } else {
        equation(alloc, terms, text)
    }
}

#[tactic(auto, unfolding(crate::specs::Statements::type_form))]
fn type_form(alloc: Global, terms: &mut Terms, text: &mut Cursor<'_>) -> Result<Form, Fault>
    ensures reads { ReadsForm (spec.type_form text.old) terms.new result text.new }
    ensures goes_on { Extends terms.old terms.new }
{
    let a = one(alloc, terms, text)?;
    Ok(Form::Ty(a))
}

#[tactic(auto, unfolding(crate::specs::Statements::term_form))]
fn term_form(alloc: Global, terms: &mut Terms, text: &mut Cursor<'_>) -> Result<Form, Fault>
    ensures reads { ReadsForm (spec.term_form text.old) terms.new result text.new }
    ensures goes_on { Extends terms.old terms.new }
{
    let given = two(alloc, terms, text)?;
    Ok(Form::Tm(given.0, given.1))
}

// An equation as the form of a thesis.
#[tactic(auto, unfolding(crate::specs::Statements::equation, crate::specs::Statements::type_equation, crate::specs::Statements::term_equation))]
fn equation(alloc: Global, terms: &mut Terms, text: &mut Cursor<'_>) -> Result<Form, Fault>
    ensures reads { ReadsForm (spec.equation equal_types equal_terms text.old) terms.new result text.new }
    ensures goes_on { Extends terms.old terms.new }
{
    if text.passes(b'E') {
        let given = two(alloc, terms, text)?;
        Ok(Form::EqTy(given.0, given.1))
    } else if text.passes(b'e') {
        let given = three(alloc, terms, text)?;
        Ok(Form::EqTm(given.0, given.1, given.2))
    } else {
        Err(Fault::Form)
    }
}

/// The goal of a boundary that is next.
#[tactic(auto, unfolding(crate::specs::Statements::goal))]
pub fn goal(alloc: Global, terms: &mut Terms, text: &mut Cursor<'_>) -> Result<Goal, Fault>
    ensures reads { ReadsGoal (spec.goal text.old) terms.new result text.new }
    ensures goes_on { Extends terms.old terms.new }
{
    if text.passes(b'T') {
        Ok(Goal::Ty)
    } else if text.passes(b't') {
        term_wanted(alloc, terms, text)
    } else {
        equation_wanted(alloc, terms, text)
    }
}

#[tactic(auto, unfolding(crate::specs::Statements::term_wanted))]
fn term_wanted(alloc: Global, terms: &mut Terms, text: &mut Cursor<'_>) -> Result<Goal, Fault>
    ensures reads { ReadsGoal (spec.term_wanted text.old) terms.new result text.new }
    ensures goes_on { Extends terms.old terms.new }
{
    let a = one(alloc, terms, text)?;
    Ok(Goal::Tm(a))
}

// An equation as the goal of a boundary.
#[tactic(auto, unfolding(crate::specs::Statements::equation, crate::specs::Statements::type_equation, crate::specs::Statements::term_equation))]
fn equation_wanted(alloc: Global, terms: &mut Terms, text: &mut Cursor<'_>) -> Result<Goal, Fault>
    ensures reads { ReadsGoal (spec.equation type_equation_goal term_equation_goal text.old) terms.new result text.new }
    ensures goes_on { Extends terms.old terms.new }
{
    if text.passes(b'E') {
        let given = two(alloc, terms, text)?;
        Ok(Goal::EqTy(given.0, given.1))
    } else if text.passes(b'e') {
        let given = three(alloc, terms, text)?;
        Ok(Goal::EqTm(given.0, given.1, given.2))
    } else {
        Err(Fault::Form)
    }
}

// An expression with a space before it.
#[tactic(auto, unfolding(crate::specs::Statements::one))]
fn one(alloc: Global, terms: &mut Terms, text: &mut Cursor<'_>) -> Result<E, Fault>
    ensures reads { ReadsTree (spec.one text.old) terms.new result text.new }
    ensures goes_on { Extends terms.old terms.new }
{
    text.expect(b' ')?;
    expression(alloc, terms, text)
}

// Two expressions, with a space before each.
#[tactic(auto, using(crate::proofs::Reading::two_read, ft_syntax::specs::Laws::extends_trans), unfolding(crate::specs::Statements::two))]
fn two(alloc: Global, terms: &mut Terms, text: &mut Cursor<'_>) -> Result<(E, E), Fault>
    ensures reads { ReadsPair (spec.two text.old) terms.new result text.new }
    ensures goes_on { Extends terms.old terms.new }
{
    let a = one(alloc, terms, text)?;
    let b = one(alloc, terms, text)?;
    Ok((a, b))
}

// Three expressions, with a space before each.
#[tactic(auto, using(crate::proofs::Reading::three_read, ft_syntax::specs::Laws::extends_trans), unfolding(crate::specs::Statements::three))]
fn three(alloc: Global, terms: &mut Terms, text: &mut Cursor<'_>) -> Result<(E, E, E), Fault>
    ensures reads { ReadsTriple (spec.three text.old) terms.new result text.new }
    ensures goes_on { Extends terms.old terms.new }
{
    let a = one(alloc, terms, text)?;
    let others = two(alloc, terms, text)?;
    Ok((a, others.0, others.1))
}
