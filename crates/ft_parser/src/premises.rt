//! Reading premises and conclusions.

ghost use Rattle.std.specs.Prelude.{◌≡◌, [], length};
ghost use Rattle.ft_grammar.specs.declared.token.Mark.TheVariants.{LeftBrace, LeftParen};
ghost use Rattle.ft_grammar.specs.Rules.{expression, is_mark};
ghost use Rattle.ft_grammar.specs.Grammar as rule;
ghost use Rattle.ft_grammar.specs.Grammar.{nesting};
ghost use Rattle.ft_grammar.specs.Reading.{Reads, read, more_from, level};

use crate::computations::nested_expression;
use crate::cursor::Cursor;
use ft_base::Word;
use ft_base::limits::MAX_NESTING;
use ft_grammar::{Ast, Binder, Body, Conclusion, Mark, Premise, SyntaxFault};
use sqlite_items::{Boxed, Items};
use std::alloc::Global;

/// The deepest nesting of the parts of a source.
pub const NESTING: usize = MAX_NESTING as usize;

/// An expression that stands in no other part.
pub fn outer_expression(alloc: Global, tokens: &mut Cursor<'_>) -> Result<Boxed<Ast>, SyntaxFault>
    ensures { Reads (level nesting expression tokens.old) result tokens.new }
{
    nested_expression(alloc, tokens, NESTING)
}

#[tactic(auto, unfolding(ft_grammar::specs::Grammar::binder))]
fn binder(alloc: Global, tokens: &mut Cursor<'_>) -> Result<Binder, SyntaxFault>
    ensures { Reads (read (level nesting) rule.binder tokens.old) result tokens.new }
{
    let at = tokens.start();
    tokens.expect_mark(Mark::LeftBrace)?;
    let name = tokens.name()?;
    tokens.expect_mark(Mark::Colon)?;
    let domain = outer_expression(alloc, tokens)?;
    tokens.expect_mark(Mark::RightBrace)?;
    Ok(Binder {
        at,
        name,
        domain: domain.into_inner(),
    })
}

#[tactic(auto, using(crate::proofs::MoreTurns::more_stops, crate::proofs::MoreTurns::more_ends, crate::proofs::MoreTurns::more_goes, crate::proofs::MoreTurns::more_fails))]
fn binders(alloc: Global, tokens: &mut Cursor<'_>) -> Result<Items<Binder>, SyntaxFault>
    ensures { Reads (more_from (is_mark LeftBrace) (read (level nesting) rule.binder) (length tokens.old) [] tokens.old) result tokens.new }
{
    let mut found = Items::new(alloc);
    for _turn in 0..tokens.left() {
        if !tokens.sees_mark(Mark::LeftBrace) {
            return Ok(found);
        }
        found.push(binder(alloc, tokens)?)?;
    }
    Ok(found)
}

#[tactic(auto, unfolding(ft_grammar::specs::Grammar::type_body))]
fn type_body(alloc: Global, tokens: &mut Cursor<'_>) -> Result<Boxed<Body>, SyntaxFault>
    ensures { Reads (read (level nesting) rule.type_body tokens.old) result tokens.new }
{
    let at = tokens.start();
    let name = tokens.name()?;
    tokens.expect_word(Word::TypeWord)?;
    Ok(Boxed::new(alloc, Body::Type(at, name))?)
}

#[tactic(auto, unfolding(ft_grammar::specs::Grammar::term_body))]
fn term_body(alloc: Global, tokens: &mut Cursor<'_>) -> Result<Boxed<Body>, SyntaxFault>
    ensures { Reads (read (level nesting) rule.term_body tokens.old) result tokens.new }
{
    let at = tokens.start();
    let name = tokens.name()?;
    tokens.expect_mark(Mark::Colon)?;
    let given = outer_expression(alloc, tokens)?;
    Ok(Boxed::new(alloc, Body::Term(at, name, given.into_inner()))?)
}

// The type of an equation, where it is given.
#[tactic(auto, unfolding(ft_grammar::specs::Grammar::equation_type))]
fn equation_type(alloc: Global, tokens: &mut Cursor<'_>) -> Result<Option<Boxed<Ast>>, SyntaxFault>
    ensures { Reads (read (level nesting) rule.equation_type tokens.old) result tokens.new }
{
    if tokens.sees_mark(Mark::Colon) {
        tokens.expect_mark(Mark::Colon)?;
        let given = outer_expression(alloc, tokens)?;
        Ok(Some(given))
    } else {
        Ok(None)
    }
}

fn unboxed(e: Option<Boxed<Ast>>) -> Option<Ast>
    ensures { result ≡ e }
{
    match e {
        Some(e) => Some(e.into_inner()),
        None => None,
    }
}

#[tactic(auto, unfolding(ft_grammar::specs::Grammar::equation_body))]
fn equation_body(alloc: Global, tokens: &mut Cursor<'_>) -> Result<Boxed<Body>, SyntaxFault>
    ensures { Reads (read (level nesting) rule.equation_body tokens.old) result tokens.new }
{
    let at = tokens.start();
    let left = outer_expression(alloc, tokens)?;
    tokens.expect_mark(Mark::DoubleEquals)?;
    let right = outer_expression(alloc, tokens)?;
    let under = equation_type(alloc, tokens)?;
    tokens.expect_word(Word::By)?;
    let name = tokens.name()?;
    let body = Body::Equation(
        at,
        left.into_inner(),
        right.into_inner(),
        unboxed(under),
        name,
    );
    Ok(Boxed::new(alloc, body)?)
}

// What a premise asks for; binders belong to the premise.
#[tactic(auto, unfolding(ft_grammar::specs::Grammar::any_body))]
fn any_body(alloc: Global, tokens: &mut Cursor<'_>) -> Result<Boxed<Body>, SyntaxFault>
    ensures { Reads (read (level nesting) rule.any_body tokens.old) result tokens.new }
{
    if tokens.sees_mark(Mark::LeftBrace) {
        Err(tokens.unexpected())
    } else if tokens.sees_name_and_word(Word::TypeWord) {
        type_body(alloc, tokens)
    } else if tokens.sees_name_and_mark(Mark::Colon) {
        term_body(alloc, tokens)
    } else {
        equation_body(alloc, tokens)
    }
}

#[tactic(auto, unfolding(ft_grammar::specs::Grammar::premise))]
fn premise(alloc: Global, tokens: &mut Cursor<'_>) -> Result<Premise, SyntaxFault>
    ensures { Reads (read (level nesting) rule.premise tokens.old) result tokens.new }
{
    let at = tokens.start();
    tokens.expect_mark(Mark::LeftParen)?;
    let binders = binders(alloc, tokens)?;
    let body = any_body(alloc, tokens)?;
    tokens.expect_mark(Mark::RightParen)?;
    Ok(Premise {
        at,
        binders,
        body: body.into_inner(),
    })
}

#[tactic(auto, using(crate::proofs::MoreTurns::more_stops, crate::proofs::MoreTurns::more_ends, crate::proofs::MoreTurns::more_goes, crate::proofs::MoreTurns::more_fails))]
pub fn premises(alloc: Global, tokens: &mut Cursor<'_>) -> Result<Items<Premise>, SyntaxFault>
    ensures { Reads (more_from (is_mark LeftParen) (read (level nesting) rule.premise) (length tokens.old) [] tokens.old) result tokens.new }
{
    let mut found = Items::new(alloc);
    for _turn in 0..tokens.left() {
        if !tokens.sees_mark(Mark::LeftParen) {
            return Ok(found);
        }
        found.push(premise(alloc, tokens)?)?;
    }
    Ok(found)
}

#[tactic(auto, unfolding(ft_grammar::specs::Grammar::type_conclusion))]
fn type_conclusion(tokens: &mut Cursor<'_>) -> Result<Conclusion, SyntaxFault>
    ensures { Reads (read (level nesting) rule.type_conclusion tokens.old) result tokens.new }
{
    let at = tokens.start();
    tokens.expect_word(Word::TypeWord)?;
    Ok(Conclusion::Type(at))
}

#[tactic(auto, unfolding(ft_grammar::specs::Grammar::term_conclusion))]
fn term_conclusion(alloc: Global, tokens: &mut Cursor<'_>) -> Result<Conclusion, SyntaxFault>
    ensures { Reads (read (level nesting) rule.term_conclusion tokens.old) result tokens.new }
{
    let at = tokens.start();
    tokens.expect_mark(Mark::Colon)?;
    let first = outer_expression(alloc, tokens)?;
    if tokens.sees_mark(Mark::DoubleEquals) {
        tokens.expect_mark(Mark::DoubleEquals)?;
        let second = outer_expression(alloc, tokens)?;
        let under = equation_type(alloc, tokens)?;
        Ok(Conclusion::Equation(at, first.into_inner(), second.into_inner(), unboxed(under)))
    } else {
        Ok(Conclusion::Term(at, first.into_inner()))
    }
}

#[tactic(auto, unfolding(ft_grammar::specs::Grammar::any_conclusion))]
pub fn any_conclusion(alloc: Global, tokens: &mut Cursor<'_>) -> Result<Conclusion, SyntaxFault>
    ensures { Reads (read (level nesting) rule.any_conclusion tokens.old) result tokens.new }
{
    if tokens.sees_word(Word::TypeWord) {
        type_conclusion(tokens)
    } else {
        term_conclusion(alloc, tokens)
    }
}
