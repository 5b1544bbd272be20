//! Reading expressions into a table.

ghost use Rattle.std.specs.Prelude.{◌≡◌, ◌<◌, [], length, map};
ghost use Rattle.ft_theory.specs.Expressions.{bound, free, symbol, meta};
ghost use Rattle.ft_syntax.specs.Table.{tree, Extends, arguments_in, ArgumentsBelow, AllBelow};
ghost use Rattle.ft_lines.specs.Expressions as spec;
ghost use Rattle.ft_lines.specs.Expressions.{ReadsTree, ReadsArgument, ReadsArguments, ReadsTerms, IsFormed};

use crate::cursor::Cursor;
use crate::fault::Fault;
use ft_base::limits::MAX_DEPTH;
use ft_syntax::{Arg, E, SynFault, Terms};
use sqlite_items::Items;
use std::alloc::Global;

/// The expression that is next, in the table.
pub fn expression(alloc: Global, terms: &mut Terms, text: &mut Cursor<'_>) -> Result<E, Fault>
    ensures reads { ReadsTree (spec.expression text.old) terms.new result text.new }
    ensures goes_on { Extends terms.old terms.new }
{
    expression_within(alloc, terms, text, MAX_DEPTH as usize)
}

// The expression that is next, of no more than this depth.
#[cycle(reading)]
fn expression_within(
    alloc: Global,
    terms: &mut Terms,
    text: &mut Cursor<'_>,
    depth: usize,
) -> Result<E, Fault>
    ensures reads { ReadsTree (spec.expression_within depth text.old) terms.new result text.new }
    ensures goes_on { Extends terms.old terms.new }
{
    if depth == 0 {
        return Err(Fault::Form);
    }
    level(alloc, terms, text, depth - 1)
}

// The expression that is next, where those inside are of no more than this depth.
#[cycle(reading)]
#[tactic(auto, unfolding(crate::specs::Expressions::level))]
fn level(alloc: Global, terms: &mut Terms, text: &mut Cursor<'_>, depth: usize) -> Result<E, Fault>
    ensures reads { ReadsTree (spec.level (spec.expression_within depth) text.old) terms.new result text.new }
    ensures goes_on { Extends terms.old terms.new }
{
    if text.passes(b'b') {
        bound_variable(terms, text)
    } else if text.passes(b'v') {
        free_variable(terms, text)
    } else {
        application(alloc, terms, text, depth)
    }
}

#[cycle(reading)]
#[tactic(auto, unfolding(crate::specs::Expressions::application))]
fn application(
    alloc: Global,
    terms: &mut Terms,
    text: &mut Cursor<'_>,
    depth: usize,
) -> Result<E, Fault>
    ensures reads { ReadsTree (spec.application (spec.expression_within depth) text.old) terms.new result text.new }
    ensures goes_on { Extends terms.old terms.new }
{
    if text.passes(b's') {
        symbol_applied(alloc, terms, text, depth)
    } else if text.passes(b'm') {
        meta_applied(alloc, terms, text, depth)
    } else {
        Err(Fault::Form)
    }
}

// A bound variable, after its letter.
#[tactic(auto, using(crate::proofs::Forming::formed_reads), unfolding(crate::specs::Expressions::bound_variable))]
fn bound_variable(terms: &mut Terms, text: &mut Cursor<'_>) -> Result<E, Fault>
    ensures reads { ReadsTree (spec.bound_variable text.old) terms.new result text.new }
    ensures goes_on { Extends terms.old terms.new }
{
    let i = text.number()?;
    bound_in(terms, i)
}

// A free variable, after its letter.
#[tactic(auto, using(crate::proofs::Forming::formed_reads), unfolding(crate::specs::Expressions::free_variable))]
fn free_variable(terms: &mut Terms, text: &mut Cursor<'_>) -> Result<E, Fault>
    ensures reads { ReadsTree (spec.free_variable text.old) terms.new result text.new }
    ensures goes_on { Extends terms.old terms.new }
{
    let v = text.number()?;
    free_in(terms, v)
}

// An application of a symbol, after its letter.
#[cycle(reading)]
#[tactic(auto, using(crate::proofs::Forming::formed_reads), unfolding(crate::specs::Expressions::symbol_applied))]
fn symbol_applied(
    alloc: Global,
    terms: &mut Terms,
    text: &mut Cursor<'_>,
    depth: usize,
) -> Result<E, Fault>
    ensures reads { ReadsTree (spec.symbol_applied (spec.expression_within depth) text.old) terms.new result text.new }
    ensures goes_on { Extends terms.old terms.new }
{
    let s = text.number()?;
    let args = arguments(alloc, terms, text, depth)?;
    symbol_in(terms, s, args.as_slice())
}

// An application of a metavariable, after its letter.
#[cycle(reading)]
#[tactic(auto, using(crate::proofs::Forming::formed_reads), unfolding(crate::specs::Expressions::meta_applied))]
fn meta_applied(
    alloc: Global,
    terms: &mut Terms,
    text: &mut Cursor<'_>,
    depth: usize,
) -> Result<E, Fault>
    ensures reads { ReadsTree (spec.meta_applied (spec.expression_within depth) text.old) terms.new result text.new }
    ensures goes_on { Extends terms.old terms.new }
{
    let m = text.number()?;
    let args = given_terms(alloc, terms, text, depth)?;
    meta_in(terms, m, args.as_slice())
}

// The arguments in parentheses that are next.
#[cycle(reading)]
#[tactic(auto, unfolding(crate::specs::Expressions::in_parentheses))]
fn arguments(
    alloc: Global,
    terms: &mut Terms,
    text: &mut Cursor<'_>,
    depth: usize,
) -> Result<Items<Arg>, Fault>
    ensures reads { ReadsArguments (spec.in_parentheses (spec.argument (spec.expression_within depth)) text.old) terms.new result text.new }
    ensures goes_on { Extends terms.old terms.new }
{
    text.expect(b'(')?;
    if text.passes(b')') {
        return Ok(Items::new(alloc));
    }
    let found = some_arguments(alloc, terms, text, depth)?;
    text.expect(b')')?;
    Ok(found)
}

// One argument or more.
#[cycle(reading)]
#[tactic(auto, unfolding(crate::specs::Expressions::items_from))]
fn some_arguments(
    alloc: Global,
    terms: &mut Terms,
    text: &mut Cursor<'_>,
    depth: usize,
) -> Result<Items<Arg>, Fault>
    ensures reads { ReadsArguments (spec.items_from (spec.argument (spec.expression_within depth)) (length text.old) [] text.old) terms.new result text.new }
    ensures goes_on { Extends terms.old terms.new }
{
    let mut found = Items::new(alloc);
    for _turn in 0..text.left() {
        let (binders, body) = argument(alloc, terms, text, depth)?;
        found.push(Arg { binders, body })?;
        if !text.passes(b',') {
            return Ok(found);
        }
    }
    Err(Fault::Form)
}

#[cycle(reading)]
#[tactic(auto, unfolding(crate::specs::Expressions::argument))]
fn argument(
    alloc: Global,
    terms: &mut Terms,
    text: &mut Cursor<'_>,
    depth: usize,
) -> Result<(u64, Option<E>), Fault>
    ensures reads { ReadsArgument (spec.argument (spec.expression_within depth) text.old) terms.new result text.new }
    ensures goes_on { Extends terms.old terms.new }
{
    let binders = text.number()?;
    text.expect(b'.')?;
    if text.passes(b'*') {
        return Ok((binders, None));
    }
    let body = expression_within(alloc, terms, text, depth)?;
    Ok((binders, Some(body)))
}

// The terms in parentheses that are next.
#[cycle(reading)]
#[tactic(auto, unfolding(crate::specs::Expressions::in_parentheses))]
fn given_terms(
    alloc: Global,
    terms: &mut Terms,
    text: &mut Cursor<'_>,
    depth: usize,
) -> Result<Items<E>, Fault>
    ensures reads { ReadsTerms (spec.in_parentheses (spec.expression_within depth) text.old) terms.new result text.new }
    ensures goes_on { Extends terms.old terms.new }
{
    text.expect(b'(')?;
    if text.passes(b')') {
        return Ok(Items::new(alloc));
    }
    let found = some_terms(alloc, terms, text, depth)?;
    text.expect(b')')?;
    Ok(found)
}

// One term or more.
#[cycle(reading)]
#[tactic(auto, unfolding(crate::specs::Expressions::items_from))]
fn some_terms(
    alloc: Global,
    terms: &mut Terms,
    text: &mut Cursor<'_>,
    depth: usize,
) -> Result<Items<E>, Fault>
    ensures reads { ReadsTerms (spec.items_from (spec.expression_within depth) (length text.old) [] text.old) terms.new result text.new }
    ensures goes_on { Extends terms.old terms.new }
{
    let mut found = Items::new(alloc);
    for _turn in 0..text.left() {
        let term = expression_within(alloc, terms, text, depth)?;
        found.push(term)?;
        if !text.passes(b',') {
            return Ok(found);
        }
    }
    Err(Fault::Form)
}

// The bound variable of a number, where it is small.
#[tactic(auto, using(crate::proofs::Forming::formed_is))]
fn bound_in(terms: &mut Terms, i: u64) -> Result<E, Fault>
    ensures formed { IsFormed (bound i) terms.new result }
    ensures goes_on { Extends terms.old terms.new }
{
    formed(terms.bound(i))
}

// The free variable of a number.
#[tactic(auto, using(crate::proofs::Forming::formed_is))]
fn free_in(terms: &mut Terms, v: u64) -> Result<E, Fault>
    ensures formed { IsFormed (free v) terms.new result }
    ensures goes_on { Extends terms.old terms.new }
{
    formed(terms.free(v))
}

// The application of a symbol, where it is small.
#[tactic(auto, using(crate::proofs::Forming::formed_is))]
fn symbol_in(terms: &mut Terms, s: u64, args: &[Arg]) -> Result<E, Fault>
    requires { ArgumentsBelow (length terms.old) args.now }
    ensures formed { IsFormed (symbol s (arguments_in terms.old args.now)) terms.new result }
    ensures goes_on { Extends terms.old terms.new }
{
    formed(terms.symbol(s, args))
}

// The application of a metavariable, where it is small.
#[tactic(auto, using(crate::proofs::Forming::formed_is))]
fn meta_in(terms: &mut Terms, m: u64, args: &[E]) -> Result<E, Fault>
    requires { AllBelow (length terms.old) args.now }
    ensures formed { IsFormed (meta m (spec.terms_of (map (tree terms.old) args.now))) terms.new result }
    ensures goes_on { Extends terms.old terms.new }
{
    formed(terms.meta(m, args))
}

// What is not small is not of the form.
fn formed(made: Result<E, SynFault>) -> Result<E, Fault>
    ensures { result ≡ spec.outcome_of made }
{
    match made {
        Ok(e) => Ok(e),
        Err(SynFault::TooBig) => Err(Fault::Form),
        Err(SynFault::Memory) => Err(Fault::Memory),
    }
}
