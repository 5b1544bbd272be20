//! Reading a source.
ghost use Rattle.std.specs.Prelude.{[], length};
ghost use Rattle.ft_applications_meaning.specs.Grammar.{kinds};
ghost use Rattle.ft_applications.specs.Reading as spec;
ghost use Rattle.ft_applications.specs.Reading.{Reads, ReadsAll};
ghost use Rattle.ft_applications.specs.Nests.{Nests};

use crate::cursor::Cursor;
use crate::fault::Fault;
use ft_applications_meaning::{Application, Command, Conclusion, Premise};
use ft_base::Word;
use ft_base::limits::MAX_NESTING;
use ft_grammar::{Mark, Token};
use sqlite_items::Items;
use std::alloc::Global;

// The deepest nesting of a source's applications.
const NESTING: usize = MAX_NESTING as usize;

// The rules for applications take the reader of applications one level deeper, so that each is proved by itself.
#[derive(Clone, Copy)]
pub struct Grammar<F> {
    alloc: Global,
    depth: usize,
    expression: F,
}

impl<F: Fn(Global, &mut Cursor<'_>, usize) -> Result<Application, Fault>> Grammar<F> {
    fn inner(&self, tokens: &mut Cursor<'_>) -> Result<Application, Fault>
        requires { Nests self.now.depth (F.pre self.now.expression) (F.post self.now.expression) }
        ensures { Reads (spec.expression self.now.depth tokens.old) result tokens.new }
    {
        (self.expression)(self.alloc, tokens, self.depth)
    }

    #[tactic(auto, unfolding(crate::specs::Reading::one_argument))]
    fn argument(&self, tokens: &mut Cursor<'_>) -> Result<Option<Application>, Fault>
        requires { Nests self.now.depth (F.pre self.now.expression) (F.post self.now.expression) }
        ensures { Reads (spec.one_argument (spec.expression self.now.depth) tokens.old) result tokens.new }
    {
        if tokens.sees_name() {
            let name = tokens.name()?;
            Ok(Some(Application::Apply(name, Items::new(self.alloc))))
        } else if tokens.sees_mark(Mark::LeftParen) {
            tokens.take();
            let given = self.inner(tokens)?;
            tokens.expect_mark(Mark::RightParen)?;
            Ok(Some(given))
        } else {
            Ok(None)
        }
    }

    #[tactic(auto, unfolding(crate::specs::Reading::arguments_from))]
    fn arguments(&self, tokens: &mut Cursor<'_>) -> Result<Items<Application>, Fault>
        requires { Nests self.now.depth (F.pre self.now.expression) (F.post self.now.expression) }
        ensures { Reads (spec.arguments_from (spec.expression self.now.depth) (length tokens.old) [] tokens.old) result tokens.new }
    {
        let mut found = Items::new(self.alloc);
        for _turn in 0..tokens.left() {
            match self.argument(tokens)? {
                None => return Ok(found),
                Some(given) => found.push(given)?,
            }
        }
        Ok(found)
    }

    #[tactic(auto, unfolding(crate::specs::Reading::level))]
    fn level(&self, tokens: &mut Cursor<'_>) -> Result<Application, Fault>
        requires { Nests self.now.depth (F.pre self.now.expression) (F.post self.now.expression) }
        ensures { Reads (spec.level (spec.expression self.now.depth) tokens.old) result tokens.new }
    {
        let name = tokens.name()?;
        let found = self.arguments(tokens)?;
        Ok(Application::Apply(name, found))
    }
}

// An application, nested no deeper than `depth`.
fn expression(alloc: Global, tokens: &mut Cursor<'_>, depth: usize) -> Result<Application, Fault>
    ensures { Reads (spec.expression depth tokens.old) result tokens.new }
{
    if depth == 0 {
        return Err(Fault::NotYet);
    }
    Grammar {
        alloc,
        depth: depth - 1,
        expression,
    }
    .level(tokens)
}

#[tactic(auto, unfolding(crate::specs::Reading::premise_inside))]
fn premise_inside(alloc: Global, tokens: &mut Cursor<'_>) -> Result<Premise, Fault>
    ensures { Reads (spec.premise_inside tokens.old) result tokens.new }
{
    let name = tokens.name()?;
    if tokens.sees_word(Word::TypeWord) {
        tokens.take();
        Ok(Premise::Type(name))
    } else {
        tokens.expect_mark(Mark::Colon)?;
        let given = expression(alloc, tokens, NESTING)?;
        Ok(Premise::Term(name, given))
    }
}

#[tactic(auto, unfolding(crate::specs::Reading::one_premise))]
fn premise(alloc: Global, tokens: &mut Cursor<'_>) -> Result<Option<Premise>, Fault>
    ensures { Reads (spec.one_premise tokens.old) result tokens.new }
{
    if !tokens.sees_mark(Mark::LeftParen) {
        return Ok(None);
    }
    tokens.take();
    let given = premise_inside(alloc, tokens)?;
    tokens.expect_mark(Mark::RightParen)?;
    Ok(Some(given))
}

#[tactic(auto, unfolding(crate::specs::Reading::premises_from))]
fn premises(alloc: Global, tokens: &mut Cursor<'_>) -> Result<Items<Premise>, Fault>
    ensures { Reads (spec.premises_from (length tokens.old) [] tokens.old) result tokens.new }
{
    let mut found = Items::new(alloc);
    for _turn in 0..tokens.left() {
        match premise(alloc, tokens)? {
            None => return Ok(found),
            Some(given) => found.push(given)?,
        }
    }
    Ok(found)
}

#[tactic(auto, unfolding(crate::specs::Reading::concluded))]
fn conclusion(alloc: Global, tokens: &mut Cursor<'_>) -> Result<Conclusion, Fault>
    ensures { Reads (spec.concluded tokens.old) result tokens.new }
{
    if tokens.sees_word(Word::TypeWord) {
        tokens.take();
        Ok(Conclusion::Type)
    } else {
        tokens.expect_mark(Mark::Colon)?;
        let given = expression(alloc, tokens, NESTING)?;
        Ok(Conclusion::Term(given))
    }
}

#[tactic(auto, unfolding(crate::specs::Reading::rule))]
fn rule(alloc: Global, tokens: &mut Cursor<'_>) -> Result<Command, Fault>
    ensures { Reads (spec.rule tokens.old) result tokens.new }
{
    let name = tokens.name()?;
    let premises = premises(alloc, tokens)?;
    let concludes = conclusion(alloc, tokens)?;
    Ok(Command::Rule(name, premises, concludes))
}

#[tactic(auto, unfolding(crate::specs::Reading::show))]
fn show(alloc: Global, tokens: &mut Cursor<'_>) -> Result<Command, Fault>
    ensures { Reads (spec.show tokens.old) result tokens.new }
{
    let shown = expression(alloc, tokens, NESTING)?;
    Ok(Command::Show(shown))
}

#[tactic(auto, unfolding(crate::specs::Reading::one_command))]
fn command(alloc: Global, tokens: &mut Cursor<'_>) -> Result<Command, Fault>
    ensures { Reads (spec.one_command tokens.old) result tokens.new }
{
    if tokens.sees_word(Word::Rule) {
        tokens.take();
        rule(alloc, tokens)
    } else if tokens.sees_word(Word::Show) {
        tokens.take();
        show(alloc, tokens)
    } else {
        Err(Fault::NotYet)
    }
}

#[tactic(auto, unfolding(crate::specs::Reading::commands_from))]
fn commands(alloc: Global, tokens: &mut Cursor<'_>) -> Result<Items<Command>, Fault>
    ensures { Reads (spec.commands_from (length tokens.old) [] tokens.old) result tokens.new }
{
    let mut found = Items::new(alloc);
    for _turn in 0..tokens.left() {
        if tokens.sees_end() {
            return Ok(found);
        }
        found.push(command(alloc, tokens)?)?;
    }
    Err(Fault::NotYet)
}

/// The commands of a source's tokens.
#[tactic(auto, unfolding(crate::specs::Reading::source))]
pub fn read_commands(alloc: Global, tokens: &[Token]) -> Result<Items<Command>, Fault>
    ensures { ReadsAll (spec.source (kinds tokens.now)) result }
{
    commands(alloc, &mut Cursor::new(tokens))
}
