//! Reading commands.

ghost use Rattle.std.specs.Prelude.{◌≡◌, [], length};
ghost use Rattle.ft_grammar.specs.Forms.{is_no_end};
ghost use Rattle.ft_grammar.specs.Grammar as rule;
ghost use Rattle.ft_grammar.specs.Grammar.{nesting};
ghost use Rattle.ft_grammar.specs.Reading.{Reads, ReadsInto, read, more_from, level};

use crate::cursor::Cursor;
use crate::premises::{NESTING, any_conclusion, outer_expression, premises};
use crate::types::nested_type;
use ft_base::Word;
use ft_grammar::{Command, Mark, SyntaxFault};
use std::alloc::Global;

#[tactic(auto, unfolding(ft_grammar::specs::Grammar::rule_command))]
fn rule_command(alloc: Global, tokens: &mut Cursor<'_>) -> Result<Command, SyntaxFault>
    ensures { Reads (read (level nesting) rule.rule_command tokens.old) result tokens.new }
{
    let at = tokens.start();
    tokens.expect_word(Word::Rule)?;
    let name = tokens.name()?;
    let premises = premises(alloc, tokens)?;
    let concludes = any_conclusion(alloc, tokens)?;
    Ok(Command::Rule(at, name, premises, concludes))
}

#[tactic(auto, unfolding(ft_grammar::specs::Grammar::let_command))]
fn let_command(alloc: Global, tokens: &mut Cursor<'_>) -> Result<Command, SyntaxFault>
    ensures { Reads (read (level nesting) rule.let_command tokens.old) result tokens.new }
{
    let at = tokens.start();
    tokens.expect_word(Word::Let)?;
    let name = tokens.name()?;
    tokens.expect_mark(Mark::Equals)?;
    let value = outer_expression(alloc, tokens)?;
    Ok(Command::Let(at, name, value.into_inner()))
}

#[tactic(auto, unfolding(ft_grammar::specs::Grammar::operation_command))]
fn operation_command(alloc: Global, tokens: &mut Cursor<'_>) -> Result<Command, SyntaxFault>
    ensures { Reads (read (level nesting) rule.operation_command tokens.old) result tokens.new }
{
    let at = tokens.start();
    tokens.expect_word(Word::Operation)?;
    let name = tokens.name()?;
    let argument = nested_type(alloc, tokens, NESTING, false)?;
    tokens.expect_mark(Mark::Colon)?;
    let answer = nested_type(alloc, tokens, NESTING, true)?;
    Ok(Command::Operation(at, name, argument, answer))
}

#[tactic(auto, unfolding(ft_grammar::specs::Grammar::computation_command))]
fn computation_command(tokens: &mut Cursor<'_>) -> Result<Command, SyntaxFault>
    ensures { Reads (read (level nesting) rule.computation_command tokens.old) result tokens.new }
{
    let at = tokens.start();
    tokens.expect_word(Word::Computation)?;
    let name = tokens.name()?;
    Ok(Command::Computation(at, name))
}

#[tactic(auto, unfolding(ft_grammar::specs::Grammar::extensionality_command))]
fn extensionality_command(tokens: &mut Cursor<'_>) -> Result<Command, SyntaxFault>
    ensures { Reads (read (level nesting) rule.extensionality_command tokens.old) result tokens.new }
{
    let at = tokens.start();
    tokens.expect_word(Word::Extensionality)?;
    let name = tokens.name()?;
    Ok(Command::Extensionality(at, name))
}

#[tactic(auto, unfolding(ft_grammar::specs::Grammar::show_command))]
fn show_command(alloc: Global, tokens: &mut Cursor<'_>) -> Result<Command, SyntaxFault>
    ensures { Reads (read (level nesting) rule.show_command tokens.old) result tokens.new }
{
    let at = tokens.start();
    tokens.expect_word(Word::Show)?;
    let shown = outer_expression(alloc, tokens)?;
    Ok(Command::Show(at, shown.into_inner()))
}

#[tactic(auto, unfolding(ft_grammar::specs::Grammar::any_command))]
fn any_command(alloc: Global, tokens: &mut Cursor<'_>) -> Result<Command, SyntaxFault>
    ensures { Reads (read (level nesting) rule.any_command tokens.old) result tokens.new }
{
    if tokens.sees_word(Word::Rule) {
        rule_command(alloc, tokens)
    } else if tokens.sees_word(Word::Let) {
        let_command(alloc, tokens)
    } else if tokens.sees_word(Word::Operation) {
        operation_command(alloc, tokens)
    } else if tokens.sees_word(Word::Computation) {
        computation_command(tokens)
    } else if tokens.sees_word(Word::Extensionality) {
        extensionality_command(tokens)
    } else {
        show_command(alloc, tokens)
    }
}

/// The commands up to the end.
#[tactic(auto, using(crate::proofs::MoreTurns::more_stops, crate::proofs::MoreTurns::more_ends, crate::proofs::MoreTurns::more_goes, crate::proofs::MoreTurns::more_fails), unfolding(ft_grammar::specs::Grammar::commands))]
pub fn commands(alloc: Global, tokens: &mut Cursor<'_>) -> Result<Vec<Command>, SyntaxFault>
    ensures { ReadsInto (read (level nesting) rule.commands tokens.old) result tokens.new (λ found. found.items) }
{
    let mut found = Vec::new(alloc);
    for _turn in 0..tokens.left() {
        if !tokens.sees_no_end() {
            return Ok(found);
        }
        found.push(any_command(alloc, tokens)?)?;
    }
    Ok(found)
}
