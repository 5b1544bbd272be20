//! Reading a whole source.

ghost use Rattle.std.specs.Prelude.{◌≡◌, ◌≢◌, ℕ, List, IfOk, IfErr, IsErrOf, IsTrue};
ghost use Rattle.ft_grammar.specs.Made.{is_ended};
ghost use Rattle.ft_grammar.specs.Grammar.{IsSource, nesting};
ghost use Rattle.ft_grammar.specs.Reading as spec;
ghost use Rattle.ft_grammar.specs.Reading.{ReadsAll};
ghost use Rattle.ft_grammar.specs.Sources.{IsTooNested, IsFirstUnexpected};
ghost use Rattle.ft_grammar.specs.declared.fault.SyntaxFault.TheVariants.{Memory, TooNested, Unexpected};
ghost use Rattle.ft_grammar.specs.declared.syntax.Command.{Command as AnyCommand};

use crate::commands::commands;
use crate::cursor::Cursor;
use ft_grammar::{Command, SyntaxFault, Token};
use ft_grammar_laws::{
    accepted_is_in_grammar, in_grammar_is_accepted, too_nested_cannot_go_on, unexpected_is_first,
};
use std::alloc::Global;

/// The commands of a source, by its tokens. `Unexpected` names the first token with which no source goes on at any nesting.
/// `TooNested` names a token with which none goes on at the nesting of sources, where one goes on with the tokens before it at some
/// nesting.
pub fn parse(alloc: Global, tokens: &[Token]) -> Result<Vec<Command>, SyntaxFault>
    requires { IsTrue (is_ended tokens.now) }
    ensures reads { ReadsAll (spec.parse tokens.now) result (λ found. found.items) }
    ensures accepted { IfOk result (λ found. IsSource nesting found.items tokens.now) }
    ensures refused { IfErr result (λ e. e ≢ Memory → (c : List AnyCommand) → IsSource nesting c tokens.now → ⊥) }
    ensures unexpected { (at : ℕ) → IsErrOf result (Unexpected at) → IsFirstUnexpected at tokens.now }
    ensures too_nested { (at : ℕ) → IsErrOf result (TooNested at) → IsTooNested nesting at tokens.now }
{
    accepted_is_in_grammar();
    in_grammar_is_accepted();
    unexpected_is_first();
    too_nested_cannot_go_on();
    read_source(alloc, tokens)
}

#[tactic(auto, unfolding(ft_grammar::specs::Reading::parse))]
fn read_source(alloc: Global, tokens: &[Token]) -> Result<Vec<Command>, SyntaxFault>
    ensures { ReadsAll (spec.parse tokens.now) result (λ found. found.items) }
{
    commands(alloc, &mut Cursor::new(tokens))
}
