//! Laws of the grammar of sources. Each is a function that does nothing, whose contract is the law.
#![tactic(auto)]

ghost use Rattle.ft_grammar_laws.specs.Laws.{OneTree, InGrammarIsAccepted, AcceptedIsInGrammar, ReadExactlyAsSource, NeverMemory, UnexpectedIsFirst, TooNestedCannotGoOn, TokensClosed};

/// A list of tokens has at most one list of commands, whatever the nesting that is allowed.
pub fn one_tree()
    ensures law { OneTree }
{}

/// What is in the grammar is read, as the same commands.
pub fn in_grammar_is_accepted()
    ensures law { InGrammarIsAccepted }
{}

/// What is read is in the grammar, as the same commands.
pub fn accepted_is_in_grammar()
    ensures law { AcceptedIsInGrammar }
{}

/// A source is read in exactly one way: closed tokens are read as commands exactly where they are a source of them, and reading
/// never answers that memory was refused.
pub fn read_exactly_as_source()
    ensures law { ReadExactlyAsSource }
    ensures never_memory { NeverMemory }
{}

/// `Unexpected` names the first token that no continuation of the tokens before it allows, whatever the nesting.
pub fn unexpected_is_first()
    ensures law { UnexpectedIsFirst }
{}

/// `TooNested` names a token with which no source goes on at the nesting of sources, where one goes on with the tokens before it at
/// some nesting.
pub fn too_nested_cannot_go_on()
    ensures law { TooNestedCannotGoOn }
{}

/// The tokens of any text are closed: the last one, and no other, is the end.
pub fn tokens_closed()
    ensures law { TokensClosed }
{}
