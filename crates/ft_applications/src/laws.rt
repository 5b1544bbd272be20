//! Laws of the grammar and of the transcript.
ghost use Rattle.std.specs.Prelude.{◌≡◌, ◌++◌, ◌+◌, ℕ, List, [], Ok, Some, length};
ghost use Rattle.ft_grammar.specs.declared.token.Kind.{Kind as TokenKind};
ghost use Rattle.ft_applications_meaning.specs.declared.syntax.Command.{Command as Tree};
ghost use Rattle.ft_applications.specs.Reading as spec;
ghost use Rattle.ft_applications_meaning.specs.Grammar.{AreCommands};
ghost use Rattle.ft_applications_meaning.specs.Building.{Declaration};
ghost use Rattle.ft_applications_meaning.specs.Events.{Event, events, run_of};
ghost use Rattle.ft_applications_meaning.specs.OneLine.{AreLines};
ghost use Rattle.ft_applications_meaning.specs.Transcript.{IsPlainSource, IsTranscript, text_of, status_of};

use ft_lexer::laws::a_text_is_made_of_its_tokens;

/// What is in the grammar is read, as the same commands.
pub fn what_is_in_the_grammar_is_read()
    ensures law { (cs : List Tree) (ks : List TokenKind) → AreCommands cs ks → spec.source ks ≡ Ok cs }
{}

/// A list of tokens has at most one list of commands.
pub fn at_most_one_tree()
    ensures law { (cs ds : List Tree) (ks : List TokenKind) → AreCommands cs ks → AreCommands ds ks → cs ≡ ds }
{}

/// What is read is in the grammar.
pub fn what_is_read_is_in_the_grammar()
    ensures law { (cs : List Tree) (ks : List TokenKind) → spec.source ks ≡ Ok cs → AreCommands cs ks }
{}

/// A source has a transcript, and no other: text and status are functions of the bytes.
pub fn one_transcript()
    ensures some { (bytes : List ℕ) → (text : List ℕ) × ((status : ℕ) × IsTranscript bytes text status) }
    ensures one { (bytes text text' : List ℕ) (status status' : ℕ) → IsTranscript bytes text status → IsTranscript bytes text' status' → (text ≡ text') × (status ≡ status') }
{}

/// Where commands and further ones after them are built, and no rule among the former has the name of an earlier one, the
/// lines of the former are the beginning of the lines of all.
pub fn lines_go_on()
    ensures law { (ds : List Declaration) (cs more : List Tree) (es all : List Event) → events ds cs ≡ Some es → status_of es ≡ 0 → events ds (cs ++ more) ≡ Some all → (rest : List ℕ) × (text_of all ≡ text_of es ++ rest) }
{}

/// Where the commands of a source are built, there is one line for each; or, where a rule has the name of an earlier one, for
/// each of the commands before it, and one more.
pub fn one_line_for_each_command()
    ensures all { (bytes : List ℕ) (cs : List Tree) (es : List Event) → IsPlainSource bytes cs → events [] cs ≡ Some es → status_of es ≡ 0 → AreLines (length cs) (text_of es) }
    ensures ended { (bytes : List ℕ) (cs : List Tree) (es : List Event) → IsPlainSource bytes cs → events [] cs ≡ Some es → status_of es ≡ 9 → AreLines (length (run_of es) + 1) (text_of es) }
{
    a_text_is_made_of_its_tokens();
}
