//! Reading a source from its bytes.
ghost use Rattle.std.specs.Prelude.{◌≡◌, IfOk, IfSome, IfNone, IsErrOf, List, true, false};
ghost use Rattle.std.specs.List.{list_all};
ghost use Rattle.std.specs.Str.{chars as chars_of};
ghost use Rattle.ft_grammar.specs.Tokens.{tokens_of};
ghost use Rattle.ft_applications_meaning.specs.Grammar.{kinds};
ghost use Rattle.ft_applications.specs.Reading.{source, ReadsAll};
ghost use Rattle.ft_applications_meaning.specs.Transcript.{IsPlainSource, is_plain_character};
ghost use Rattle.ft_applications.specs.declared.fault.Fault.TheVariants as fault;
ghost use Rattle.ft_applications_meaning.specs.declared.syntax.Command.{Command as Tree};

use crate::fault::Fault;
use crate::reader::read_commands;
use ft_applications_meaning::Command;
use ft_lexer::tokens;
use sqlite_items::Items;
use std::alloc::Global;

fn is_plain(c: u8) -> bool
    ensures { result ≡ is_plain_character c }
{
    (b'a' <= c && c <= b'z')
        || (b'A' <= c && c <= b'Z')
        || (b'0' <= c && c <= b'9')
        || c == b' '
        || c == b'\n'
        || c == b'('
        || c == b')'
        || c == b':'
}

fn are_plain(bytes: &[u8]) -> bool
    ensures { result ≡ list_all is_plain_character bytes.now }
{
    bytes.iter().all(|c| is_plain(*c))
}

// The bytes as a text, where all are plain characters.
#[tactic(auto, using(crate::proofs::Plain::plain_utf8))]
fn plain_text(bytes: &[u8]) -> Option<&str>
    ensures text { IfSome result (λ t. t.now ≡ bytes.now) }
    ensures plain { IfSome result (λ t. list_all is_plain_character bytes.now ≡ true) }
    ensures none { IfNone result (list_all is_plain_character bytes.now ≡ false) }
{
    if !are_plain(bytes) {
        return None;
    }
    match str::from_utf8(bytes) {
        Ok(text) => Some(text),
        Err(_) => None,
    }
}

/// The commands of a source, or `NotYet` where it is the source of none in this language.
#[tactic(auto, using(crate::proofs::Plain::source_is, crate::proofs::Plain::only_source, crate::proofs::Plain::no_source))]
pub fn read_source(alloc: Global, bytes: &[u8]) -> Result<Items<Command>, Fault>
    ensures commands { IfOk result (λ cs. IsPlainSource bytes.now cs) }
    ensures only { IfOk result (λ cs. (ds : List Tree) → IsPlainSource bytes.now ds → ds ≡ cs) }
    ensures none { IsErrOf result fault.NotYet → (cs : List Tree) → IsPlainSource bytes.now cs → ⊥ }
{
    match plain_text(bytes) {
        None => Err(Fault::NotYet),
        Some(text) => commands_of(alloc, text),
    }
}

// The commands of a text's tokens.
fn commands_of(alloc: Global, text: &str) -> Result<Items<Command>, Fault>
    ensures { ReadsAll (source (kinds (tokens_of (chars_of text.now)))) result }
{
    read_commands(alloc, &tokens(alloc, text)?)
}
