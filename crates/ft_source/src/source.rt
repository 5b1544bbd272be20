//! Reading a source from its bytes.

ghost use Rattle.std.specs.Prelude.{◌≡◌, ◌≢◌, IfOk, IfErr, map};
ghost use Rattle.ft_meaning.specs.Trees.{command_of};
ghost use Rattle.ft_meaning.specs.Sources.{commands, IsText, HasContent};
ghost use Rattle.ft_source.specs.Contents.{HasFault};
ghost use Rattle.ft_source.specs.declared.fault.SourceFault.TheVariants.{Memory};

use crate::fault::SourceFault;
use ft_base::limits::MAX_SOURCE_BYTES;
use ft_lexer::tokens;
use ft_parser::{Command, SyntaxFault, parse};
use std::alloc::Global;

/// The text that the bytes are, where they are not too many.
pub fn text_of(bytes: &[u8]) -> Result<&str, SourceFault>
    ensures same { IfOk result (λ text. text.now ≡ bytes.now) }
    ensures text { IfOk result (λ text. IsText bytes.now) }
    ensures fault { IfErr result (λ fault. HasFault bytes.now fault) }
    ensures told { IfErr result (λ fault. fault ≢ Memory) }
{
    if bytes.len() as u64 > MAX_SOURCE_BYTES {
        return Err(SourceFault::TooLong);
    }
    match str::from_utf8(bytes) {
        Ok(text) => Ok(text),
        Err(error) => Err(SourceFault::NoText(error.valid_up_to() as u64)),
    }
}

/// The commands of a text that has not too many bytes.
pub fn commands_of(alloc: Global, text: &str) -> Result<Vec<Command>, SourceFault>
    requires { IsText text.now }
    ensures commands { IfOk result
        (λ cs. HasContent text.now (commands (map command_of cs.items))) }
    ensures fault { IfErr result (λ fault. HasFault text.now fault) }
{
    let tokens = tokens(alloc, text)?;
    match parse(alloc, &tokens) {
        Ok(commands) => Ok(commands),
        Err(SyntaxFault::Unexpected(at)) => Err(SourceFault::Unexpected(at)),
        Err(SyntaxFault::TooNested(at)) => Err(SourceFault::TooNested(at)),
        Err(SyntaxFault::Memory) => Err(SourceFault::Memory),
    }
}

/// The commands of which the bytes are the source.
pub fn read_source(alloc: Global, bytes: &[u8]) -> Result<Vec<Command>, SourceFault>
    ensures commands { IfOk result
        (λ cs. HasContent bytes.now (commands (map command_of cs.items))) }
    ensures fault { IfErr result (λ fault. HasFault bytes.now fault) }
{
    match text_of(bytes) {
        Ok(text) => commands_of(alloc, text),
        Err(fault) => Err(fault),
    }
}
