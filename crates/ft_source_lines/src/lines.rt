//! The line of a source that has no commands.

ghost use Rattle.std.specs.Prelude.{◌≡◌, ℕ, IfOk, IfSome};
ghost use Rattle.std.specs.Str.{IsUtf8};
ghost use Rattle.ft_meaning.specs.Stages.{Stage};
ghost use Rattle.ft_meaning.specs.Transcript.{transcript_of};
ghost use Rattle.ft_source.specs.Contents.{content_of, HasFault};

use ft_base::{Memory, Text};
use ft_print::{no_text_line, too_long_line, too_nested_line, unexpected_line};
use ft_source::SourceFault;
use std::alloc::Global;

/// The line that the transcript of the bytes has for the fault.
pub fn fault_line(alloc: Global, bytes: &[u8], fault: SourceFault) -> Result<Text, Memory>
    requires { HasFault bytes.now fault }
    ensures { IfOk result (λ t. IfSome (content_of fault)
        (λ c. (B : Stage) (budget : ℕ) → t ≡ (transcript_of B bytes.now budget c).text)) }
{
    match fault {
        SourceFault::TooLong => too_long_line(alloc),
        SourceFault::NoText(byte) => no_text_line(alloc, byte),
        SourceFault::Unexpected(at) => unexpected_line(alloc, text(bytes), at),
        SourceFault::TooNested(at) => too_nested_line(alloc, text(bytes), at),
        SourceFault::Memory => Err(Memory),
    }
}

// The text that the bytes are.
fn text(bytes: &[u8]) -> &str
    requires { IsUtf8 bytes.now }
    ensures { result.now ≡ bytes.now }
{
    match str::from_utf8(bytes) {
        Ok(text) => text,
        Err(_) => "",
    }
}
