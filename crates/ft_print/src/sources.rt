//! Lines of sources that have no commands.

ghost use Rattle.std.specs.Prelude.{◌≡◌, ℕ, List, Some, IfOk};
ghost use Rattle.ft_meaning.specs.Sources.{too_long, no_text, unexpected, too_nested};
ghost use Rattle.ft_meaning.specs.Stages.{Stage};
ghost use Rattle.ft_meaning.specs.Trees.{Command};
ghost use Rattle.ft_meaning.specs.Transcript.{transcript_of, unless_unbuilt};

use crate::faults::error_line;
use crate::fixed::fixed_text;
use ft_base::{Memory, Text};
use std::alloc::Global;

/// The line of a source that has too many bytes.
pub fn too_long_line(alloc: Global) -> Result<Text, Memory>
    ensures { IfOk result
        (λ t. (B : Stage) (source : List ℕ) (budget : ℕ) →
        t ≡ (transcript_of B source budget too_long).text) }
{
    fixed_text(alloc, "error too long\n")
}

/// The line of a source that is UTF-8 up to a byte, and no further.
pub fn no_text_line(alloc: Global, byte: u64) -> Result<Text, Memory>
    ensures { IfOk result
        (λ t. (B : Stage) (source : List ℕ) (budget : ℕ) →
        t ≡ (transcript_of B source budget (no_text byte)).text) }
{
    let mut out = Text::new(alloc);
    out.push_str("error not utf-8 at byte ")?;
    out.push_number(byte)?;
    out.push_str("\n")?;
    Ok(out)
}

/// The line of a source in which a token is not allowed.
pub fn unexpected_line(alloc: Global, source: &str, at: u64) -> Result<Text, Memory>
    ensures { IfOk result
        (λ t. (B : Stage) (budget : ℕ) →
        t ≡ (transcript_of B source.now budget (unexpected at)).text) }
{
    error_line(alloc, source, at, b"syntax")
}

/// The line of a source in which a part is nested too deeply.
pub fn too_nested_line(alloc: Global, source: &str, at: u64) -> Result<Text, Memory>
    ensures { IfOk result
        (λ t. (B : Stage) (budget : ℕ) →
        t ≡ (transcript_of B source.now budget (too_nested at)).text) }
{
    error_line(alloc, source, at, b"nested too deeply")
}

/// The line of a source of which a part is not built.
pub fn not_yet_line(alloc: Global, source: &str, at: u64) -> Result<Text, Memory>
    ensures { IfOk result
        (λ t. (budget : ℕ) (cs : List Command) →
        t ≡ (unless_unbuilt source.now budget cs (Some at)).text) }
{
    error_line(alloc, source, at, b"not yet")
}
