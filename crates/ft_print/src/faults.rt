//! Why a run ends, and the lines that tell it.

ghost use Rattle.std.specs.Prelude.{◌≡◌, length, codes, IfOk};
ghost use Rattle.ft_items.specs.Item.{Name as AnyName};
ghost use Rattle.ft_items.specs.Store.{declared_by, Declarations};
ghost use Rattle.ft_meaning.specs.Values.{NoMatch, Refused, Unhandled};
ghost use Rattle.ft_meaning.specs.Faults.{fault_text};
ghost use Rattle.ft_meaning.specs.Lines.{error_line, line_of, column_of};
ghost use Rattle.ft_calls.specs.Answers.{refusal_in, RefusalBelow};

use crate::fixed::fixed_text;
use crate::places::line_col;
use crate::refusals::push_refusal;
use ft_base::{Memory, Name, Text};
use ft_judge::Refusal;
use ft_kernel::Kernel;
use std::alloc::Global;

/// The line of a fault at a place of the source.
pub fn error_line(alloc: Global, source: &str, at: u64, why: &[u8]) -> Result<Text, Memory>
    ensures { IfOk result (λ t. t ≡ error_line source.now at why.now) }
{
    let (line, column) = line_col(source, at);
    let mut out = Text::new(alloc);
    out.push_str("error ")?;
    out.push_number(line)?;
    out.push_str(":")?;
    out.push_number(column)?;
    out.push_str(" ")?;
    out.push(why)?;
    out.push_str("\n")?;
    Ok(out)
}

/// The line of a run whose budget is spent.
pub fn spent_line(alloc: Global, source: &str, at: u64) -> Result<Text, Memory>
    ensures { IfOk result (λ t. t ≡ error_line source.now at (codes "budget spent")) }
{
    error_line(alloc, source, at, b"budget spent")
}

/// Why a run ends at a call of the nucleus that refuses.
pub fn refused_text(alloc: Global, k: &Kernel, r: &Refusal) -> Result<Text, Memory>
    requires { RefusalBelow (length k.now.trees) r.now }
    ensures { IfOk result
        (λ t. (n : AnyName) →
        t ≡ fault_text (declared_by k.now.items) n (Refused (refusal_in k.now.trees r.now))) }
{
    let mut out = Text::new(alloc);
    out.push_str("refused ")?;
    push_refusal(alloc, k, r, &mut out)?;
    Ok(out)
}

/// Why a run ends at an operation that has no handler.
pub fn unhandled_text(alloc: Global, operation: &Name) -> Result<Text, Memory>
    ensures { IfOk result
        (λ t. (W : Declarations) (n : AnyName) → t ≡ fault_text W n (Unhandled operation.now)) }
{
    let mut out = Text::new(alloc);
    out.push_str("unhandled ")?;
    out.push_chars(operation.chars())?;
    Ok(out)
}

/// Why a run ends at a value that fits no case.
pub fn no_match_text(alloc: Global) -> Result<Text, Memory>
    ensures { IfOk result (λ t. (W : Declarations) (n : AnyName) → t ≡ fault_text W n NoMatch) }
{
    fixed_text(alloc, "no match")
}
