//! Why a command has no type.

ghost use Rattle.std.specs.Prelude.{◌≡◌, ◌++◌, IfOk, OnOk};
ghost use Rattle.ft_meaning.specs.Typing.{Mismatch, Arity};
ghost use Rattle.ft_meaning.specs.Faults.{type_why_text, wanted_text};
ghost use Rattle.ft_types.specs.Types.{stands_for};
ghost use Rattle.ft_types.specs.Checking.{wanted_of, why_of};

use crate::types::push_type;
use ft_base::{Memory, Name, Text};
use ft_types::{SharedType, TypeWhy, Wanted};
use std::alloc::Global;

/// Why a command has no type. Where the reason is that memory was refused, it is refused here too.
pub fn type_why_text(alloc: Global, why: &TypeWhy) -> Result<Text, Memory>
    ensures { IfOk result (λ t. t ≡ type_why_text (why_of why.now)) }
{
    let mut out = Text::new(alloc);
    push_why(alloc, why, &mut out)?;
    Ok(out)
}

// Appends why a command has no type.
fn push_why(alloc: Global, why: &TypeWhy, out: &mut Text) -> Result<(), Memory>
    ensures ok { OnOk result (out.new ≡ out.old ++ type_why_text (why_of why.now)) }
{
    match why {
        TypeWhy::Unbound(name) => {
            out.push_str("unbound ")?;
            out.push_chars(name.chars())
        }
        TypeWhy::Twice(name) => {
            out.push_chars(name.chars())?;
            out.push_str(" declared twice")
        }
        TypeWhy::Mismatch(found, wanted) => push_mismatch(alloc, found, wanted, out),
        TypeWhy::Arity(name, takes, given) => push_arity(name, *takes, *given, out),
        TypeWhy::Memory => Err(Memory),
    }
}

// Appends the type that is found, and what is wanted.
fn push_mismatch(
    alloc: Global,
    found: &SharedType,
    wanted: &Wanted,
    out: &mut Text,
) -> Result<(), Memory>
    ensures ok { OnOk result
        (out.new ≡ out.old ++ type_why_text (Mismatch (stands_for found.now) (wanted_of wanted.now))) }
{
    out.push_str("type ")?;
    push_type(alloc, found, out)?;
    out.push_str(", wanted ")?;
    push_wanted(alloc, wanted, out)
}

// Appends what is wanted.
fn push_wanted(alloc: Global, wanted: &Wanted, out: &mut Text) -> Result<(), Memory>
    ensures ok { OnOk result (out.new ≡ out.old ++ wanted_text (wanted_of wanted.now)) }
{
    match wanted {
        Wanted::Exactly(t) => push_type(alloc, t, out),
        Wanted::PairOf => out.push_str("pair"),
        Wanted::ListOf => out.push_str("list"),
        Wanted::OptionOf => out.push_str("option"),
    }
}

// Appends that a name takes so many and is given so many.
fn push_arity(name: &Name, takes: u64, given: u64, out: &mut Text) -> Result<(), Memory>
    ensures ok { OnOk result (out.new ≡ out.old ++ type_why_text (Arity name.now takes given)) }
{
    out.push_chars(name.chars())?;
    out.push_str(" takes ")?;
    out.push_number(takes)?;
    out.push_str(", given ")?;
    out.push_number(given)
}
