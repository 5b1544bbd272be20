//! Lines of what commands tell.

ghost use Rattle.std.specs.Prelude.{◌≡◌, Some, All, option_map, IfOk};
ghost use Rattle.ft_theory.specs.Rules.{Rule};
ghost use Rattle.ft_items.specs.Store.{each, Declarations, declared_by};
ghost use Rattle.ft_kernel.specs.State.{entry_at, IsThesisOf};
ghost use Rattle.ft_meaning.specs.Commands.{Accepted, Shown, ShownNone};
ghost use Rattle.ft_meaning.specs.Lines.{done_lines};

use crate::fixed::fixed_text;
use crate::sequents::push_sequent;
use ft_base::{Memory, Name, Text};
use ft_kernel::{J, Kernel};
use std::alloc::Global;

/// The line of a rule that was accepted.
pub fn accepted_line(alloc: Global, name: &Name) -> Result<Text, Memory>
    ensures { IfOk result (λ t. (W : Declarations) (R : Rule) → t ≡ done_lines W (Accepted name.now R)) }
{
    let mut out = Text::new(alloc);
    out.push_str("accepted ")?;
    out.push_chars(name.chars())?;
    out.push_str("\n")?;
    Ok(out)
}

/// The lines of judgements that are shown, in their order.
pub fn sequent_lines(alloc: Global, k: &Kernel, js: &[J]) -> Result<Text, Memory>
    requires { All (IsThesisOf k.now) js.now }
    ensures { IfOk result
        (λ t. Some t ≡ option_map (λ entries. done_lines (declared_by k.now.items) (Shown entries))
        (each (entry_at k.now) js.now)) }
{
    let mut out = Text::new(alloc);
    for j in js {
        push_sequent(alloc, k, *j, &mut out)?;
        out.push_str("\n")?;
    }
    Ok(out)
}

/// The line of an option that shows nothing.
pub fn none_line(alloc: Global) -> Result<Text, Memory>
    ensures { IfOk result (λ t. (W : Declarations) → t ≡ done_lines W ShownNone) }
{
    fixed_text(alloc, "none\n")
}
