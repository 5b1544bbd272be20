//! Texts that are always the same.

ghost use Rattle.std.specs.Prelude.{◌≡◌, IfOk};

use ft_base::{Memory, Text};
use std::alloc::Global;

// The text as it stands.
pub fn fixed_text(alloc: Global, text: &str) -> Result<Text, Memory>
    ensures { IfOk result (λ t. t ≡ text.now) }
{
    let mut out = Text::new(alloc);
    out.push_str(text)?;
    Ok(out)
}
