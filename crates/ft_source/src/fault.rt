//! Why bytes are the source of no commands.

ghost use Rattle.std.specs.Prelude.{◌≡◌};
ghost use Rattle.ft_source.specs.declared.fault.SourceFault.TheVariants.{Memory};

/// Why bytes are the source of no commands: they are too many; they are text up to a byte, counted from 0, and no further; the
/// token that begins at a byte is not allowed there; or a part that begins at a byte is nested too deeply. Or memory was refused.
#[derive(Clone, Copy, Debug, PartialEq, Eq, Drop)]
pub enum SourceFault {
    TooLong,
    NoText(u64),
    Unexpected(u64),
    TooNested(u64),
    Memory,
}

impl From<ft_base::Memory> for SourceFault {
    ghost from_gives = { λ _ e. e ≡ Memory };

    fn from(_: ft_base::Memory) -> SourceFault {
        SourceFault::Memory
    }
}
