//! Why no piece is read.

ghost use Rattle.std.specs.Prelude.{◌≡◌};
ghost use Rattle.ft_lines.specs.declared.fault.Fault.TheVariants.{Memory};

use std::alloc::AllocError;

/// What stands here is not of the form, or memory was refused.
#[derive(Clone, Copy, Debug, PartialEq, Eq, Drop)]
pub enum Fault {
    Form,
    Memory,
}

impl From<AllocError> for Fault {
    ghost from_gives = { λ _ e. e ≡ Memory };

    fn from(_: AllocError) -> Fault {
        Fault::Memory
    }
}

impl From<ft_base::Memory> for Fault {
    ghost from_gives = { λ _ e. e ≡ Memory };

    fn from(_: ft_base::Memory) -> Fault {
        Fault::Memory
    }
}
