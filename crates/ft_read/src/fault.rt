//! Why a file is not read.

ghost use Rattle.std.specs.Prelude.{◌≡◌};
ghost use Rattle.ft_read.specs.declared.fault.FileFault.TheVariants as told;

use std::alloc::AllocFailed;
use thiserror::Error;

/// Why a file is no derivation file of version 1; the line is counted from 1.
#[derive(Clone, Copy, Debug, PartialEq, Eq, Drop, Error)]
pub enum FileFault {
    #[error("line {0} is not of the form")]
    Form(u64),
    #[error("line {0} is of another version")]
    Version(u64),
    #[error("out of memory")]
    Memory,
}

impl From<ft_base::Memory> for FileFault {
    ghost from_gives = { λ _ e. e ≡ told.Memory };

    fn from(_: ft_base::Memory) -> FileFault {
        FileFault::Memory
    }
}

impl<T: Drop> From<AllocFailed<T>> for FileFault {
    ghost from_gives = { λ _ e. e ≡ told.Memory };

    fn from(_: AllocFailed<T>) -> FileFault {
        FileFault::Memory
    }
}
