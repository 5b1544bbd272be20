//! Why a whole text was not read or written.
ghost use Rattle.std.specs.Prelude.{◌≡◌};
ghost use Rattle.ft_outside.specs.declared.errors.ReadErr.TheVariants as reading;
ghost use Rattle.ft_outside.specs.declared.errors.WriteErr.TheVariants as writing;

use crate::Failed;
use ft_base::Memory;
use std::alloc::{AllocError, AllocFailed};
use thiserror::Error;

/// Why a source was not read to its end.
#[derive(Clone, Copy, Debug, Drop, Error, PartialEq, Eq)]
pub enum ReadErr {
    #[error("the source failed")]
    Fault,
    #[error("the input is too long")]
    TooLong,
    #[error("out of memory")]
    Memory,
}

/// Why a text was not written whole.
#[derive(Clone, Copy, Debug, Drop, Error, PartialEq, Eq)]
pub enum WriteErr {
    #[error("the sink failed")]
    Fault,
    #[error("out of memory")]
    Memory,
}

impl From<Failed> for ReadErr {
    ghost from_gives = { λ _ e. e ≡ reading.Fault };

    fn from(_: Failed) -> ReadErr {
        ReadErr::Fault
    }
}

impl From<Memory> for ReadErr {
    ghost from_gives = { λ _ e. e ≡ reading.Memory };

    fn from(_: Memory) -> ReadErr {
        ReadErr::Memory
    }
}

impl From<AllocError> for ReadErr {
    ghost from_gives = { λ _ e. e ≡ reading.Memory };

    fn from(_: AllocError) -> ReadErr {
        ReadErr::Memory
    }
}

impl From<Failed> for WriteErr {
    ghost from_gives = { λ _ e. e ≡ writing.Fault };

    fn from(_: Failed) -> WriteErr {
        WriteErr::Fault
    }
}

impl From<Memory> for WriteErr {
    ghost from_gives = { λ _ e. e ≡ writing.Memory };

    fn from(_: Memory) -> WriteErr {
        WriteErr::Memory
    }
}

impl From<AllocError> for WriteErr {
    ghost from_gives = { λ _ e. e ≡ writing.Memory };

    fn from(_: AllocError) -> WriteErr {
        WriteErr::Memory
    }
}

impl<T: Drop> From<AllocFailed<T>> for WriteErr {
    ghost from_gives = { λ _ e. e ≡ writing.Memory };

    fn from(_: AllocFailed<T>) -> WriteErr {
        WriteErr::Memory
    }
}
