//! Why a command has no type.

ghost use Rattle.std.specs.Prelude.{◌≡◌};
ghost use Rattle.ft_types.specs.declared.fault.TypeWhy.TheVariants.{Memory};

use crate::shared::SharedType;
use ft_base::Name;
use std::alloc::{AllocError, AllocFailed};

/// What is wanted: a type, or any pair, list or option.
#[derive(Debug, Drop)]
pub enum Wanted {
    Exactly(SharedType),
    PairOf,
    ListOf,
    OptionOf,
}

/// Why there is no type: a name has no meaning; it is declared twice; a type is found where another
/// is wanted; a name takes so many and is given so many. Or memory was refused.
#[derive(Debug, Drop)]
pub enum TypeWhy {
    Unbound(Name),
    Twice(Name),
    Mismatch(SharedType, Wanted),
    Arity(Name, u64, u64),
    Memory,
}

/// A fault of typing, at a place; with `Memory` the place says nothing.
#[derive(Debug, Drop)]
pub struct TypeFault {
    pub at: u64,
    pub why: TypeWhy,
}

impl From<ft_base::Memory> for TypeFault {
    ghost from_gives = { λ _ e. e.why ≡ Memory };

    fn from(_: ft_base::Memory) -> TypeFault {
        TypeFault {
            at: 0,
            why: TypeWhy::Memory,
        }
    }
}

impl From<AllocError> for TypeFault {
    ghost from_gives = { λ _ e. e.why ≡ Memory };

    fn from(_: AllocError) -> TypeFault {
        TypeFault {
            at: 0,
            why: TypeWhy::Memory,
        }
    }
}

impl<T: Drop> From<AllocFailed<T>> for TypeFault {
    ghost from_gives = { λ _ e. e.why ≡ Memory };

    fn from(_: AllocFailed<T>) -> TypeFault {
        TypeFault {
            at: 0,
            why: TypeWhy::Memory,
        }
    }
}
