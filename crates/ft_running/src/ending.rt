//! How an evaluation ends without a value.

ghost use Rattle.std.specs.Prelude.{◌≡◌};
ghost use Rattle.ft_running.specs.declared.ending.End.TheVariants.{Halts};

use ft_base::{Memory, Name};
use ft_telling::{Halt, Why};
use ft_values::Value;

/// An operation that is performed, with its argument, at a place.
#[derive(Debug, Drop)]
pub struct Operation {
    pub name: Name,
    pub argument: Value,
    pub at: u64,
}

/// How an evaluation ends without a value: it performs an operation, or the run halts.
#[derive(Debug, Drop)]
pub enum End {
    Performs(Operation),
    Halts(Halt),
}

impl End {
    /// The run halts at a place.
    pub fn halts(at: u64, why: Why) -> End
        ensures { result ≡ Halts (record { at = at; why = why }) }
    {
        End::Halts(Halt { at, why })
    }
}

impl From<Halt> for End {
    ghost use Rattle.std.specs.Prelude.{◌≡◌};
    ghost use Rattle.ft_running.specs.declared.ending.End.TheVariants.{Halts};

    ghost from_gives = { λ h e. e ≡ Halts h };

    fn from(halt: Halt) -> End {
        End::Halts(halt)
    }
}

impl From<Memory> for End {
    ghost use Rattle.ft_running.specs.Ends.{IsMemory};

    ghost from_gives = { λ _ e. IsMemory e };

    fn from(memory: Memory) -> End {
        End::Halts(Halt::from(memory))
    }
}
