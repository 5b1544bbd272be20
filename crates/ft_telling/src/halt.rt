//! Why an evaluation halts.

ghost use Rattle.std.specs.Prelude.{◌≡◌};
ghost use Rattle.ft_telling.specs.Telling.{halted_at, fault_at};

use ft_base::Memory;
use ft_judge::{Fault, Refusal};
use ft_kernel::{B, J, V};

/// Why an evaluation halts: the nucleus refuses, no case matches, no unit is left, a value is not
/// of the kind that its form needs, or memory was refused.
#[derive(Clone, Copy, Debug, PartialEq, Eq)]
pub enum Why {
    Refused(Refusal),
    NoMatch,
    Spent,
    Stuck,
    Memory,
}

/// Why an evaluation halts, and at which place; with `Memory` the place says nothing.
#[derive(Clone, Copy, Debug, PartialEq, Eq)]
pub struct Halt {
    pub at: u64,
    pub why: Why,
}

impl From<Memory> for Halt {
    ghost use Rattle.std.specs.Prelude.{◌≡◌};
    ghost use Rattle.ft_telling.specs.declared.halt.Why.TheVariants.{Memory};

    ghost from_gives = { λ _ h. h.why ≡ Memory };

    fn from(_: Memory) -> Halt {
        Halt {
            at: 0,
            why: Why::Memory,
        }
    }
}

/// What a call for a judgement answered, at a place.
pub fn halted(at: u64, answer: Result<J, Fault>) -> Result<J, Halt>
    ensures { result ≡ halted_at at answer }
{
    match answer {
        Ok(j) => Ok(j),
        Err(fault) => Err(of_fault(at, fault)),
    }
}

/// What a call for a boundary answered, at a place.
pub fn halted_boundary(at: u64, answer: Result<B, Fault>) -> Result<B, Halt>
    ensures { result ≡ halted_at at answer }
{
    match answer {
        Ok(b) => Ok(b),
        Err(fault) => Err(of_fault(at, fault)),
    }
}

/// What the declaration of a variable answered, at a place.
pub fn halted_variable(at: u64, answer: Result<V, Fault>) -> Result<V, Halt>
    ensures { result ≡ halted_at at answer }
{
    match answer {
        Ok(v) => Ok(v),
        Err(fault) => Err(of_fault(at, fault)),
    }
}

// A fault at a place.
fn of_fault(at: u64, fault: Fault) -> Halt
    ensures { result ≡ fault_at at fault }
{
    match fault {
        Fault::Refused(refusal) => Halt {
            at,
            why: Why::Refused(refusal),
        },
        Fault::Memory => Halt {
            at,
            why: Why::Memory,
        },
    }
}
