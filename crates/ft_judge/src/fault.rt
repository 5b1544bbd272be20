//! Refusals, and the faults of calls that may refuse.

use ft_base::Memory;
use ft_syntax::{E, SynFault};

/// Two expressions that differ where they should not: the one found, the one wanted, and how many domains stand around them.
#[derive(Clone, Copy, Debug, PartialEq, Eq)]
pub struct Differ {
    pub found: E,
    pub wanted: E,
    pub under: u64,
}

/// Why a call refuses. `DependentVariable` and `OpenBoundary` hold the number of a variable, `ArgumentCount` the number given
/// and the number wanted.
#[derive(Clone, Copy, Debug, PartialEq, Eq)]
pub enum Refusal {
    WrongForm,
    NotAbstracted,
    TypeDiffers(Differ),
    SidesDiffer(Differ),
    DependentVariable(u64),
    OpenBoundary(u64),
    ArgumentCount(u64, u64),
    TooBig,
    NotApplication,
}

/// A refusal, or memory was refused.
#[derive(Clone, Copy, Debug, PartialEq, Eq)]
pub enum Fault {
    Refused(Refusal),
    Memory,
}

/// The budget is spent, a refusal, or memory was refused.
#[derive(Clone, Copy, Debug, PartialEq, Eq)]
pub enum Stop {
    Spent,
    Refused(Refusal),
    Memory,
}

impl From<Memory> for Fault {
    ghost use Rattle.std.specs.Prelude.{◌≡◌};
    ghost use Rattle.ft_judge.specs.declared.fault.Fault.TheVariants.{Memory};

    ghost from_gives = { λ _ f. f ≡ Memory };

    fn from(_: Memory) -> Fault {
        Fault::Memory
    }
}

impl From<SynFault> for Fault {
    ghost use Rattle.std.specs.Prelude.{◌≡◌};
    ghost use Rattle.ft_judge.specs.Faults.{refused};

    ghost from_gives = { λ s f. f ≡ refused s };

    fn from(fault: SynFault) -> Fault {
        match fault {
            SynFault::TooBig => Fault::Refused(Refusal::TooBig),
            SynFault::Memory => Fault::Memory,
        }
    }
}

impl From<Fault> for Stop {
    ghost use Rattle.std.specs.Prelude.{◌≡◌};
    ghost use Rattle.ft_judge.specs.Faults.{stopped};

    ghost from_gives = { λ f s. s ≡ stopped f };

    fn from(fault: Fault) -> Stop {
        match fault {
            Fault::Refused(refusal) => Stop::Refused(refusal),
            Fault::Memory => Stop::Memory,
        }
    }
}
