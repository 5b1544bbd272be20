//! Why a script does not go on.

ghost use Rattle.std.specs.Prelude.{IfOk, IfErr, length};
ghost use Rattle.ft_kernel.specs.State.{IsThesisOf};
ghost use Rattle.ft_tests_nucleus.specs.Faults.{FaultBelow, StopBelow};

use ft_base::Memory;
use ft_judge::{Fault, Refusal};
use ft_kernel::{B, J, Kernel};

/// Why a script does not go on: a call names what is not there, it is refused, or memory was.
#[derive(Clone, Copy, Debug, PartialEq, Eq)]
pub enum Stop {
    Script,
    Refused(Refusal),
    Memory,
}

impl From<Memory> for Stop {
    ghost use Rattle.std.specs.Prelude.{◌≡◌};
    ghost use Rattle.ft_tests_nucleus.specs.declared.stop.Stop.TheVariants.{Memory};

    ghost from_gives = { λ _ f. f ≡ Memory };

    fn from(_: Memory) -> Stop {
        Stop::Memory
    }
}

/// The stop at a fault.
pub fn stop_of(k: &Kernel, fault: Fault) -> Stop
    requires { FaultBelow (length k.now.trees) fault }
    ensures { StopBelow (length k.now.trees) result }
{
    match fault {
        Fault::Refused(refusal) => Stop::Refused(refusal),
        Fault::Memory => Stop::Memory,
    }
}

/// The thesis that a call answers, or its stop.
#[tactic(auto, using(crate::proofs::Below::fault_below))]
pub fn thesis_or(k: &Kernel, made: Result<J, Fault>) -> Result<J, Stop>
    requires thesis { IfOk made (λ j. IsThesisOf k.now j) }
    requires below { IfErr made (λ f. FaultBelow (length k.now.trees) f) }
    ensures thesis { IfOk result (λ j. IsThesisOf k.now j) }
    ensures below { IfErr result (λ f. StopBelow (length k.now.trees) f) }
{
    match made {
        Ok(j) => Ok(j),
        Err(fault) => Err(stop_of(k, fault)),
    }
}

/// The boundary that a call answers, or its stop.
#[tactic(auto, using(crate::proofs::Below::fault_below))]
pub fn boundary_or(k: &Kernel, made: Result<B, Fault>) -> Result<B, Stop>
    requires below { IfErr made (λ f. FaultBelow (length k.now.trees) f) }
    ensures below { IfErr result (λ f. StopBelow (length k.now.trees) f) }
{
    match made {
        Ok(b) => Ok(b),
        Err(fault) => Err(stop_of(k, fault)),
    }
}
