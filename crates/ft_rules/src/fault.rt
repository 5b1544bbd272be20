//! Why no rule is declared.

use ft_assume::Atom;
use ft_base::Memory;
use std::alloc::AllocError;

/// Why no rule is declared: a rule of the name is there; there are too many rules; a premise, by its place from 1, or the
/// conclusion rests on an atom that is none of the rule's own metavariables; or memory was refused.
#[derive(Clone, Copy, Debug, PartialEq, Eq)]
pub enum RuleFault {
    Duplicate,
    TooMany,
    OpenPremise(u64, Atom),
    OpenConclusion(Atom),
    Memory,
}

impl From<Memory> for RuleFault {
    ghost use Rattle.std.specs.Prelude.{◌≡◌};
    ghost use Rattle.ft_rules.specs.declared.fault.RuleFault.TheVariants.{Memory};

    ghost from_gives = { λ _ f. f ≡ Memory };

    fn from(_: Memory) -> RuleFault {
        RuleFault::Memory
    }
}

impl From<AllocError> for RuleFault {
    ghost use Rattle.std.specs.Prelude.{◌≡◌};
    ghost use Rattle.ft_rules.specs.declared.fault.RuleFault.TheVariants.{Memory};

    ghost from_gives = { λ _ f. f ≡ Memory };

    fn from(_: AllocError) -> RuleFault {
        RuleFault::Memory
    }
}
