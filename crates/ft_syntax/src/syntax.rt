//! Nodes, arguments, and the fault that an expression is too big.

ghost use Rattle.std.specs.Prelude.{◌≡◌};

use ft_base::Memory;
use std::alloc::{AllocError, AllocFailed};
use std::marker::Model;

/// The number of an expression in a table.
#[derive(Clone, Copy, Debug, PartialEq, Eq)]
pub struct E {
    number: usize,
}

impl Model for E {
    ghost use Rattle.std.specs.Prelude.{ℕ};

    ghost Value = { ℕ };

    ghost view = { λ e. e.number };

    ghost inverse = { λ n. record { number = n } };
}

impl E {
    pub(crate) fn at(number: usize) -> E
        ensures { result ≡ number }
    {
        E { number }
    }

    pub(crate) fn place(self) -> usize
        ensures { result ≡ self }
    {
        self.number
    }

    /// The number itself. It takes no memory.
    pub fn number(self) -> u64
        ensures { result ≡ self }
    {
        self.number as u64
    }
}

/// An expression without its arguments: a bound variable (0 for the innermost binder), a free variable, a symbol by the
/// number of its rule, or a metavariable.
#[derive(Clone, Copy, Debug, PartialEq, Eq)]
pub enum Node {
    Bound(u64),
    Free(u64),
    Sym(u64),
    Meta(u64),
}

/// An argument: its number of binders, and its body below them. A dummy, which stands for an equation, has no body.
#[derive(Clone, Copy, Debug, PartialEq, Eq)]
pub struct Arg {
    pub binders: u64,
    pub body: Option<E>,
}

/// Why an expression was not formed: it is not small, or memory was refused.
#[derive(Clone, Copy, Debug, PartialEq, Eq)]
pub enum SynFault {
    TooBig,
    Memory,
}

impl From<AllocError> for SynFault {
    ghost use Rattle.std.specs.Prelude.{◌≡◌};
    ghost use Rattle.ft_syntax.specs.declared.syntax.SynFault.TheVariants.{Memory};

    ghost from_gives = { λ _ f. f ≡ Memory };

    fn from(_: AllocError) -> SynFault {
        SynFault::Memory
    }
}

impl<T: Drop> From<AllocFailed<T>> for SynFault {
    ghost use Rattle.std.specs.Prelude.{◌≡◌};
    ghost use Rattle.ft_syntax.specs.declared.syntax.SynFault.TheVariants.{Memory};

    ghost from_gives = { λ _ f. f ≡ Memory };

    fn from(_: AllocFailed<T>) -> SynFault {
        SynFault::Memory
    }
}

impl From<Memory> for SynFault {
    ghost use Rattle.std.specs.Prelude.{◌≡◌};
    ghost use Rattle.ft_syntax.specs.declared.syntax.SynFault.TheVariants.{Memory};

    ghost from_gives = { λ _ f. f ≡ Memory };

    fn from(_: Memory) -> SynFault {
        SynFault::Memory
    }
}
