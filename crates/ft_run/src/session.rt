//! What has been declared, over a kernel.

ghost use Rattle.std.specs.Prelude.{◌≡◌, ◌<◌, []};
ghost use Rattle.ft_run.specs.Session.{Progress};

use ft_base::Name;
use ft_judge::{Form, Goal};
use ft_kernel::{J, Kernel};
use std::alloc::Global;
use std::marker::Model;

/// A rule that was declared: its name, the number of its first premise's metavariable, what its premises ask for, and what
/// it concludes. Its place is its number in the kernel.
#[derive(Debug, Drop)]
pub struct Known {
    pub name: Name,
    pub first: u64,
    pub premises: Vec<Goal>,
    pub conclusion: Goal,
}

/// What an expression claims, with the entry that has it.
#[derive(Clone, Copy, Debug)]
pub struct Claimed {
    pub entry: J,
    pub form: Form,
}

/// A kernel with the rules that were declared over it.
#[derive(Drop)]
pub struct Session {
    pub(crate) kernel: Kernel,
    pub(crate) known: Vec<Known>,
    pub(crate) alloc: Global,
}

/// How a run ended: all commands were run, or a rule had the name of an earlier one.
#[derive(Clone, Copy, Debug, PartialEq, Eq)]
pub enum Ending {
    Done,
    Twice,
}

/// A run's session, with how the run ended.
#[derive(Drop)]
pub struct Run {
    pub session: Session,
    pub ending: Ending,
}

impl Model for Session {
    ghost use Rattle.std.specs.Coded.{codes};
    ghost use Rattle.ft_syntax.specs.Code.{coded_expression};
    ghost use Rattle.ft_judge.specs.Code.{coded_statement, coded_claim};
    ghost use Rattle.ft_run.specs.Session.{Progress, declarations, IsSession};

    ghost Value = { Progress };

    ghost coded = { Prim.hlevel (codes, coded_expression, coded_statement, coded_claim) };

    ghost view = { λ s. record { state = s.kernel; rules = declarations s.kernel.trees s.known.items } };

    ghost invariant = { λ s. IsSession s.kernel s.known.items };
}

impl Session {
    /// Nothing is declared. It takes no memory.
    pub fn new(alloc: Global) -> Session
        ensures { result ≡ record { state = record { trees = []; items = [] }; rules = [] } }
    {
        Session {
            kernel: Kernel::new(alloc),
            known: Vec::new(alloc),
            alloc,
        }
    }

    /// What the session did. It takes no memory.
    pub fn kernel(&self) -> &Kernel
        ensures { result.now ≡ self.now.state }
    {
        &self.kernel
    }
}
