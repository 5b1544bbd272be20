//! How the drafting of a rule stops.

ghost use Rattle.ft_drafting.specs.Stopping.{IsStopOf};

use ft_base::Memory;
use ft_rules::RuleFault;
use ft_running::End;

/// An evaluation ends without a value, or no rule is declared, at a place, for this reason, which is
/// not that memory was refused.
#[derive(Debug, Drop)]
pub enum Stop {
    Ends(End),
    Refuses(u64, RuleFault),
}

/// A fault of a draft, at a place.
pub(crate) fn stopped(at: u64, fault: RuleFault) -> Stop
    ensures { IsStopOf at fault result }
{
    match fault {
        RuleFault::Memory => Stop::Ends(End::from(Memory)),
        RuleFault::Duplicate => Stop::Refuses(at, RuleFault::Duplicate),
        RuleFault::TooMany => Stop::Refuses(at, RuleFault::TooMany),
        RuleFault::OpenPremise(i, atom) => Stop::Refuses(at, RuleFault::OpenPremise(i, atom)),
        RuleFault::OpenConclusion(atom) => Stop::Refuses(at, RuleFault::OpenConclusion(atom)),
    }
}
