//! What a command has to tell, and why it halts.

use ft_base::Name;
use ft_judge::Refusal;
use ft_kernel::J;
use ft_rules::RuleFault;

/// What a command has to tell: a rule of the name is accepted; judgements are shown, in their order;
/// an option is shown that holds nothing; or there is nothing to tell.
#[derive(Debug, Drop)]
pub enum Done {
    Accepted(Name),
    Shown(Vec<J>),
    ShownNone,
    Quiet,
}

/// Why a command halts: an operation of the name has no case; the nucleus refuses; no case of a match
/// fits; no unit is left; no rule is declared; or memory was refused, which a `RuleFault` here never
/// says.
#[derive(Debug, Drop)]
pub enum EvalWhy {
    Unhandled(Name),
    Refused(Refusal),
    NoMatch,
    Spent,
    Rule(RuleFault),
    Memory,
}

/// Why a command halts, and at which place; with `Memory` the place says nothing.
#[derive(Debug, Drop)]
pub struct EvalFault {
    pub at: u64,
    pub why: EvalWhy,
}
