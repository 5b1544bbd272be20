//! Why a command halts, by what stopped it.

ghost use Rattle.std.specs.Prelude.{◌≡◌, ◌≢◌};
ghost use Rattle.ft_meaning.specs.Commands as command;
ghost use Rattle.ft_meaning.specs.Commands.{ended};
ghost use Rattle.ft_meaning.specs.Values.{Outcome, Environment};
ghost use Rattle.ft_telling.specs.declared.halt.Why.TheVariants as halting;
ghost use Rattle.ft_running.specs.Evaluation.{Evaluation};
ghost use Rattle.ft_drafting.specs.Drafting.{TellsStop};
ghost use Rattle.ft_commands.specs.Doing.{IsNotStuck, TellsFault, IsMemoryStop, halt_why};
ghost use Rattle.ft_commands.specs.declared.done.EvalWhy.TheVariants as why;

use crate::done::{EvalFault, EvalWhy};
use ft_drafting::Stop;
use ft_running::End;
use ft_telling::{Halt, Why};

// Why an evaluation halts that is not stuck.
fn of_why(why: Why) -> EvalWhy
    requires { why ≢ halting.Stuck }
    ensures { result ≡ halt_why why }
{
    match why {
        Why::Refused(refusal) => EvalWhy::Refused(refusal),
        Why::NoMatch => EvalWhy::NoMatch,
        Why::Spent => EvalWhy::Spent,
        Why::Stuck => unreachable!(),
        Why::Memory => EvalWhy::Memory,
    }
}

/// Why a command halts that was not stuck.
#[tactic(auto, using(crate::proofs::Faulting::unhandled, crate::proofs::Faulting::halted, crate::proofs::Faulting::refused))]
pub(crate) fn fault_of(stop: Stop) -> EvalFault
    requires { IsNotStuck stop }
    ensures tells { (o : Outcome (command.Done × Environment)) (e : Evaluation)
        → TellsStop o stop e → TellsFault (ended o) result e }
    ensures memory { IsMemoryStop stop → result.why ≡ why.Memory }
{
    match stop {
        Stop::Ends(End::Performs(operation)) => EvalFault {
            at: operation.at,
            why: EvalWhy::Unhandled(operation.name),
        },
        Stop::Ends(End::Halts(halt)) => EvalFault {
            at: halt.at,
            why: of_why(halt.why),
        },
        Stop::Refuses(at, fault) => EvalFault {
            at,
            why: EvalWhy::Rule(fault),
        },
    }
}
