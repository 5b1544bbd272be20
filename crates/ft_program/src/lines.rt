//! The lines of a step.

ghost use Rattle.std.specs.Prelude.{◌≡◌, ◌≢◌, IfOk};
ghost use Rattle.ft_types.specs.declared.fault.TypeWhy.TheVariants as why;
ghost use Rattle.ft_program.specs.Running.{IsUntyped, IsTold, IsTelling};

use crate::commands::Step;
use ft_base::{Memory, Text};
use ft_commands::Done;
use ft_print::{accepted_line, error_line, none_line, sequent_lines, type_why_text};
use ft_running::State;
use ft_types::{TypeFault, TypeWhy};
use ft_whole_answers::Status;
use std::alloc::Global;

/// The line of a command that has no type.
pub(crate) fn untyped(alloc: Global, source: &str, fault: &TypeFault) -> Result<Step, Memory>
    ensures { IfOk result (λ s. IsUntyped source.now fault.now s) }
{
    if let TypeWhy::Memory = &fault.why {
        return Err(Memory);
    }
    let why = type_why_text(alloc, &fault.why)?;
    let line = error_line(alloc, source, fault.at, why.bytes())?;
    Ok(Step::Ends(line, Status::NameOrType))
}

/// The lines of what a command tells.
#[tactic(auto, using(crate::proofs::Telling::accepted_told, crate::proofs::Telling::shown_told, crate::proofs::Telling::none_told, crate::proofs::Telling::quiet_told, crate::proofs::Telling::all_theses))]
pub(crate) fn told(state: &State, done: &Done) -> Result<Step, Memory>
    requires { IsTelling state.now done.now }
    ensures { IfOk result (λ s. IsTold state.now done.now s) }
{
    let alloc = state.allocator();
    match done {
        Done::Accepted(name) => Ok(Step::Lines(accepted_line(alloc, name)?)),
        Done::Shown(js) => Ok(Step::Lines(sequent_lines(alloc, &state.kernel, js.as_slice())?)),
        Done::ShownNone => Ok(Step::Lines(none_line(alloc)?)),
        Done::Quiet => Ok(Step::Lines(Text::new(alloc))),
    }
}
