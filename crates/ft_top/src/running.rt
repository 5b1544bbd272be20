//! The run of a source, and the job `run`.

ghost use Rattle.std.specs.Prelude.{◌≡◌, ◌≤◌, ◌+◌, List, length, IfOk, OnOk, IfErr, IsErrOf, IfSome};
ghost use Rattle.ft_streams.specs.Streams.{Rose, IsAtEnd, NoFaultUnless};
ghost use Rattle.ft_applications.specs.declared.fault.Fault.TheVariants as fault;
ghost use Rattle.ft_run.specs.Running.{ending_status};
ghost use Rattle.ft_answers.specs.declared.words.Job.TheVariants as asked;
ghost use Rattle.ft_answers.specs.Words.{limit, ReadsSource};
ghost use Rattle.ft_answers.specs.Statuses.{IsFaulty, IsOfInput, number_of};
ghost use Rattle.ft_top.specs.Calls.{IsRun, IsNotBuilt, ShowsDerivable, IsCause, IsOfBytes, IsCall};

use crate::reading::read_input;
use crate::statuses::of_running;
use crate::writing::{Written, finish, stop};
use ft_answers::{Job, Status};
use ft_applications::{Fault, read_source as read_commands};
use ft_base::Text;
use ft_outside::{Sink, Source};
use ft_run::{Ending, Run, run as run_commands};
use std::alloc::Global;

/// The transcript of a source, with the run that it tells of.
#[derive(Drop)]
pub(crate) struct Ran {
    pub text: Text,
    pub run: Run,
}

// The status of a run that ended so.
pub(crate) fn status_for(ending: Ending) -> Status
    ensures number { number_of result ≡ ending_status ending }
    ensures run { IsOfInput asked.Run result }
    ensures export { IsOfInput asked.Export result }
{
    match ending {
        Ending::Done => Status::Done,
        Ending::Twice => Status::Rule,
    }
}

// Runs the source of the bytes.
fn run_bytes(alloc: Global, bytes: &[u8]) -> Result<Ran, Fault>
    ensures run { IfOk result (λ r. IsRun bytes.now r.text r.run.session.state.items
        (ending_status r.run.ending)) }
    ensures derivable { OnOk result (ShowsDerivable bytes.now) }
    ensures none { IsErrOf result fault.NotYet → IsNotBuilt bytes.now }
{
    let commands = read_commands(alloc, bytes)?;
    let mut text = Text::new(alloc);
    let run = run_commands(alloc, commands.as_slice(), &mut text)?;
    Ok(Ran { text, run })
}

/// Runs the source that comes in.
pub(crate) fn run_input<I: Source>(alloc: Global, job: Job, input: &mut I) -> Result<Ran, Status>
    requires { ReadsSource job }
    ensures run { IfOk result (λ r. IfSome (I.left input.old) (λ bytes. (length bytes ≤ limit job)
        × IsRun bytes r.text r.run.session.state.items (ending_status r.run.ending)
        × ShowsDerivable bytes)) }
    ensures end { OnOk result (IsAtEnd (I.left input.new)) }
    ensures cause { IfErr result (λ s. IsCause job (I.left input.old) (I.left input.new)
        (I.taken input.old) (I.taken input.new) (I.faults input.old) (I.faults input.new) s) }
    ensures faults { NoFaultUnless (IsErrOf result Status.ReadFault) (I.faults input.old)
        (I.faults input.new) (I.failed input.new) }
    ensures most { I.taken input.new ≤ I.taken input.old + limit job + 1 }
{
    let bytes = read_input(alloc, job, input)?;
    run_bytes(alloc, &bytes).map_err(of_running)
}

// The transcript of the source that comes in.
fn transcript<I: Source>(alloc: Global, input: &mut I) -> Result<Written, Status>
    ensures status { IfOk result (λ w. IsOfInput asked.Run w.status) }
    ensures text { IfOk result (λ w. IsOfBytes asked.Run (I.left input.old) w.text w.status) }
    ensures end { OnOk result (IsAtEnd (I.left input.new)) }
    ensures cause { IfErr result (λ s. IsCause asked.Run (I.left input.old) (I.left input.new)
        (I.taken input.old) (I.taken input.new) (I.faults input.old) (I.faults input.new) s) }
    ensures faults { NoFaultUnless (IsErrOf result Status.ReadFault) (I.faults input.old)
        (I.faults input.new) (I.failed input.new) }
    ensures most { I.taken input.new ≤ I.taken input.old + limit asked.Run + 1 }
{
    let ran = run_input(alloc, Job::Run, input)?;
    Ok(Written {
        text: ran.text,
        status: status_for(ran.run.ending),
    })
}

/// Reads a source and writes its transcript.
#[tactic(auto, using(crate::proofs::Faulting::fault_none, crate::proofs::Faulting::fault_ended))]
pub(crate) fn run<I: Source, O: Sink>(alloc: Global, input: &mut I, output: &mut O) -> Status
    ensures called { IsCall asked.Run (I.left input.old) (I.left input.new) (I.taken input.old)
        (I.taken input.new) (I.faults input.old) (I.faults input.new) (O.written output.old)
        (O.written output.new) (number_of result) }
    ensures rose { number_of result ≡ 4 → Rose (O.faults output.old) (O.faults output.new) }
    ensures input { NoFaultUnless (IsFaulty (number_of result)) (I.faults input.old)
        (I.faults input.new) (I.failed input.new) }
    ensures output { NoFaultUnless (number_of result ≡ 4) (O.faults output.old)
        (O.faults output.new) (O.failed output.new) }
    ensures most { I.taken input.new ≤ I.taken input.old + limit asked.Run + 1 }
{
    match transcript(alloc, input) {
        Ok(written) => finish(output, written.text.bytes(), written.status),
        Err(status) => stop(output, status),
    }
}
