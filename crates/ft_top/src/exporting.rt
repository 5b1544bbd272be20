//! The job `export`.

ghost use Rattle.std.specs.Prelude.{◌≡◌, ◌≤◌, ◌+◌, ◌⊎◌, encode_utf8_all};
ghost use Rattle.ft_base.specs.Names.{is_name_token};
ghost use Rattle.ft_items.specs.Texts.{IsTextOf, text_of as file_of};
ghost use Rattle.ft_streams.specs.Streams.{Rose, Appends, AppendsPrefix, NoFaultUnless};
ghost use Rattle.ft_run.specs.Running.{ending_status};
ghost use Rattle.ft_answers.specs.declared.words.Job.TheVariants as asked;
ghost use Rattle.ft_answers.specs.Words.{limit};
ghost use Rattle.ft_answers.specs.Statuses.{IsFaulty, number_of};
ghost use Rattle.ft_top.specs.Calls.{IsCall, WritesFile};

use crate::running::{run_input, status_for};
use ft_answers::{Job, Status};
use ft_export::{WriteErr, write_derivation};
use ft_outside::{Sink, Source};
use ft_run::Run;
use ft_sound::verdict_is_exact;
use std::alloc::Global;

// Writes the derivation of a run, and answers the status of the run; or why it was not written whole.
fn write_run<O: Sink>(alloc: Global, run: &Run, output: &mut O) -> Status
    ensures file { WritesFile run.now.session.state.items (ending_status run.now.ending)
        (number_of result) (O.written output.old) (O.written output.new) }
    ensures rose { number_of result ≡ 4 → Rose (O.faults output.old) (O.faults output.new) }
    ensures faults { NoFaultUnless (number_of result ≡ 4) (O.faults output.old)
        (O.faults output.new) (O.failed output.new) }
{
    match write_derivation(alloc, run.session.kernel(), output) {
        Ok(()) => status_for(run.ending),
        Err(WriteErr::Fault) => Status::WriteFault,
        Err(WriteErr::Memory) => Status::Memory,
    }
}

/// Reads a source, runs it, and writes the derivation of what was done.
pub(crate) fn export<I: Source, O: Sink>(alloc: Global, input: &mut I, output: &mut O) -> Status
    ensures called { IsCall asked.Export (I.left input.old) (I.left input.new) (I.taken input.old)
        (I.taken input.new) (I.faults input.old) (I.faults input.new) (O.written output.old)
        (O.written output.new) (number_of result) }
    ensures rose { number_of result ≡ 4 → Rose (O.faults output.old) (O.faults output.new) }
    ensures input { NoFaultUnless (IsFaulty (number_of result)) (I.faults input.old)
        (I.faults input.new) (I.failed input.new) }
    ensures output { NoFaultUnless (number_of result ≡ 4) (O.faults output.old)
        (O.faults output.new) (O.failed output.new) }
    ensures most { I.taken input.new ≤ I.taken input.old + limit asked.Export + 1 }
{
    verdict_is_exact();
    match run_input(alloc, Job::Export, input) {
        Ok(ran) => write_run(alloc, &ran.run, output),
        Err(status) => status,
    }
}
