//! The input of a job.

ghost use Rattle.std.specs.Prelude.{◌≡◌, ◌≤◌, ◌+◌, length, IfOk, OnOk, IfErr, IsErrOf, IfSome};
ghost use Rattle.ft_streams.specs.Streams.{IsAtEnd, NoFaultUnless};
ghost use Rattle.ft_answers.specs.Words.{limit};
ghost use Rattle.ft_top.specs.Causes.{IsCauseOfReading};

use crate::statuses::of_reading;
use crate::words::most_bytes;
use ft_answers::{Job, Status};
use ft_outside::{Source, read_source};
use std::alloc::Global;

/// All the bytes of the input, at most as many as the job reads.
pub(crate) fn read_input<I: Source>(
    alloc: Global,
    job: Job,
    input: &mut I,
) -> Result<Vec<u8>, Status>
    ensures bytes { IfOk result (λ v. IfSome (I.left input.old) (λ bytes. bytes ≡ v.items)) }
    ensures within { IfOk result (λ v. length v.items ≤ limit job) }
    ensures end { OnOk result (IsAtEnd (I.left input.new)) }
    ensures cause { IfErr result (λ s. IsCauseOfReading job (I.left input.old) (I.taken input.old)
        (I.taken input.new) (I.faults input.old) (I.faults input.new) s) }
    ensures faults { NoFaultUnless (IsErrOf result Status.ReadFault) (I.faults input.old)
        (I.faults input.new) (I.failed input.new) }
    ensures most { I.taken input.new ≤ I.taken input.old + limit job + 1 }
{
    read_source(alloc, input, most_bytes(job)).map_err(of_reading)
}
