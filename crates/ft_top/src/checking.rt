//! The job `check`.

ghost use Rattle.std.specs.Prelude.{◌≡◌, ◌≤◌, ◌+◌, List, ℕ, IfOk, OnOk, IfErr, IsErrOf};
ghost use Rattle.ft_streams.specs.Streams.{Rose, IsAtEnd, NoFaultUnless};
ghost use Rattle.ft_answers.specs.declared.words.Job.TheVariants as asked;
ghost use Rattle.ft_base.specs.Names.{is_name_token};
ghost use Rattle.ft_items.specs.Texts.{IsTextOf};
ghost use Rattle.ft_verdicts.specs.Verdicts.{IsVerdict};
ghost use Rattle.ft_answers.specs.Words.{limit};
ghost use Rattle.ft_answers.specs.Statuses.{IsFaulty, IsOfInput, number_of};
ghost use Rattle.ft_top.specs.Calls.{IsCause, IsOfBytes, IsCall};

use crate::reading::read_input;
use crate::statuses::of_memory;
use crate::verdicts::{fault_text, status_for, verdict_text};
use crate::writing::{Written, finish, stop};
use ft_answers::{Job, Status};
use ft_base::Memory;
use ft_check::check_items;
use ft_outside::{Sink, Source};
use ft_read::{FileFault, read_items};
use ft_stated::StatedItems;
use std::alloc::Global;

// The verdict on the items of a file.
#[tactic(auto, using(crate::proofs::Filing::items_text))]
fn judge_items(alloc: Global, items: &StatedItems) -> Result<Written, Memory>
    ensures text { (bytes : List ℕ) → IsTextOf is_name_token bytes items.now.items
        → IfOk result (λ w. IsVerdict is_name_token bytes w.text (number_of w.status)) }
    ensures status { IfOk result (λ w. IsOfInput asked.Check w.status) }
{
    let verdict = check_items(alloc, items)?;
    Ok(Written {
        text: verdict_text(alloc, &verdict)?,
        status: status_for(&verdict),
    })
}

// The verdict on the file of the bytes, or its fault.
#[tactic(auto, using(crate::proofs::Filing::form_text, crate::proofs::Filing::version_text))]
fn judge(alloc: Global, bytes: &[u8]) -> Result<Written, Memory>
    ensures text { IfOk result (λ w. IsVerdict is_name_token bytes.now w.text (number_of w.status)) }
    ensures status { IfOk result (λ w. IsOfInput asked.Check w.status) }
{
    match read_items(alloc, bytes) {
        Ok(items) => judge_items(alloc, &items),
        Err(FileFault::Form(line)) => Ok(Written {
            text: fault_text(alloc, line, " form\n")?,
            status: Status::File,
        }),
        Err(FileFault::Version(line)) => Ok(Written {
            text: fault_text(alloc, line, " version\n")?,
            status: Status::File,
        }),
        Err(FileFault::Memory) => Err(Memory),
    }
}

// The verdict on the file that comes in.
fn verdict<I: Source>(alloc: Global, input: &mut I) -> Result<Written, Status>
    ensures status { IfOk result (λ w. IsOfInput asked.Check w.status) }
    ensures text { IfOk result (λ w. IsOfBytes asked.Check (I.left input.old) w.text w.status) }
    ensures end { OnOk result (IsAtEnd (I.left input.new)) }
    ensures cause { IfErr result (λ s. IsCause asked.Check (I.left input.old) (I.left input.new)
        (I.taken input.old) (I.taken input.new) (I.faults input.old) (I.faults input.new) s) }
    ensures faults { NoFaultUnless (IsErrOf result Status.ReadFault) (I.faults input.old)
        (I.faults input.new) (I.failed input.new) }
    ensures most { I.taken input.new ≤ I.taken input.old + limit asked.Check + 1 }
{
    let bytes = read_input(alloc, Job::Check, input)?;
    judge(alloc, &bytes).map_err(of_memory)
}

/// Reads a derivation file and writes the verdict on it.
#[tactic(auto, using(crate::proofs::Faulting::fault_none, crate::proofs::Faulting::fault_ended))]
pub(crate) fn check<I: Source, O: Sink>(alloc: Global, input: &mut I, output: &mut O) -> Status
    ensures called { IsCall asked.Check (I.left input.old) (I.left input.new) (I.taken input.old)
        (I.taken input.new) (I.faults input.old) (I.faults input.new) (O.written output.old)
        (O.written output.new) (number_of result) }
    ensures rose { number_of result ≡ 4 → Rose (O.faults output.old) (O.faults output.new) }
    ensures input { NoFaultUnless (IsFaulty (number_of result)) (I.faults input.old)
        (I.faults input.new) (I.failed input.new) }
    ensures output { NoFaultUnless (number_of result ≡ 4) (O.faults output.old)
        (O.faults output.new) (O.failed output.new) }
    ensures most { I.taken input.new ≤ I.taken input.old + limit asked.Check + 1 }
{
    match verdict(alloc, input) {
        Ok(written) => finish(output, written.text.bytes(), written.status),
        Err(status) => stop(output, status),
    }
}
