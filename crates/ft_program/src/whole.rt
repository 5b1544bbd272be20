//! What `run` writes for the bytes of a source.

ghost use Rattle.std.specs.Prelude.{◌≡◌, ◌≢◌, ◌++◌, [], ℕ, List, All, map, IfOk, OnOk};
ghost use Rattle.ft_meaning.specs.Trees.{command_of};
ghost use Rattle.ft_meaning.specs.Typing.{first_scope};
ghost use Rattle.ft_meaning.specs.Transcript.{transcript_from, start};
ghost use Rattle.ft_source.specs.Contents.{HasFault};
ghost use Rattle.ft_source.specs.declared.fault.SourceFault.TheVariants as cause;
ghost use Rattle.ft_eval.specs.CommandsAsking.{CommandAsksNothing};
ghost use Rattle.ft_program.specs.Running.{IsTranscriptOf, Writes};

use crate::commands::{Run, Step};
use ft_base::{Memory, Text};
use ft_grammar::Command;
use ft_print::not_yet_line;
use ft_source::{SourceFault, commands_of, text_of};
use ft_source_lines::{fault_line, fault_status};
use ft_stages::first_unbuilt;
use ft_stages_laws::built_asks_nothing;
use ft_whole_answers::Status;
use std::alloc::Global;

/// What was written, with its status.
#[derive(Drop)]
pub struct Written {
    pub text: Text,
    pub status: Status,
}

// The line of a fault of bytes, which is not that memory was refused.
#[tactic(auto, using(crate::proofs::Wholes::fault_written))]
fn told(alloc: Global, bytes: &[u8], fault: SourceFault) -> Result<Written, Memory>
    requires has { HasFault bytes.now fault }
    requires known { fault ≢ cause.Memory }
    ensures { IfOk result (λ w. (budget : ℕ) → IsTranscriptOf bytes.now budget w) }
{
    let text = fault_line(alloc, bytes, fault)?;
    Ok(Written {
        text,
        status: fault_status(fault),
    })
}

// The line of bytes that are the source of no commands.
fn unread(alloc: Global, bytes: &[u8], fault: SourceFault) -> Result<Written, Memory>
    requires { HasFault bytes.now fault }
    ensures { IfOk result (λ w. (budget : ℕ) → IsTranscriptOf bytes.now budget w) }
{
    match fault {
        SourceFault::TooLong => told(alloc, bytes, SourceFault::TooLong),
        SourceFault::NoText(byte) => told(alloc, bytes, SourceFault::NoText(byte)),
        SourceFault::Unexpected(at) => told(alloc, bytes, SourceFault::Unexpected(at)),
        SourceFault::TooNested(at) => told(alloc, bytes, SourceFault::TooNested(at)),
        SourceFault::Memory => Err(Memory),
    }
}

// Appends what a step gives.
fn append(text: &mut Text, lines: &Text) -> Result<(), Memory>
    ensures { OnOk result (text.new ≡ text.old ++ lines.now) }
{
    text.push(lines.bytes())
}

// The lines of commands that ask nothing of the equality checker.
fn run_all(
    alloc: Global,
    source: &str,
    commands: Vec<Command>,
    budget: u64,
) -> Result<Written, Memory>
    requires { All CommandAsksNothing (map command_of commands.items) }
    ensures { IfOk result (λ w. Writes w
        (transcript_from source.now (map command_of commands.items) first_scope []
        (start budget))) }
{
    let mut run = Run::new(alloc, commands, budget)?;
    let mut text = Text::new(alloc);
    'running: loop {
        match run.next(source)? {
            Step::Lines(lines) => append(&mut text, &lines)?,
            Step::Ends(last, status) => {
                append(&mut text, &last)?;
                return Ok(Written { text, status });
            }
        }
    }
}

/// What `run` writes for the bytes within a budget.
#[tactic(auto, using(crate::proofs::Wholes::not_yet_written, crate::proofs::Wholes::all_written))]
pub fn run(alloc: Global, bytes: &[u8], budget: u64) -> Result<Written, Memory>
    ensures { IfOk result (λ w. IsTranscriptOf bytes.now budget w) }
{
    built_asks_nothing();
    let source = match text_of(bytes) {
        Ok(source) => source,
        Err(fault) => return unread(alloc, bytes, fault),
    };
    let commands = match commands_of(alloc, source) {
        Ok(commands) => commands,
        Err(fault) => return unread(alloc, bytes, fault),
    };
    match first_unbuilt(commands.as_slice()) {
        None => run_all(alloc, source, commands, budget),
        Some(at) => Ok(Written {
            text: not_yet_line(alloc, source, at)?,
            status: Status::Syntax,
        }),
    }
}
