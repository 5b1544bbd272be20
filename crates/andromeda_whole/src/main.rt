//! Runs a source of the whole language: reads it from standard input, writes its transcript to standard
//! output, and ends with its status.
#![tactic(auto)]

ghost use Rattle.std.specs.Prelude.{◌≡◌};
ghost use Rattle.ft_whole_answers.specs.Statuses.{number_of};

use ft_base::limits::{DEFAULT_BUDGET, MAX_SOURCE_BYTES};
use ft_outside::{ReadErr, Sink, Source, StdSink, StdSource, read_source, write_all};
use ft_program::{Written, run};
use ft_whole_answers::Status;
use std::alloc::Global;
use std::process::ExitCode;

// The number of a status.
fn number(status: Status) -> u8
    ensures { result ≡ number_of status }
{
    match status {
        Status::Done => 0,
        Status::Usage => 2,
        Status::ReadFault => 3,
        Status::WriteFault => 4,
        Status::TooLong => 5,
        Status::NotUtf8 => 6,
        Status::Syntax => 7,
        Status::NameOrType => 8,
        Status::Rule => 9,
        Status::Unhandled => 10,
        Status::Refused => 11,
        Status::NoMatch => 12,
        Status::Spent => 13,
        Status::Shape => 14,
        Status::Rejected => 15,
        Status::File => 16,
        Status::Memory => 17,
    }
}

// Writes a text, and answers the status, or that a write failed.
fn finish<O: Sink>(output: &mut O, text: &[u8], status: Status) -> Status {
    match write_all(output, text) {
        Ok(()) => status,
        Err(_) => Status::WriteFault,
    }
}

// Runs the bytes of a source within the default budget.
fn run_bytes<O: Sink>(alloc: Global, bytes: &[u8], output: &mut O) -> Status {
    match run(alloc, bytes, DEFAULT_BUDGET) {
        Ok(Written { text, status }) => finish(output, text.bytes(), status),
        Err(_) => Status::Memory,
    }
}

// Runs the source that comes in.
fn run_input<I: Source, O: Sink>(alloc: Global, input: &mut I, output: &mut O) -> Status {
    match read_source(alloc, input, MAX_SOURCE_BYTES as usize) {
        Ok(bytes) => run_bytes(alloc, &bytes, output),
        Err(ReadErr::Fault) => finish(output, b"error read\n", Status::ReadFault),
        Err(ReadErr::TooLong) => finish(output, b"error too long\n", Status::TooLong),
        Err(ReadErr::Memory) => Status::Memory,
    }
}

fn main(rt: HostRuntime) -> ExitCode {
    let mut input = StdSource::new(rt.stdin());
    let mut output = StdSink::new(rt.stdout());
    ExitCode::from(number(run_input(rt.alloc(), &mut input, &mut output)))
}
