//! The transcript of a source, with its status.

use ft_base::{Memory, Text};
use ft_program::{Written, run};
use ft_whole_answers::Status;
use std::alloc::Global;

// The number of a status.
fn number(status: Status) -> u8 {
    match status {
        Status::Done => 0,
        Status::Usage => 2,
        Status::ReadFault => 3,
        Status::WriteFault => 4,
        Status::TooLong => 5,
        Status::NotUtf8 => 6,
        Status::Syntax => 7,
        Status::NameOrType => 8,
        Status::Rule => 9,
        Status::Unhandled => 10,
        Status::Refused => 11,
        Status::NoMatch => 12,
        Status::Spent => 13,
        Status::Shape => 14,
        Status::Rejected => 15,
        Status::File => 16,
        Status::Memory => 17,
    }
}

/// What a run of the bytes writes within the budget, and the number of its status.
pub fn transcript(alloc: Global, source: &[u8], budget: u64) -> Result<(Text, u8), Memory> {
    let Written { text, status } = run(alloc, source, budget)?;
    Ok((text, number(status)))
}
