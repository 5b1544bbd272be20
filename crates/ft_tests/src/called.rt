//! A call of the program in memory, and texts that several tables share.

use ft_outside::{MemSink, MemSource};
use ft_top::top;
use std::alloc::Global;
use std::test::Fail;

/// The room of a sink, and the bytes that a call reads or writes at once.
pub const ROOM: usize = 2_097_152;

pub const NATURALS: &str = "rule Nat type\nrule O : Nat\nrule S (n : Nat) : Nat\n";

/// What a call answered and wrote.
#[derive(Debug, Drop)]
pub struct Answered {
    pub status: u8,
    pub text: Vec<u8>,
}

impl Answered {
    /// Whether it is this status with this text.
    pub fn is(&self, status: u8, text: &str) -> bool {
        self.status == status && self.text.as_slice() == text.as_bytes()
    }

    /// Whether it is this status with a text of one line, which begins so, and has the other text after that.
    pub fn has(&self, status: u8, front: &str, inside: &str) -> bool {
        match str::from_utf8(&self.text) {
            Ok(text) => self.status == status && text.starts_with(front) && text.contains(inside),
            Err(_) => false,
        }
    }
}

/// How many bytes a read or a write moves, which read and which write fail, counted from 1, and the room of the output.
#[derive(Clone, Copy)]
pub struct Streams {
    pub piece: usize,
    pub failing_read: u64,
    pub failing_write: u64,
    pub room: usize,
}

/// Streams that move all at once, and never fail.
pub const AMPLE: Streams = Streams {
    piece: ROOM,
    failing_read: 0,
    failing_write: 0,
    room: ROOM,
};

/// The call with these words, for these bytes.
pub fn called_over(
    alloc: Global,
    words: &[&str],
    bytes: &[u8],
    streams: &Streams,
) -> Result<Answered, Fail> {
    let mut owned = Vec::new(alloc);
    for word in words {
        owned.push(String::from_str(alloc, word)?)?;
    }
    let piece = streams.piece.max(1);
    let failing_reads = vec![in alloc; streams.failing_read]?;
    let failing_writes = vec![in alloc; streams.failing_write]?;
    let mut input = MemSource::new(bytes.to_vec(alloc)?, piece, failing_reads);
    let mut output = MemSink::new(alloc, streams.room, piece, failing_writes)?;
    let status = top(alloc, &owned, &mut input, &mut output);
    Ok(Answered {
        status,
        text: output.bytes().to_vec(alloc)?,
    })
}

/// The call with the one word, for these bytes.
pub fn called(alloc: Global, word: &str, bytes: &[u8]) -> Result<Answered, Fail> {
    called_over(alloc, &[word], bytes, &AMPLE)
}

/// A text, so many times.
pub fn repeated(alloc: Global, text: &str, times: usize) -> Result<String, Fail> {
    let mut all = String::new(alloc);
    for _ in 0..times {
        all.push_str(text)?;
    }
    Ok(all)
}
