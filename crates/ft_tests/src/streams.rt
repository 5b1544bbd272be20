//! Words that are not those of the program, and streams that fail.

use crate::called::{AMPLE, ROOM, Streams, called_over};
use std::test::Fail;

const SOURCE: &[u8] = b"rule Nat type\n";

#[test]
fn other_words_are_refused(rt: HostRuntime) -> Result<(), Fail> {
    let words: [&[&str]; 8] = [
        &[],
        &[""],
        &["Run"],
        &["run "],
        &["Export"],
        &["run", "run"],
        &["check", "export"],
        &["run", ""],
    ];
    for other in words {
        let answered = called_over(rt.alloc(), other, SOURCE, &AMPLE)?;
        assert!(rt; answered.is(2, "error usage\n"));
        let failing = Streams {
            failing_write: 1,
            ..AMPLE
        };
        let answered = called_over(rt.alloc(), other, SOURCE, &failing)?;
        assert!(rt; answered.is(4, ""));
    }
    Ok(())
}

// A word, the numbers of the read and of the write that fail, the room of the output, the status and what is written. Five
// bytes are moved at once. The bytes are a source, and no derivation file.
const FAILING: [(&str, u64, u64, usize, u8, &str); 16] = [
    ("run", 0, 0, ROOM, 0, "accepted Nat\n"),
    ("check", 0, 0, ROOM, 16, "error line 1 form\n"),
    // Reads.
    ("run", 1, 0, ROOM, 3, "error read\n"),
    ("run", 2, 0, ROOM, 3, "error read\n"),
    ("run", 4, 0, ROOM, 3, "error read\n"),
    ("check", 2, 0, ROOM, 3, "error read\n"),
    ("export", 2, 0, ROOM, 3, ""),
    // Writes.
    ("run", 0, 1, ROOM, 4, ""),
    ("run", 0, 2, ROOM, 4, "accep"),
    ("check", 0, 3, ROOM, 4, "error line"),
    ("export", 0, 1, ROOM, 4, ""),
    ("export", 0, 2, ROOM, 4, "andro"),
    ("run", 2, 2, ROOM, 4, "error"),
    // A full output.
    ("run", 0, 0, 12, 4, "accepted Nat"),
    ("run", 0, 0, 13, 0, "accepted Nat\n"),
    ("export", 0, 0, 12, 4, "andromeda de"),
];

#[test]
fn streams_that_fail_are_told(rt: HostRuntime) -> Result<(), Fail> {
    for (word, failing_read, failing_write, room, status, text) in FAILING {
        let streams = Streams {
            piece: 5,
            failing_read,
            failing_write,
            room,
        };
        let answered = called_over(rt.alloc(), &[word], SOURCE, &streams)?;
        assert!(rt;
            answered.is(status, text),
            "{word} {failing_read} {failing_write} {room}"
        );
    }
    Ok(())
}
