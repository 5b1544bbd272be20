//! Sources that are no text, or have a token of no kind.

use crate::theories::is_transcript;
use ft_base::Memory;

// Bytes, the status of their run, and its line.
const BYTES: [(&[u8], u8, &str); 14] = [
    (b"\xFF", 6, "error not utf-8 at byte 0\n"),
    (b"       \xFF", 6, "error not utf-8 at byte 7\n"),
    (b"rule Nat type\n\x80", 6, "error not utf-8 at byte 14\n"),
    // The first of several.
    (b"\xFF\xFF", 6, "error not utf-8 at byte 0\n"),
    // A character whose last byte is missing, at the end and before it.
    (b"-- \xE2\x82", 6, "error not utf-8 at byte 3\n"),
    (b"-- \xE2\x82 x", 6, "error not utf-8 at byte 3\n"),
    // A character in more bytes than it needs, half of a pair, and a number that is no character's.
    (b"\xC0\x80", 6, "error not utf-8 at byte 0\n"),
    (b"x\xED\xA0\x80", 6, "error not utf-8 at byte 1\n"),
    (b"xy\xF4\x90\x80\x80", 6, "error not utf-8 at byte 2\n"),
    // Characters before it count by their bytes.
    (b"-- \xC3\xA9\xFF", 6, "error not utf-8 at byte 5\n"),
    // It comes before a fault of syntax, and before a part that is not built.
    (b") \xFF", 6, "error not utf-8 at byte 2\n"),
    (b"computation x \xFF", 6, "error not utf-8 at byte 14\n"),
    // What is text, but no token; columns are counted in characters.
    (b"\xEF\xBB\xBFrule A type", 7, "error 1:1 syntax\n"),
    (
        b"rule \xC3\xA9\xC3\xA9 type \xE2\x82\xAC",
        7,
        "error 1:14 syntax\n",
    ),
];

#[test]
fn bytes_have_their_line(rt: HostRuntime) -> Result<(), Memory> {
    for (bytes, status, line) in BYTES {
        assert!(rt;
            is_transcript(rt.alloc(), bytes, 1_000_000, status, line)?,
            "{line}"
        );
    }
    Ok(())
}
