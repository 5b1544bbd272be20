//! Places in a source.

ghost use Rattle.std.specs.Prelude.{take, ◌≡◌, ◌<◌, ◌≤◌, length};
ghost use Rattle.ft_meaning.specs.Lines.{line_of, column_of, begins_character};

/// The line and the column of a place, both from 1. A place past the end is taken as the end. It takes no memory.
pub fn line_col(source: &str, at: u64) -> (u64, u64)
    ensures line { result.0 ≡ line_of source.now at }
    ensures column { result.1 ≡ column_of source.now at }
{
    let mut line = 1;
    let mut column = 1;
    for b in front(source.as_bytes(), at) {
        if *b == b'\n' {
            line += 1;
            column = 1;
        } else if begins(*b) {
            column += 1;
        }
    }
    (line, column)
}

// The bytes before a place.
fn front(bytes: &[u8], at: u64) -> &[u8]
    ensures { result.now ≡ take at bytes.now }
{
    if at < bytes.len() as u64 {
        &bytes[..at as usize]
    } else {
        bytes
    }
}

// Whether the byte begins a character.
fn begins(b: u8) -> bool
    ensures { result ≡ begins_character b }
{
    b < 128 || b >= 192
}
