//! The lines of a file.

ghost use Rattle.std.specs.Prelude.{◌≡◌, ◌<◌, ◌≤◌, ◌∷◌, [], length, IfSome, IfNone};
ghost use Rattle.ft_items.specs.Lines.{lines_in};
ghost use Rattle.ft_read.specs.Files as spec;

/// The first line without its line feed, and the bytes after it, or None where there is no line feed.
#[tactic(auto, using(crate::proofs::Splitting::line_cut, crate::proofs::Splitting::line_whole))]
pub fn split_line(bytes: &[u8]) -> Option<(&[u8], &[u8])>
    ensures lines { IfSome result (λ x. lines_in bytes.now ≡ x.0.now ∷ lines_in x.1.now) }
    ensures shorter { IfSome result (λ x. length x.1.now < length bytes.now) }
    ensures none { IfNone result (lines_in bytes.now ≡ bytes.now ∷ []) }
{
    let length = before_feed(bytes);
    if length < bytes.len() {
        Some((&bytes[..length], &bytes[length + 1..]))
    } else {
        None
    }
}

// How many bytes stand before the first line feed.
fn before_feed(bytes: &[u8]) -> usize
    ensures count { result ≡ spec.before_feed bytes.now }
    ensures within { result ≤ length bytes.now }
{
    let mut length = 0;
    for byte in bytes {
        if *byte == b'\n' {
            return length;
        }
        length += 1;
    }
    length
}
