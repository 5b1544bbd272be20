//! Numbers among the words.

ghost use Rattle.std.specs.Prelude.{◌≡◌, ◌≤◌};
ghost use Rattle.ft_answers.specs.CommandLine.{number_in};

/// The number that the text spells in decimal digits, where it is from 1 to `most`.
#[tactic(auto, using(crate::proofs::Numbers::over_next))]
pub(crate) fn number_of(text: &str, most: u64) -> Option<u64>
    requires { most ≤ 1000000000 }
    ensures { result ≡ number_in most text.now }
{
    let bytes = text.as_bytes();
    if bytes.is_empty() || bytes[0] == b'0' {
        return None;
    }
    let mut number = 0u64;
    for byte in bytes {
        if !byte.is_ascii_digit() {
            return None;
        }
        number = 10 * number + (*byte - 48) as u64;
        if number > most {
            return None;
        }
    }
    Some(number)
}
