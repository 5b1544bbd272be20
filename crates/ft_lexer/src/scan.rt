//! The tokens of a text.

ghost use Rattle.std.specs.Prelude.{◌≡◌, ◌<◌, ◌^◌, ◌++◌, IfOk, OnOk, IsTrue};
ghost use Rattle.std.specs.Str.{chars as chars_of};
ghost use Rattle.ft_grammar.specs.Tokens.{width, token_at, tokens_from, tokens_of};
ghost use Rattle.ft_grammar.specs.Made.{is_ended};

use crate::front::front_of;
use ft_base::Memory;
use ft_grammar::{Kind, Token};
use std::alloc::Global;

/// The tokens of the text in their order, with the bytes of the text at which each begins and ends. White space and comments
/// belong to none. The last one, and no other, is `End`.
pub fn tokens(alloc: Global, text: &str) -> Result<Vec<Token>, Memory>
    ensures tokens { IfOk result (λ v. v.items ≡ tokens_of (chars_of text.now)) }
    ensures ended { IfOk result (λ v. IsTrue (is_ended v.items)) }
{
    let chars: Vec<char> = text.chars().collect(alloc)?;
    scan_of(alloc, &chars)
}

fn scan_of(alloc: Global, chars: &[char]) -> Result<Vec<Token>, Memory>
    requires { width chars.now < 2 ^ 63 }
    ensures { IfOk result (λ v. v.items ≡ tokens_of chars.now) }
{
    let mut tokens = Vec::new(alloc);
    let mut i = 0usize;
    let mut at = 0u64;
    while i < chars.len() {
        let (kind, length) = front_of(alloc, chars[i], &chars[i + 1..])?;
        let end = at + width_of(&chars[i..i + length]);
        push_token(&mut tokens, kind, at, end)?;
        at = end;
        i += length;
    }
    push_token(&mut tokens, Some(Kind::End), at, at)?;
    Ok(tokens)
}

// How many bytes the characters take.
fn width_of(chars: &[char]) -> u64
    requires { width chars.now < 2 ^ 64 }
    ensures { result ≡ width chars.now }
{
    let mut bytes = 0u64;
    for c in chars {
        bytes += c.len_utf8() as u64;
    }
    bytes
}

fn push_token(
    tokens: &mut Vec<Token>,
    kind: Option<Kind>,
    start: u64,
    end: u64,
) -> Result<(), Memory>
    ensures { OnOk result (tokens.new.items ≡ tokens.old.items ++ token_at start kind end) }
{
    if let Some(kind) = kind {
        tokens.push(Token { kind, start, end })?;
    }
    Ok(())
}
