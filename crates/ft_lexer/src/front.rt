//! What stands at the front of a list of characters.

ghost use Rattle.std.specs.Prelude.{◌≡◌, ◌≤◌, ◌<◌, ◌+◌, ◌-◌, ◌∷◌, ◌^◌, IfOk, length, suc, nat_lt, Some, None, IsTrue, if◌then◌else◌};
ghost use Rattle.unicode_ident.specs.Ident.{is_xid_continue as continues};
ghost use Rattle.std.specs.Char.{is_ascii_digit};
ghost use Rattle.ft_base.specs.Names.{starts_name};
ghost use Rattle.ft_grammar.specs.Fronts.{run, is_space, word_or_mark, begins_comment, decimal_value, mark_kind, is_no_line_feed, name_kind, number_kind, mark_front, front};

use ft_base::limits::MAX_SOURCE_NUMBER;
use ft_base::{Memory, Name, Word};
use ft_grammar::{Kind, Mark};
use std::alloc::Global;
use unicode_ident::{is_xid_continue, is_xid_start};

// What the characters begin with, which is None for white space and comments, and how many characters that has.
pub fn front_of(alloc: Global, first: char, rest: &[char]) -> Result<(Option<Kind>, usize), Memory>
    requires { length rest.now < 2 ^ 63 }
    ensures front { IfOk result (λ r. front first rest.now ≡ (r.0, r.1)) }
    ensures some { IfOk result (λ r. 0 < r.1) }
    ensures within { IfOk result (λ r. r.1 ≤ length rest.now + 1) }
{
    if is_space(first) {
        return Ok((None, 1));
    }
    if begins_comment(first, rest) {
        return Ok((None, line_run(rest) + 1));
    }
    if begins_name(first) {
        let length = name_run(rest);
        return Ok((Some(name(alloc, first, &rest[..length])?), length + 1));
    }
    if first.is_ascii_digit() {
        let length = digit_run(rest);
        return Ok((Some(number(first, &rest[..length])), length + 1));
    }
    let (kind, length) = mark(first, rest);
    Ok((Some(kind), length))
}

fn is_space(c: char) -> bool
    ensures { result ≡ is_space c }
{
    c == ' ' || c == '\t' || c == '\r' || c == '\n'
}

fn begins_comment(first: char, rest: &[char]) -> bool
    ensures { result ≡ begins_comment first rest.now }
{
    match rest {
        [second, ..] => first == '-' && *second == '-',
        [] => false,
    }
}

fn begins_name(first: char) -> bool
    ensures { result ≡ starts_name first }
{
    first == '_' || is_xid_start(first)
}

// How many characters there are before a line feed.
fn line_run(text: &[char]) -> usize
    ensures run { result ≡ run is_no_line_feed text.now }
    ensures within { result ≤ length text.now }
{
    text.iter().take_while(|c| **c != '\n').count()
}

// How far the characters go on that continue a name.
fn name_run(text: &[char]) -> usize
    ensures run { result ≡ run continues text.now }
    ensures within { result ≤ length text.now }
{
    text.iter().take_while(|c| is_xid_continue(**c)).count()
}

fn digit_run(text: &[char]) -> usize
    ensures run { result ≡ run is_ascii_digit text.now }
    ensures within { result ≤ length text.now }
{
    text.iter().take_while(|c| c.is_ascii_digit()).count()
}

// What a run of characters is that begins as a name and goes on as one.
fn name(alloc: Global, first: char, rest: &[char]) -> Result<Kind, Memory>
    ensures { IfOk result (λ k. k ≡ name_kind (first ∷ rest.now)) }
{
    let mut spelling = Vec::new(alloc);
    spelling.push(first)?;
    spelling.extend_from_slice(rest)?;
    Ok(name_or_word(spelling))
}

fn name_or_word(spelling: Vec<char>) -> Kind
    ensures { result ≡ name_kind spelling.items }
{
    let word = Word::of(&spelling);
    match Name::from_chars(spelling) {
        Some(name) => Kind::Name(name),
        None => word_or_underscore(word),
    }
}

fn word_or_underscore(word: Option<Word>) -> Kind
    ensures { result ≡ word_or_mark word }
{
    match word {
        Some(word) => Kind::Word(word),
        None => Kind::Mark(Mark::Underscore),
    }
}

// What a run of digits is.
fn number(first: char, rest: &[char]) -> Kind
    requires { IsTrue (is_ascii_digit first) }
    ensures { result ≡ number_kind (first ∷ rest.now) }
{
    if first == '0' && !rest.is_empty() {
        return Kind::Bad;
    }
    match value(digit(first), rest) {
        Some(value) => Kind::Number(value),
        None => Kind::Bad,
    }
}

fn digit(c: char) -> u64
    ensures { result ≡ c - 48 }
{
    (c as u64).saturating_sub(48)
}

// The number that the digits write after those of a first number, or None where it is above the greatest one.
fn value(first: u64, rest: &[char]) -> Option<u64>
    requires { first ≤ MAX_SOURCE_NUMBER }
    ensures { result ≡ (if nat_lt MAX_SOURCE_NUMBER (decimal_value first rest.now) then None else Some (decimal_value first rest.now)) }
{
    let mut value = first;
    for c in rest {
        value = 10 * value + digit(*c);
        if value > MAX_SOURCE_NUMBER {
            return None;
        }
    }
    Some(value)
}

// The longest mark at the front, and how many characters it has.
fn mark(first: char, rest: &[char]) -> (Kind, usize)
    ensures front { result ≡ mark_front first rest.now }
    ensures some { 0 < result.1 }
    ensures within { result.1 ≤ length rest.now + 1 }
{
    match rest {
        [':', ..] if first == ':' => (Kind::Mark(Mark::DoubleColon), 2),
        ['=', ..] if first == '=' => (Kind::Mark(Mark::DoubleEquals), 2),
        ['>', ..] if first == '-' => (Kind::Mark(Mark::Arrow), 2),
        _ => (mark_of(first), 1),
    }
}

fn mark_of(c: char) -> Kind
    ensures { result ≡ mark_kind c }
{
    let mark = match c {
        '(' => Mark::LeftParen,
        ')' => Mark::RightParen,
        '{' => Mark::LeftBrace,
        '}' => Mark::RightBrace,
        ',' => Mark::Comma,
        ':' => Mark::Colon,
        '=' => Mark::Equals,
        '|' => Mark::Bar,
        '*' => Mark::Star,
        '@' => Mark::At,
        _ => return Kind::Bad,
    };
    Kind::Mark(mark)
}
