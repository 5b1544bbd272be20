//! The bytes that are left.

ghost use Rattle.std.specs.Prelude.{◌≡◌, ◌≤◌, ◌+◌, ◌*◌, ◌-◌, ◌^◌, drop, take, length, nat_le, Some, None, IfOk, if◌then◌else◌};
ghost use Rattle.std.specs.Char.{is_ascii_digit};
ghost use Rattle.ft_common.specs.Digits.{run, decimal_value, has_leading_zero};
ghost use Rattle.ft_lines.specs.Reading as spec;
ghost use Rattle.ft_lines.specs.Lines.{ended};
ghost use Rattle.ft_lines.specs.Names as names;
ghost use Rattle.ft_lines.specs.Names.{is_no_space};
ghost use Rattle.ft_lines.specs.Steps.{is_letter};
ghost use Rattle.ft_lines.specs.Reading.{Reads};

use crate::fault::Fault;
use ft_base::{Memory, Name};
use std::alloc::Global;
use std::marker::Model;

/// What is left of a line, which contracts see as the list of its bytes.
#[derive(Drop)]
pub struct Cursor<'a> {
    rest: &'a [u8],
}

impl<'a> Model for Cursor<'a> {
    ghost use Rattle.std.specs.Prelude.{List, ℕ};

    ghost Value = { List ℕ };

    ghost view = { λ c. c.rest.now };
}

impl<'a> Cursor<'a> {
    pub fn new(rest: &'a [u8]) -> Cursor<'a>
        ensures { result ≡ rest.now }
    {
        Cursor { rest }
    }

    /// How many bytes are left.
    pub fn left(&self) -> usize
        ensures { result ≡ length self.now }
    {
        self.rest.len()
    }

    /// Goes past one byte.
    pub fn skip(&mut self)
        ensures { self.new ≡ drop 1 self.old }
    {
        match self.rest {
            [] => {}
            [_, rest @ ..] => self.rest = rest,
        }
    }

    /// Whether this byte is next.
    #[tactic(auto, unfolding(crate::specs::Reading::sees))]
    pub fn sees(&self, byte: u8) -> bool
        ensures { result ≡ spec.sees byte self.now }
    {
        match self.rest {
            [] => false,
            [next, ..] => *next == byte,
        }
    }

    /// Goes past this byte where it is next, and tells whether it was.
    pub fn passes(&mut self, byte: u8) -> bool
        ensures tells { result ≡ spec.sees byte self.old }
        ensures rest { self.new ≡ (if spec.sees byte self.old then drop 1 self.old else self.old) }
    {
        let sees = self.sees(byte);
        if sees {
            self.skip();
        }
        sees
    }

    /// Goes past this byte.
    #[tactic(auto, unfolding(crate::specs::Reading::expect, crate::specs::Reading::sees))]
    pub fn expect(&mut self, byte: u8) -> Result<(), Fault>
        ensures { Reads (spec.expect byte self.old) result self.new }
    {
        if self.sees(byte) {
            self.skip();
            Ok(())
        } else {
            Err(Fault::Form)
        }
    }

    /// The small letters that are next.
    pub fn letters(&mut self) -> &'a [u8]
        ensures letters { result.now ≡ take (run is_letter self.old) self.old }
        ensures rest { self.new ≡ drop (run is_letter self.old) self.old }
    {
        let length = letters(self.rest);
        let letters = &self.rest[..length];
        self.rest = &self.rest[length..];
        letters
    }

    /// The number that is next.
    #[tactic(auto, unfolding(crate::specs::Reading::number))]
    pub fn number(&mut self) -> Result<u64, Fault>
        ensures { Reads (spec.number self.old) result self.new }
    {
        let length = digits(self.rest);
        match spelled(&self.rest[..length]) {
            Some(number) => {
                self.rest = &self.rest[length..];
                Ok(number)
            }
            None => Err(Fault::Form),
        }
    }

    /// The name that is next: the bytes up to a space, or to the end.
    #[tactic(auto, unfolding(crate::specs::Names::name))]
    pub fn name(&mut self, alloc: Global) -> Result<Name, Fault>
        ensures { Reads (names.name self.old) result self.new }
    {
        let length = name_bytes(self.rest);
        let name = name_in(alloc, &self.rest[..length])?.ok_or(Fault::Form)?;
        self.rest = &self.rest[length..];
        Ok(name)
    }

    /// The end of the line.
    #[tactic(auto, unfolding(crate::specs::Lines::ended))]
    pub fn end(&self) -> Result<(), Fault>
        ensures { Reads (ended self.now) result self.now }
    {
        match self.rest {
            [] => Ok(()),
            _ => Err(Fault::Form),
        }
    }
}

// How many bytes stand before the next space.
fn name_bytes(text: &[u8]) -> usize
    ensures run { result ≡ run is_no_space text.now }
    ensures within { result ≤ length text.now }
{
    let mut length = 0;
    for c in text {
        if *c == b' ' {
            return length;
        }
        length += 1;
    }
    length
}

// The name that the bytes are, or None where they are no UTF-8 or no name token.
fn name_in(alloc: Global, bytes: &[u8]) -> Result<Option<Name>, Memory>
    ensures { IfOk result (λ n. n ≡ names.name_in bytes.now) }
{
    match str::from_utf8(bytes) {
        Ok(text) => Name::new(alloc, text),
        Err(_) => Ok(None),
    }
}

// How many small letters a text begins with.
fn letters(text: &[u8]) -> usize
    ensures run { result ≡ run is_letter text.now }
    ensures within { result ≤ length text.now }
{
    let mut length = 0;
    for c in text {
        if *c < b'a' || *c > b'z' {
            return length;
        }
        length += 1;
    }
    length
}

// How many digits a text begins with.
fn digits(text: &[u8]) -> usize
    ensures run { result ≡ run is_ascii_digit text.now }
    ensures within { result ≤ length text.now }
{
    let mut length = 0;
    for c in text {
        if !c.is_ascii_digit() {
            return length;
        }
        length += 1;
    }
    length
}

// The number that the digits spell, or None where it has a leading zero or is no less than 2 ^ 64.
fn spelled(digits: &[u8]) -> Option<u64>
    ensures { result ≡ spec.spelled digits.now }
{
    if digits.is_empty() || has_padding(digits) {
        return None;
    }
    value(digits)
}

// Whether a zero stands before other digits.
fn has_padding(digits: &[u8]) -> bool
    ensures { result ≡ has_leading_zero digits.now }
{
    match digits {
        [first, _, ..] => *first == b'0',
        _ => false,
    }
}

// The number that the digits write, where it is less than 2 ^ 64.
#[tactic(auto, using(crate::proofs::Numbers::value_none, crate::proofs::Numbers::value_some))]
fn value(digits: &[u8]) -> Option<u64>
    ensures { result ≡ (if nat_le (2 ^ 64) (decimal_value 0 digits.now) then None else Some (decimal_value 0 digits.now)) }
{
    let mut value: u64 = 0;
    for c in digits {
        match longer(value, *c) {
            Some(next) => value = next,
            None => return None,
        }
    }
    Some(value)
}

// The number with one more digit, where it is less than 2 ^ 64.
fn longer(value: u64, digit: u8) -> Option<u64>
    ensures { result ≡ (if nat_le (2 ^ 64) (10 * value + (digit - 48)) then None else Some (10 * value + (digit - 48))) }
{
    let next = 10 * (value as u128) + (digit.saturating_sub(48) as u128);
    if next > u64::MAX as u128 {
        return None;
    }
    Some(next as u64)
}
