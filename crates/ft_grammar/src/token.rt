//! Tokens.

use ft_base::{Name, Word};

/// A token, with the bytes of the source at which it begins and ends.
#[derive(Debug, PartialEq, Eq, Drop)]
pub struct Token {
    pub kind: Kind,
    pub start: u64,
    pub end: u64,
}

/// What a token is. `Bad` is a character that begins nothing, or a run of digits that is no number. `End` stands at the end.
#[derive(Debug, PartialEq, Eq, Drop)]
pub enum Kind {
    Name(Name),
    Number(u64),
    Word(Word),
    Mark(Mark),
    Bad,
    End,
}

/// The marks `( ) { } , : :: = == -> | * @ _`, in this order.
#[derive(Clone, Copy, Debug, PartialEq, Eq, Drop)]
pub enum Mark {
    LeftParen,
    RightParen,
    LeftBrace,
    RightBrace,
    Comma,
    Colon,
    DoubleColon,
    Equals,
    DoubleEquals,
    Arrow,
    Bar,
    Star,
    At,
    Underscore,
}
