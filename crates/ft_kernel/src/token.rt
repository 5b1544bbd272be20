//! Tokens: what names a thesis, a boundary, a variable, a metavariable or a rule of a list. They are made by the calls of
//! the list alone.

ghost use Rattle.std.specs.Prelude.{◌≡◌};

use ft_base::Sequence;
use std::marker::{Model, PhantomData};

/// What a thesis is named by.
#[derive(Clone, Copy, Debug, PartialEq, Eq)]
pub struct OfThesis;

/// What a boundary is named by.
#[derive(Clone, Copy, Debug, PartialEq, Eq)]
pub struct OfBoundary;

/// What a variable is named by.
#[derive(Clone, Copy, Debug, PartialEq, Eq)]
pub struct OfVariable;

/// What a metavariable is named by.
#[derive(Clone, Copy, Debug, PartialEq, Eq)]
pub struct OfMetavariable;

/// What a rule is named by.
#[derive(Clone, Copy, Debug, PartialEq, Eq)]
pub struct OfRule;

/// What names an item of a list, by its number. Contracts see it as this number.
#[derive(Clone, Copy, Debug, PartialEq, Eq)]
pub struct Token<K> {
    number: u64,
    kind: PhantomData<K>,
}

/// A thesis, by the number of its entry.
pub type J = Token<OfThesis>;

/// A boundary, by the number of its entry.
pub type B = Token<OfBoundary>;

/// A variable, by its own number.
pub type V = Token<OfVariable>;

/// A metavariable, by its number.
pub type M = Token<OfMetavariable>;

/// A rule, by its number.
pub type RuleId = Token<OfRule>;

/// Theses in order, which contracts see as the list of their numbers.
pub type Judgements = Sequence<J>;

/// Metavariables in order, which contracts see as the list of their numbers.
pub type Metavariables = Sequence<M>;

impl<K> Model for Token<K> {
    ghost use Rattle.std.specs.Prelude.{ℕ};

    ghost Value = { ℕ };

    ghost view = { λ t. t.number };

    ghost inverse = { λ n. record { number = n; kind = record {} } };
}

impl<K> Token<K> {
    pub(crate) fn at(number: u64) -> Token<K>
        ensures { result ≡ number }
    {
        Token {
            number,
            kind: PhantomData,
        }
    }

    /// The number. It takes no memory.
    pub fn number(self) -> u64
        ensures { result ≡ self }
    {
        self.number
    }
}
