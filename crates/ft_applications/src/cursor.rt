//! The tokens that are left.
ghost use Rattle.std.specs.Prelude.{◌≡◌, drop, length};
ghost use Rattle.ft_applications_meaning.specs.Grammar.{kinds};
ghost use Rattle.ft_applications.specs.Reading as spec;
ghost use Rattle.ft_applications.specs.Reading.{Reads};

use crate::fault::Fault;
use ft_base::{Name, Word};
use ft_grammar::{Kind, Mark, Token};
use std::marker::Model;

#[derive(Drop)]
pub struct Cursor<'a> {
    rest: &'a [Token],
}

impl<'a> Model for Cursor<'a> {
    ghost use Rattle.ft_grammar.specs.declared.token.Kind.{Kind};
    ghost use Rattle.std.specs.Prelude.{List};
    ghost use Rattle.ft_applications_meaning.specs.Grammar.{kinds};

    ghost Value = { List Kind };

    ghost view = { λ c. kinds c.rest.now };
}

impl<'a> Cursor<'a> {
    pub fn new(rest: &'a [Token]) -> Cursor<'a>
        ensures { result ≡ kinds rest.now }
    {
        Cursor { rest }
    }

    /// How many tokens are left.
    pub fn left(&self) -> usize
        ensures { result ≡ length self.now }
    {
        self.rest.len()
    }

    /// Goes past one token.
    pub fn take(&mut self)
        ensures { self.new ≡ drop 1 self.old }
    {
        match self.rest {
            [] => {}
            [_, rest @ ..] => self.rest = rest,
        }
    }

    #[tactic(auto, unfolding(crate::specs::Reading::sees_word))]
    pub fn sees_word(&self, word: Word) -> bool
        ensures { result ≡ spec.sees_word word self.now }
    {
        match self.rest {
            [] => false,
            [t, ..] => match &t.kind {
                Kind::Word(w) => *w == word,
                _ => false,
            },
        }
    }

    #[tactic(auto, unfolding(crate::specs::Reading::sees_mark))]
    pub fn sees_mark(&self, mark: Mark) -> bool
        ensures { result ≡ spec.sees_mark mark self.now }
    {
        match self.rest {
            [] => false,
            [t, ..] => match &t.kind {
                Kind::Mark(m) => *m == mark,
                _ => false,
            },
        }
    }

    #[tactic(auto, unfolding(crate::specs::Reading::sees_name))]
    pub fn sees_name(&self) -> bool
        ensures { result ≡ spec.sees_name self.now }
    {
        match self.rest {
            [] => false,
            [t, ..] => match &t.kind {
                Kind::Name(_) => true,
                _ => false,
            },
        }
    }

    /// Whether the end alone is left.
    #[tactic(auto, unfolding(crate::specs::Reading::sees_end))]
    pub fn sees_end(&self) -> bool
        ensures { result ≡ spec.sees_end self.now }
    {
        match self.rest {
            [t] => match &t.kind {
                Kind::End => true,
                _ => false,
            },
            _ => false,
        }
    }

    #[tactic(auto, unfolding(crate::specs::Reading::expect_mark, crate::specs::Reading::sees_mark))]
    pub fn expect_mark(&mut self, mark: Mark) -> Result<(), Fault>
        ensures { Reads (spec.expect_mark mark self.old) result self.new }
    {
        if self.sees_mark(mark) {
            self.take();
            Ok(())
        } else {
            Err(Fault::NotYet)
        }
    }

    /// The name that is next.
    #[tactic(auto, unfolding(crate::specs::Reading::name))]
    pub fn name(&mut self) -> Result<Name, Fault>
        ensures { Reads (spec.name self.old) result self.new }
    {
        match self.rest {
            [] => Err(Fault::NotYet),
            [t, rest @ ..] => match &t.kind {
                Kind::Name(name) => {
                    let name = name.copy()?;
                    self.rest = rest;
                    Ok(name)
                }
                _ => Err(Fault::NotYet),
            },
        }
    }
}
