//! The tokens that are left.

ghost use Rattle.std.specs.Prelude.{◌≡◌, ◌&&◌, IfSome, IfNone, Some, None, drop, length};
ghost use Rattle.ft_grammar.specs.Rules.{exactly, is_word, is_mark, is_name, worded};
ghost use Rattle.ft_grammar.specs.Forms.{begins_one, begins_two, begins_atom, begins_pattern_atom, is_no_end};
ghost use Rattle.ft_grammar.specs.Reading as spec;
ghost use Rattle.ft_grammar.specs.Reading.{Reads, kind_of, start_of};
ghost use Rattle.ft_grammar.specs.declared.fault.SyntaxFault.TheVariants.{Unexpected, TooNested};

use crate::form::{one_form, two_form};
use ft_base::Word;
use ft_grammar::{Kind, Mark, Named, SyntaxFault, Token};
use std::marker::Model;

#[derive(Drop)]
pub struct Cursor<'a> {
    rest: &'a [Token],
}

impl<'a> Model for Cursor<'a> {
    ghost use Rattle.ft_grammar.specs.declared.token.Token.{Token};
    ghost use Rattle.std.specs.Prelude.{List};

    ghost Value = { List Token };

    ghost view = { λ c. c.rest.now };
}

impl<'a> Cursor<'a> {
    pub fn new(rest: &'a [Token]) -> Cursor<'a>
        ensures { result ≡ rest.now }
    {
        Cursor { rest }
    }

    /// How many tokens are left.
    pub fn left(&self) -> usize
        ensures { result ≡ length self.now }
    {
        self.rest.len()
    }

    /// Where the next token begins.
    pub fn start(&self) -> u64
        ensures { result ≡ start_of self.now }
    {
        match self.rest {
            [] => 0,
            [t, ..] => t.start,
        }
    }

    /// Goes past one token.
    pub fn take(&mut self)
        ensures { self.new ≡ drop 1 self.old }
    {
        match self.rest {
            [] => {}
            [_, rest @ ..] => self.rest = rest,
        }
    }

    /// The fault that the next token is not allowed.
    pub fn unexpected(&self) -> SyntaxFault
        ensures { result ≡ Unexpected (start_of self.now) }
    {
        SyntaxFault::Unexpected(self.start())
    }

    /// The fault that the next token begins a part that is nested too deeply.
    pub fn too_nested(&self) -> SyntaxFault
        ensures { result ≡ TooNested (start_of self.now) }
    {
        SyntaxFault::TooNested(self.start())
    }

    #[tactic(auto, unfolding(ft_grammar::specs::Rules::is_word))]
    pub fn sees_word(&self, word: Word) -> bool
        ensures { result ≡ is_word word (kind_of self.now) }
    {
        match self.rest {
            [] => false,
            [t, ..] => match &t.kind {
                Kind::Word(w) => *w == word,
                _ => false,
            },
        }
    }

    #[tactic(auto, unfolding(ft_grammar::specs::Rules::is_mark))]
    pub fn sees_mark(&self, mark: Mark) -> bool
        ensures { result ≡ is_mark mark (kind_of self.now) }
    {
        match self.rest {
            [] => false,
            [t, ..] => match &t.kind {
                Kind::Mark(m) => *m == mark,
                _ => false,
            },
        }
    }

    #[tactic(auto, unfolding(ft_grammar::specs::Rules::is_name))]
    pub fn sees_name(&self) -> bool
        ensures { result ≡ is_name (kind_of self.now) }
    {
        match self.rest {
            [] => false,
            [t, ..] => match &t.kind {
                Kind::Name(_) => true,
                _ => false,
            },
        }
    }

    /// Whether a token other than the end is next.
    #[tactic(auto, unfolding(ft_grammar::specs::Forms::is_no_end))]
    pub fn sees_no_end(&self) -> bool
        ensures { result ≡ is_no_end (kind_of self.now) }
    {
        match self.rest {
            [] => false,
            [t, ..] => match &t.kind {
                Kind::End => false,
                _ => true,
            },
        }
    }

    /// Whether a name is next, and that word after it.
    pub fn sees_name_and_word(&self, word: Word) -> bool
        ensures { result ≡ is_name (kind_of self.now) && is_word word (kind_of (drop 1 self.now)) }
    {
        self.sees_name() && self.after().sees_word(word)
    }

    /// Whether a name is next, and that mark after it.
    pub fn sees_name_and_mark(&self, mark: Mark) -> bool
        ensures { result ≡ is_name (kind_of self.now) && is_mark mark (kind_of (drop 1 self.now)) }
    {
        self.sees_name() && self.after().sees_mark(mark)
    }

    // The tokens after the next one.
    fn after(&self) -> Cursor<'a>
        ensures { result ≡ drop 1 self.now }
    {
        match self.rest {
            [] => Cursor { rest: self.rest },
            [_, rest @ ..] => Cursor { rest },
        }
    }

    /// Whether an atom among the expressions is next.
    #[tactic(auto, unfolding(ft_grammar::specs::Forms::begins_atom))]
    pub fn sees_atom(&self) -> bool
        ensures { result ≡ begins_atom (kind_of self.now) }
    {
        match self.rest {
            [] => false,
            [t, ..] => match &t.kind {
                Kind::Name(_) => true,
                Kind::Word(Word::TrueWord | Word::FalseWord | Word::NoneWord | Word::Nil) => true,
                Kind::Mark(Mark::LeftParen) => true,
                _ => false,
            },
        }
    }

    /// Whether an atom among the patterns is next.
    #[tactic(auto, unfolding(ft_grammar::specs::Forms::begins_pattern_atom))]
    pub fn sees_pattern_atom(&self) -> bool
        ensures { result ≡ begins_pattern_atom (kind_of self.now) }
    {
        match self.rest {
            [] => false,
            [t, ..] => match &t.kind {
                Kind::Name(_) => true,
                Kind::Word(Word::TrueWord | Word::FalseWord | Word::NoneWord | Word::Nil) => true,
                Kind::Mark(Mark::Underscore | Mark::LeftParen) => true,
                _ => false,
            },
        }
    }

    /// Whether a word is next that stands before one atom.
    #[tactic(auto, unfolding(ft_grammar::specs::Forms::begins_one))]
    pub fn sees_one_form(&self) -> bool
        ensures { result ≡ begins_one (kind_of self.now) }
    {
        match self.rest {
            [] => false,
            [t, ..] => match &t.kind {
                Kind::Word(word) => one_form(*word).is_some(),
                _ => false,
            },
        }
    }

    /// Whether a word is next that stands before two atoms.
    #[tactic(auto, unfolding(ft_grammar::specs::Forms::begins_two))]
    pub fn sees_two_form(&self) -> bool
        ensures { result ≡ begins_two (kind_of self.now) }
    {
        match self.rest {
            [] => false,
            [t, ..] => match &t.kind {
                Kind::Word(word) => two_form(*word).is_some(),
                _ => false,
            },
        }
    }

    /// The word that is next.
    pub fn word(&self) -> Option<Word>
        ensures { result ≡ worded (λ w. Some w) (kind_of self.now) }
    {
        match self.rest {
            [] => None,
            [t, ..] => match &t.kind {
                Kind::Word(word) => Some(*word),
                _ => None,
            },
        }
    }

    /// Goes past the next token, where it has a value.
    pub fn past<T: Drop>(&mut self, value: Option<T>) -> Result<T, SyntaxFault>
        ensures { Reads (spec.value_or_refuse value self.old) result self.new }
    {
        match value {
            Some(value) => {
                self.take();
                Ok(value)
            }
            None => Err(self.unexpected()),
        }
    }

    /// Goes past that word.
    #[tactic(auto, unfolding(ft_grammar::specs::Reading::read_word, ft_grammar::specs::Rules::exactly))]
    pub fn expect_word(&mut self, word: Word) -> Result<(), SyntaxFault>
        ensures { Reads (spec.read_word (exactly word) self.old) result self.new }
    {
        match self.rest {
            [t, rest @ ..] => match &t.kind {
                Kind::Word(w) => {
                    if *w == word {
                        self.rest = rest;
                        Ok(())
                    } else {
                        Err(self.unexpected())
                    }
                }
                _ => Err(self.unexpected()),
            },
            [] => Err(self.unexpected()),
        }
    }

    /// Goes past that mark.
    #[tactic(auto, unfolding(ft_grammar::specs::Reading::read_mark))]
    pub fn expect_mark(&mut self, mark: Mark) -> Result<(), SyntaxFault>
        ensures { Reads (spec.read_mark mark self.old) result self.new }
    {
        if self.sees_mark(mark) {
            self.take();
            Ok(())
        } else {
            Err(self.unexpected())
        }
    }

    /// The name that is next.
    #[tactic(auto, unfolding(ft_grammar::specs::Reading::read_name))]
    pub fn name(&mut self) -> Result<Named, SyntaxFault>
        ensures { Reads (spec.read_name self.old) result self.new }
    {
        match self.rest {
            [] => Err(self.unexpected()),
            [t, rest @ ..] => match &t.kind {
                Kind::Name(name) => {
                    let name = name.copy()?;
                    self.rest = rest;
                    Ok(Named { name, at: t.start })
                }
                _ => Err(self.unexpected()),
            },
        }
    }

    /// The number that is next.
    #[tactic(auto, unfolding(ft_grammar::specs::Reading::read_number))]
    pub fn number(&mut self) -> Result<u64, SyntaxFault>
        ensures { Reads (spec.read_number self.old) result self.new }
    {
        match self.rest {
            [] => Err(self.unexpected()),
            [t, rest @ ..] => match &t.kind {
                Kind::Number(number) => {
                    let number = *number;
                    self.rest = rest;
                    Ok(number)
                }
                _ => Err(self.unexpected()),
            },
        }
    }
}
