//! Reading patterns.

ghost use Rattle.std.specs.Prelude.{◌≡◌, [], suc, length};
ghost use Rattle.ft_grammar.specs.Forms as form;
ghost use Rattle.ft_grammar.specs.Rules.{pattern};
ghost use Rattle.ft_grammar.specs.Grammar as rule;
ghost use Rattle.ft_grammar.specs.Reading.{Reads, read, read_word, more_from, level};
ghost use Rattle.ft_parser.specs.Nests.{Nests};

use crate::cursor::Cursor;
use ft_base::Word;
use ft_grammar::{Mark, Pattern, SyntaxFault};
use sqlite_items::{Boxed, Items};
use std::alloc::Global;

// The rules for patterns take the reader of patterns one level deeper, so that each is proved by itself.
#[derive(Clone, Copy)]
pub struct Patterns<F> {
    alloc: Global,
    depth: usize,
    nested: F,
}

impl<F: Fn(Global, &mut Cursor<'_>, usize) -> Result<Pattern, SyntaxFault>> Patterns<F> {
    fn inner(&self, tokens: &mut Cursor<'_>) -> Result<Pattern, SyntaxFault>
        requires { Nests pattern self.now.depth (F.pre self.now.nested) (F.post self.now.nested) }
        ensures { Reads (level self.now.depth pattern tokens.old) result tokens.new }
    {
        (self.nested)(self.alloc, tokens, self.depth)
    }

    #[tactic(auto, unfolding(ft_grammar::specs::Grammar::parenthesized_pattern))]
    fn parenthesized_pattern(&self, tokens: &mut Cursor<'_>) -> Result<Pattern, SyntaxFault>
        requires { Nests pattern self.now.depth (F.pre self.now.nested) (F.post self.now.nested) }
        ensures { Reads (read (level self.now.depth) rule.parenthesized_pattern tokens.old) result tokens.new }
    {
        let at = tokens.start();
        tokens.expect_mark(Mark::LeftParen)?;
        if tokens.sees_mark(Mark::RightParen) {
            tokens.expect_mark(Mark::RightParen)?;
            return Ok(Pattern::Unit(at));
        }
        let first = self.inner(tokens)?;
        if tokens.sees_mark(Mark::Comma) {
            tokens.expect_mark(Mark::Comma)?;
            let second = self.inner(tokens)?;
            tokens.expect_mark(Mark::RightParen)?;
            Ok(Pattern::Pair(
                at,
                Boxed::new(self.alloc, first)?,
                Boxed::new(self.alloc, second)?,
            ))
        } else {
            tokens.expect_mark(Mark::RightParen)?;
            Ok(first)
        }
    }

    #[tactic(auto, unfolding(ft_grammar::specs::Grammar::atomic_pattern))]
    fn atomic_pattern(&self, tokens: &mut Cursor<'_>) -> Result<Pattern, SyntaxFault>
        requires { Nests pattern self.now.depth (F.pre self.now.nested) (F.post self.now.nested) }
        ensures { Reads (read (level self.now.depth) rule.atomic_pattern tokens.old) result tokens.new }
    {
        let at = tokens.start();
        if tokens.sees_name() {
            let found = tokens.name()?;
            Ok(Pattern::Name(at, found.name))
        } else if tokens.sees_mark(Mark::Underscore) {
            tokens.expect_mark(Mark::Underscore)?;
            Ok(Pattern::Wildcard(at))
        } else if tokens.sees_mark(Mark::LeftParen) {
            self.parenthesized_pattern(tokens)
        } else {
            word_pattern(tokens, at)
        }
    }

    #[tactic(auto, unfolding(ft_grammar::specs::Grammar::some_pattern))]
    fn some_pattern(&self, tokens: &mut Cursor<'_>) -> Result<Pattern, SyntaxFault>
        requires { Nests pattern self.now.depth (F.pre self.now.nested) (F.post self.now.nested) }
        ensures { Reads (read (level self.now.depth) rule.some_pattern tokens.old) result tokens.new }
    {
        let at = tokens.start();
        tokens.expect_word(Word::SomeWord)?;
        let inside = self.atomic_pattern(tokens)?;
        Ok(Pattern::SomeWord(at, Boxed::new(self.alloc, inside)?))
    }

    #[tactic(auto, unfolding(ft_grammar::specs::Reading::more_from))]
    fn atomic_patterns(&self, tokens: &mut Cursor<'_>) -> Result<Items<Pattern>, SyntaxFault>
        requires { Nests pattern self.now.depth (F.pre self.now.nested) (F.post self.now.nested) }
        ensures { Reads (more_from form.begins_pattern_atom (read (level self.now.depth) rule.atomic_pattern) (length tokens.old) [] tokens.old) result tokens.new }
    {
        let mut found = Items::new(self.alloc);
        for _turn in 0..tokens.left() {
            if !tokens.sees_pattern_atom() {
                return Ok(found);
            }
            found.push(self.atomic_pattern(tokens)?)?;
        }
        Ok(found)
    }

    #[tactic(auto, unfolding(ft_grammar::specs::Grammar::symbol_pattern))]
    fn symbol_pattern(&self, tokens: &mut Cursor<'_>) -> Result<Pattern, SyntaxFault>
        requires { Nests pattern self.now.depth (F.pre self.now.nested) (F.post self.now.nested) }
        ensures { Reads (read (level self.now.depth) rule.symbol_pattern tokens.old) result tokens.new }
    {
        let at = tokens.start();
        tokens.expect_mark(Mark::At)?;
        let name = tokens.name()?;
        let parts = self.atomic_patterns(tokens)?;
        Ok(Pattern::Symbol(at, name, parts))
    }

    #[tactic(auto, unfolding(ft_grammar::specs::Grammar::list_pattern))]
    fn list_pattern(&self, tokens: &mut Cursor<'_>) -> Result<Pattern, SyntaxFault>
        requires { Nests pattern self.now.depth (F.pre self.now.nested) (F.post self.now.nested) }
        ensures { Reads (read (level self.now.depth) rule.list_pattern tokens.old) result tokens.new }
    {
        let at = tokens.start();
        let first = self.atomic_pattern(tokens)?;
        if tokens.sees_mark(Mark::DoubleColon) {
            tokens.expect_mark(Mark::DoubleColon)?;
            let rest = self.inner(tokens)?;
            Ok(Pattern::Cons(
                at,
                Boxed::new(self.alloc, first)?,
                Boxed::new(self.alloc, rest)?,
            ))
        } else {
            Ok(first)
        }
    }

    #[tactic(auto, unfolding(ft_grammar::specs::Reading::level, ft_grammar::specs::Grammar::any_pattern))]
    fn level(&self, tokens: &mut Cursor<'_>) -> Result<Pattern, SyntaxFault>
        requires { Nests pattern self.now.depth (F.pre self.now.nested) (F.post self.now.nested) }
        ensures { Reads (level (suc self.now.depth) pattern tokens.old) result tokens.new }
    {
        if tokens.sees_word(Word::SomeWord) {
            self.some_pattern(tokens)
        } else if tokens.sees_mark(Mark::At) {
            self.symbol_pattern(tokens)
        } else {
            self.list_pattern(tokens)
        }
    }
}

// The pattern that a word is by itself.
#[tactic(auto, unfolding(ft_grammar::specs::Forms::word_pattern))]
fn word_pattern_of(at: u64, word: Word) -> Option<Pattern>
    ensures { result ≡ form.word_pattern at word }
{
    match word {
        Word::TrueWord => Some(Pattern::TrueWord(at)),
        Word::FalseWord => Some(Pattern::FalseWord(at)),
        Word::NoneWord => Some(Pattern::NoneWord(at)),
        Word::Nil => Some(Pattern::Nil(at)),
        _ => None,
    }
}

#[tactic(auto, using(crate::proofs::WordValues::word_there, crate::proofs::WordValues::no_word), unfolding(ft_grammar::specs::Reading::read_word))]
fn word_pattern(tokens: &mut Cursor<'_>, at: u64) -> Result<Pattern, SyntaxFault>
    ensures { Reads (read_word (form.word_pattern at) tokens.old) result tokens.new }
{
    match tokens.word() {
        Some(word) => tokens.past(word_pattern_of(at, word)),
        None => Err(tokens.unexpected()),
    }
}

/// A pattern that nests no deeper than `depth`.
pub fn nested_pattern(
    alloc: Global,
    tokens: &mut Cursor<'_>,
    depth: usize,
) -> Result<Pattern, SyntaxFault>
    ensures { Reads (level depth pattern tokens.old) result tokens.new }
{
    if depth == 0 {
        return Err(tokens.too_nested());
    }
    Patterns {
        alloc,
        depth: depth - 1,
        nested: nested_pattern,
    }
    .level(tokens)
}
