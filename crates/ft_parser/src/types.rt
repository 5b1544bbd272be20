//! Reading types.

ghost use Rattle.std.specs.Prelude.{◌≡◌, suc};
ghost use Rattle.ft_grammar.specs.Forms as form;
ghost use Rattle.ft_grammar.specs.Rules.{type, type_atom};
ghost use Rattle.ft_grammar.specs.Grammar as rule;
ghost use Rattle.ft_grammar.specs.Reading.{Reads, read, read_word, level, type_level};
ghost use Rattle.ft_parser.specs.Nests.{NestsTypes};

use crate::cursor::Cursor;
use ft_base::Word;
use ft_grammar::{AmlType, Mark, SyntaxFault};
use sqlite_items::Boxed;
use std::alloc::Global;

// The rules for types take the reader of types one level deeper, so that each is proved by itself.
#[derive(Clone, Copy)]
pub struct Types<F> {
    alloc: Global,
    depth: usize,
    nested: F,
}

impl<F: Fn(Global, &mut Cursor<'_>, usize, bool) -> Result<AmlType, SyntaxFault>> Types<F> {
    fn inner(&self, tokens: &mut Cursor<'_>, product: bool) -> Result<AmlType, SyntaxFault>
        requires { NestsTypes self.now.depth (F.pre self.now.nested) (F.post self.now.nested) }
        ensures { Reads (type_level self.now.depth product tokens.old) result tokens.new }
    {
        (self.nested)(self.alloc, tokens, self.depth, product)
    }

    #[tactic(auto, unfolding(ft_grammar::specs::Grammar::list_type))]
    fn list_type(&self, tokens: &mut Cursor<'_>) -> Result<AmlType, SyntaxFault>
        requires { NestsTypes self.now.depth (F.pre self.now.nested) (F.post self.now.nested) }
        ensures { Reads (read (level self.now.depth) rule.list_type tokens.old) result tokens.new }
    {
        tokens.expect_word(Word::List)?;
        let item = self.inner(tokens, false)?;
        Ok(AmlType::List(Boxed::new(self.alloc, item)?))
    }

    #[tactic(auto, unfolding(ft_grammar::specs::Grammar::option_type))]
    fn option_type(&self, tokens: &mut Cursor<'_>) -> Result<AmlType, SyntaxFault>
        requires { NestsTypes self.now.depth (F.pre self.now.nested) (F.post self.now.nested) }
        ensures { Reads (read (level self.now.depth) rule.option_type tokens.old) result tokens.new }
    {
        tokens.expect_word(Word::Option)?;
        let item = self.inner(tokens, false)?;
        Ok(AmlType::Opt(Boxed::new(self.alloc, item)?))
    }

    #[tactic(auto, unfolding(ft_grammar::specs::Grammar::parenthesized_type))]
    fn parenthesized_type(&self, tokens: &mut Cursor<'_>) -> Result<AmlType, SyntaxFault>
        requires { NestsTypes self.now.depth (F.pre self.now.nested) (F.post self.now.nested) }
        ensures { Reads (read (level self.now.depth) rule.parenthesized_type tokens.old) result tokens.new }
    {
        tokens.expect_mark(Mark::LeftParen)?;
        let inside = self.inner(tokens, true)?;
        tokens.expect_mark(Mark::RightParen)?;
        Ok(inside)
    }

    #[tactic(auto, unfolding(ft_grammar::specs::Grammar::atomic_type))]
    fn atomic_type(&self, tokens: &mut Cursor<'_>) -> Result<AmlType, SyntaxFault>
        requires { NestsTypes self.now.depth (F.pre self.now.nested) (F.post self.now.nested) }
        ensures { Reads (read (level self.now.depth) rule.atomic_type tokens.old) result tokens.new }
    {
        if tokens.sees_word(Word::List) {
            self.list_type(tokens)
        } else if tokens.sees_word(Word::Option) {
            self.option_type(tokens)
        } else if tokens.sees_mark(Mark::LeftParen) {
            self.parenthesized_type(tokens)
        } else {
            plain_type(tokens)
        }
    }

    #[tactic(auto, unfolding(ft_grammar::specs::Grammar::any_type))]
    fn any_type(&self, tokens: &mut Cursor<'_>) -> Result<AmlType, SyntaxFault>
        requires { NestsTypes self.now.depth (F.pre self.now.nested) (F.post self.now.nested) }
        ensures { Reads (read (level self.now.depth) rule.any_type tokens.old) result tokens.new }
    {
        let first = self.atomic_type(tokens)?;
        if tokens.sees_mark(Mark::Star) {
            tokens.expect_mark(Mark::Star)?;
            let second = self.inner(tokens, true)?;
            Ok(AmlType::Pair(
                Boxed::new(self.alloc, first)?,
                Boxed::new(self.alloc, second)?,
            ))
        } else {
            Ok(first)
        }
    }

    #[tactic(auto, unfolding(ft_grammar::specs::Reading::level))]
    fn level(&self, tokens: &mut Cursor<'_>, product: bool) -> Result<AmlType, SyntaxFault>
        requires { NestsTypes self.now.depth (F.pre self.now.nested) (F.post self.now.nested) }
        ensures { Reads (type_level (suc self.now.depth) product tokens.old) result tokens.new }
    {
        if product {
            self.any_type(tokens)
        } else {
            self.atomic_type(tokens)
        }
    }
}

// The type that a word is by itself.
#[tactic(auto, unfolding(ft_grammar::specs::Forms::plain_type))]
fn plain_type_of(word: Word) -> Option<AmlType>
    ensures { result ≡ form.plain_type word }
{
    match word {
        Word::Judgement => Some(AmlType::Judgement),
        Word::Boundary => Some(AmlType::Boundary),
        Word::Unit => Some(AmlType::Unit),
        Word::Bool => Some(AmlType::Bool),
        _ => None,
    }
}

#[tactic(auto, using(crate::proofs::WordValues::word_there, crate::proofs::WordValues::no_word), unfolding(ft_grammar::specs::Reading::read_word))]
fn plain_type(tokens: &mut Cursor<'_>) -> Result<AmlType, SyntaxFault>
    ensures { Reads (read_word form.plain_type tokens.old) result tokens.new }
{
    match tokens.word() {
        Some(word) => tokens.past(plain_type_of(word)),
        None => Err(tokens.unexpected()),
    }
}

/// A type, with a product or without, that nests no deeper than `depth`.
pub fn nested_type(
    alloc: Global,
    tokens: &mut Cursor<'_>,
    depth: usize,
    product: bool,
) -> Result<AmlType, SyntaxFault>
    ensures { Reads (type_level depth product tokens.old) result tokens.new }
{
    if depth == 0 {
        return Err(tokens.too_nested());
    }
    Types {
        alloc,
        depth: depth - 1,
        nested: nested_type,
    }
    .level(tokens, product)
}
