//! Reading atoms among the expressions.

ghost use Rattle.std.specs.Prelude.{◌≡◌, length};
ghost use Rattle.ft_grammar.specs.declared.token.Mark.TheVariants.{LeftBrace};
ghost use Rattle.ft_grammar.specs.Forms as form;
ghost use Rattle.ft_grammar.specs.Rules.{expression, is_mark};
ghost use Rattle.ft_grammar.specs.Grammar as rule;
ghost use Rattle.ft_grammar.specs.Reading.{Reads, read, read_word, more_from, level};
ghost use Rattle.ft_parser.specs.Nests.{Nests};

use crate::cursor::Cursor;
use crate::expressions::{Expressions, keep, single};
use crate::types::nested_type;
use ft_base::Word;
use ft_grammar::{Ast, Mark, SyntaxFault};
use sqlite_items::{Boxed, Items};
use std::alloc::Global;

impl<F: Fn(Global, &mut Cursor<'_>, usize) -> Result<Boxed<Ast>, SyntaxFault>> Expressions<F> {
    #[tactic(auto, unfolding(ft_grammar::specs::Grammar::parenthesized))]
    fn parenthesized(&self, tokens: &mut Cursor<'_>) -> Result<Boxed<Ast>, SyntaxFault>
        requires { Nests expression self.now.depth (F.pre self.now.nested) (F.post self.now.nested) }
        ensures { Reads (read (level self.now.depth) rule.parenthesized tokens.old) result tokens.new }
    {
        let at = tokens.start();
        tokens.expect_mark(Mark::LeftParen)?;
        if tokens.sees_mark(Mark::RightParen) {
            tokens.expect_mark(Mark::RightParen)?;
            return Ok(Boxed::new(self.alloc, Ast::Unit(at))?);
        }
        let first = self.inner(tokens)?;
        if tokens.sees_mark(Mark::Comma) {
            tokens.expect_mark(Mark::Comma)?;
            let second = self.inner(tokens)?;
            tokens.expect_mark(Mark::RightParen)?;
            Ok(Boxed::new(self.alloc, Ast::Pair(at, first, second))?)
        } else {
            tokens.expect_mark(Mark::RightParen)?;
            Ok(first)
        }
    }

    #[tactic(auto, unfolding(ft_grammar::specs::Grammar::none_of))]
    fn none_of(&self, tokens: &mut Cursor<'_>) -> Result<Boxed<Ast>, SyntaxFault>
        ensures { Reads (read (level self.now.depth) rule.none_of tokens.old) result tokens.new }
    {
        let at = tokens.start();
        tokens.expect_word(Word::NoneWord)?;
        let item = nested_type(self.alloc, tokens, self.depth, false)?;
        Ok(Boxed::new(self.alloc, Ast::NoneWord(at, item))?)
    }

    #[tactic(auto, unfolding(ft_grammar::specs::Grammar::nil_of))]
    fn nil_of(&self, tokens: &mut Cursor<'_>) -> Result<Boxed<Ast>, SyntaxFault>
        ensures { Reads (read (level self.now.depth) rule.nil_of tokens.old) result tokens.new }
    {
        let at = tokens.start();
        tokens.expect_word(Word::Nil)?;
        let item = nested_type(self.alloc, tokens, self.depth, false)?;
        Ok(Boxed::new(self.alloc, Ast::Nil(at, item))?)
    }

    #[tactic(auto, unfolding(ft_grammar::specs::Grammar::base))]
    fn base(&self, tokens: &mut Cursor<'_>) -> Result<Boxed<Ast>, SyntaxFault>
        requires { Nests expression self.now.depth (F.pre self.now.nested) (F.post self.now.nested) }
        ensures { Reads (read (level self.now.depth) rule.base tokens.old) result tokens.new }
    {
        let at = tokens.start();
        if tokens.sees_name() {
            let name = tokens.name()?;
            let alone = Ast::Call(at, name, Items::new(self.alloc));
            Ok(Boxed::new(self.alloc, alone)?)
        } else if tokens.sees_mark(Mark::LeftParen) {
            self.parenthesized(tokens)
        } else if tokens.sees_word(Word::NoneWord) {
            self.none_of(tokens)
        } else if tokens.sees_word(Word::Nil) {
            self.nil_of(tokens)
        } else {
            let found = word_expression(tokens, at)?;
            Ok(Boxed::new(self.alloc, found)?)
        }
    }

    #[tactic(auto, unfolding(ft_grammar::specs::Grammar::brace))]
    fn brace(&self, tokens: &mut Cursor<'_>) -> Result<Boxed<Ast>, SyntaxFault>
        requires { Nests expression self.now.depth (F.pre self.now.nested) (F.post self.now.nested) }
        ensures { Reads (read (level self.now.depth) rule.brace tokens.old) result tokens.new }
    {
        tokens.expect_mark(Mark::LeftBrace)?;
        let inside = self.inner(tokens)?;
        tokens.expect_mark(Mark::RightBrace)?;
        Ok(inside)
    }

    // The braces that follow those that were found.
    #[tactic(auto, using(crate::proofs::MoreTurns::more_stops, crate::proofs::MoreTurns::more_ends, crate::proofs::MoreTurns::more_goes, crate::proofs::MoreTurns::more_fails))]
    fn more_braces(
        &self,
        tokens: &mut Cursor<'_>,
        mut found: Items<Ast>,
    ) -> Result<Items<Ast>, SyntaxFault>
        requires { Nests expression self.now.depth (F.pre self.now.nested) (F.post self.now.nested) }
        ensures { Reads (more_from (is_mark LeftBrace) (read (level self.now.depth) rule.brace) (length tokens.old) found tokens.old) result tokens.new }
    {
        for _turn in 0..tokens.left() {
            if !tokens.sees_mark(Mark::LeftBrace) {
                return Ok(found);
            }
            keep(&mut found, self.brace(tokens)?)?;
        }
        Ok(found)
    }

    /// The braces after an expression that begins at the place.
    #[tactic(auto, unfolding(ft_grammar::specs::Grammar::braces))]
    pub fn braces(
        &self,
        tokens: &mut Cursor<'_>,
        at: u64,
        before: Boxed<Ast>,
    ) -> Result<Boxed<Ast>, SyntaxFault>
        requires { Nests expression self.now.depth (F.pre self.now.nested) (F.post self.now.nested) }
        ensures { Reads (read (level self.now.depth) (rule.braces at before) tokens.old) result tokens.new }
    {
        let first = self.brace(tokens)?;
        let found = single(self.alloc, first.into_inner())?;
        let all = self.more_braces(tokens, found)?;
        Ok(Boxed::new(self.alloc, Ast::Subst(at, before, all))?)
    }

    #[tactic(auto, unfolding(ft_grammar::specs::Grammar::atom))]
    pub fn atom(&self, tokens: &mut Cursor<'_>) -> Result<Boxed<Ast>, SyntaxFault>
        requires { Nests expression self.now.depth (F.pre self.now.nested) (F.post self.now.nested) }
        ensures { Reads (read (level self.now.depth) rule.atom tokens.old) result tokens.new }
    {
        let at = tokens.start();
        let found = self.base(tokens)?;
        if tokens.sees_mark(Mark::LeftBrace) {
            self.braces(tokens, at, found)
        } else {
            Ok(found)
        }
    }
}

// The expression that a word is by itself.
#[tactic(auto, unfolding(ft_grammar::specs::Forms::word_expression))]
fn word_expression_of(at: u64, word: Word) -> Option<Ast>
    ensures { result ≡ form.word_expression at word }
{
    match word {
        Word::TrueWord => Some(Ast::TrueWord(at)),
        Word::FalseWord => Some(Ast::FalseWord(at)),
        _ => None,
    }
}

#[tactic(auto, using(crate::proofs::WordValues::word_there, crate::proofs::WordValues::no_word), unfolding(ft_grammar::specs::Reading::read_word))]
fn word_expression(tokens: &mut Cursor<'_>, at: u64) -> Result<Ast, SyntaxFault>
    ensures { Reads (read_word (form.word_expression at) tokens.old) result tokens.new }
{
    match tokens.word() {
        Some(word) => tokens.past(word_expression_of(at, word)),
        None => Err(tokens.unexpected()),
    }
}
