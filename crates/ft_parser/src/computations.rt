//! Reading expressions.

ghost use Rattle.std.specs.Prelude.{◌≡◌, suc};
ghost use Rattle.ft_grammar.specs.Rules.{expression};
ghost use Rattle.ft_grammar.specs.Grammar as rule;
ghost use Rattle.ft_grammar.specs.Reading.{Reads, read, level};
ghost use Rattle.ft_parser.specs.Nests.{Nests};

use crate::cursor::Cursor;
use crate::expressions::Expressions;
use ft_base::Word;
use ft_grammar::{Ast, Mark, SyntaxFault};
use sqlite_items::Boxed;
use std::alloc::Global;

impl<F: Fn(Global, &mut Cursor<'_>, usize) -> Result<Boxed<Ast>, SyntaxFault>> Expressions<F> {
    #[tactic(auto, unfolding(ft_grammar::specs::Grammar::list_expression))]
    fn list_expression(&self, tokens: &mut Cursor<'_>) -> Result<Boxed<Ast>, SyntaxFault>
        requires { Nests expression self.now.depth (F.pre self.now.nested) (F.post self.now.nested) }
        ensures { Reads (read (level self.now.depth) rule.list_expression tokens.old) result tokens.new }
    {
        let at = tokens.start();
        let first = self.application(tokens)?;
        if tokens.sees_mark(Mark::DoubleColon) {
            tokens.expect_mark(Mark::DoubleColon)?;
            let rest = self.inner(tokens)?;
            Ok(Boxed::new(self.alloc, Ast::Cons(at, first, rest))?)
        } else {
            Ok(first)
        }
    }

    #[tactic(auto, unfolding(ft_grammar::specs::Grammar::let_in))]
    fn let_in(&self, tokens: &mut Cursor<'_>) -> Result<Boxed<Ast>, SyntaxFault>
        requires { Nests expression self.now.depth (F.pre self.now.nested) (F.post self.now.nested) }
        ensures { Reads (read (level self.now.depth) rule.let_in tokens.old) result tokens.new }
    {
        let at = tokens.start();
        tokens.expect_word(Word::Let)?;
        let name = tokens.name()?;
        tokens.expect_mark(Mark::Equals)?;
        let value = self.inner(tokens)?;
        tokens.expect_word(Word::In)?;
        let body = self.inner(tokens)?;
        Ok(Boxed::new(self.alloc, Ast::LetIn(at, name, value, body))?)
    }

    #[tactic(auto, unfolding(ft_grammar::specs::Grammar::if_then_else))]
    fn if_then_else(&self, tokens: &mut Cursor<'_>) -> Result<Boxed<Ast>, SyntaxFault>
        requires { Nests expression self.now.depth (F.pre self.now.nested) (F.post self.now.nested) }
        ensures { Reads (read (level self.now.depth) rule.if_then_else tokens.old) result tokens.new }
    {
        let at = tokens.start();
        tokens.expect_word(Word::If)?;
        let test = self.inner(tokens)?;
        tokens.expect_word(Word::Then)?;
        let then_part = self.inner(tokens)?;
        tokens.expect_word(Word::Else)?;
        let else_part = self.inner(tokens)?;
        Ok(Boxed::new(self.alloc, Ast::If(at, test, then_part, else_part))?)
    }

    #[tactic(auto, unfolding(ft_grammar::specs::Grammar::abstraction))]
    fn abstraction(&self, tokens: &mut Cursor<'_>) -> Result<Boxed<Ast>, SyntaxFault>
        requires { Nests expression self.now.depth (F.pre self.now.nested) (F.post self.now.nested) }
        ensures { Reads (read (level self.now.depth) rule.abstraction tokens.old) result tokens.new }
    {
        let at = tokens.start();
        tokens.expect_mark(Mark::LeftBrace)?;
        let name = tokens.name()?;
        tokens.expect_mark(Mark::Colon)?;
        let domain = self.inner(tokens)?;
        tokens.expect_mark(Mark::RightBrace)?;
        let body = self.inner(tokens)?;
        Ok(Boxed::new(self.alloc, Ast::Abstract(at, name, domain, body))?)
    }

    #[tactic(auto, unfolding(ft_grammar::specs::Reading::level, ft_grammar::specs::Grammar::any_expression))]
    fn level(&self, tokens: &mut Cursor<'_>) -> Result<Boxed<Ast>, SyntaxFault>
        requires { Nests expression self.now.depth (F.pre self.now.nested) (F.post self.now.nested) }
        ensures { Reads (level (suc self.now.depth) expression tokens.old) result tokens.new }
    {
        if tokens.sees_word(Word::Let) {
            self.let_in(tokens)
        } else if tokens.sees_word(Word::If) {
            self.if_then_else(tokens)
        } else if tokens.sees_word(Word::Match) {
            self.match_with(tokens)
        } else if tokens.sees_word(Word::Handle) {
            self.handle_with(tokens)
        } else if tokens.sees_mark(Mark::LeftBrace) {
            self.abstraction(tokens)
        } else {
            self.list_expression(tokens)
        }
    }
}

/// An expression that nests no deeper than `depth`.
pub fn nested_expression(
    alloc: Global,
    tokens: &mut Cursor<'_>,
    depth: usize,
) -> Result<Boxed<Ast>, SyntaxFault>
    ensures { Reads (level depth expression tokens.old) result tokens.new }
{
    if depth == 0 {
        return Err(tokens.too_nested());
    }
    Expressions {
        alloc,
        depth: depth - 1,
        nested: nested_expression,
    }
    .level(tokens)
}
