//! Reading expressions with cases.

ghost use Rattle.std.specs.Prelude.{◌≡◌, length};
ghost use Rattle.ft_grammar.specs.declared.token.Mark.TheVariants.{Bar};
ghost use Rattle.ft_grammar.specs.Rules.{expression, is_mark};
ghost use Rattle.ft_grammar.specs.Grammar as rule;
ghost use Rattle.ft_grammar.specs.Reading.{Reads, read, more_from, level};
ghost use Rattle.ft_parser.specs.Nests.{Nests};

use crate::cursor::Cursor;
use crate::expressions::{Expressions, single};
use crate::patterns::nested_pattern;
use ft_base::Word;
use ft_grammar::{Ast, Case, Mark, OpCase, SyntaxFault, ValCase};
use sqlite_items::{Boxed, Items};
use std::alloc::Global;

impl<F: Fn(Global, &mut Cursor<'_>, usize) -> Result<Boxed<Ast>, SyntaxFault>> Expressions<F> {
    #[tactic(auto, unfolding(ft_grammar::specs::Grammar::case))]
    fn case(&self, tokens: &mut Cursor<'_>) -> Result<Case, SyntaxFault>
        requires { Nests expression self.now.depth (F.pre self.now.nested) (F.post self.now.nested) }
        ensures { Reads (read (level self.now.depth) rule.case tokens.old) result tokens.new }
    {
        let at = tokens.start();
        tokens.expect_mark(Mark::Bar)?;
        let pattern = nested_pattern(self.alloc, tokens, self.depth)?;
        tokens.expect_mark(Mark::Arrow)?;
        let body = self.inner(tokens)?;
        Ok(Case { at, pattern, body })
    }

    // The cases that follow those that were found.
    #[tactic(auto, using(crate::proofs::MoreTurns::more_stops, crate::proofs::MoreTurns::more_ends, crate::proofs::MoreTurns::more_goes, crate::proofs::MoreTurns::more_fails))]
    fn more_cases(
        &self,
        tokens: &mut Cursor<'_>,
        mut found: Items<Case>,
    ) -> Result<Items<Case>, SyntaxFault>
        requires { Nests expression self.now.depth (F.pre self.now.nested) (F.post self.now.nested) }
        ensures { Reads (more_from (is_mark Bar) (read (level self.now.depth) rule.case) (length tokens.old) found tokens.old) result tokens.new }
    {
        for _turn in 0..tokens.left() {
            if !tokens.sees_mark(Mark::Bar) {
                return Ok(found);
            }
            found.push(self.case(tokens)?)?;
        }
        Ok(found)
    }

    #[tactic(auto, unfolding(ft_grammar::specs::Grammar::match_with))]
    pub fn match_with(&self, tokens: &mut Cursor<'_>) -> Result<Boxed<Ast>, SyntaxFault>
        requires { Nests expression self.now.depth (F.pre self.now.nested) (F.post self.now.nested) }
        ensures { Reads (read (level self.now.depth) rule.match_with tokens.old) result tokens.new }
    {
        let at = tokens.start();
        tokens.expect_word(Word::Match)?;
        let matched = self.inner(tokens)?;
        tokens.expect_word(Word::With)?;
        let first = single(self.alloc, self.case(tokens)?)?;
        let cases = self.more_cases(tokens, first)?;
        tokens.expect_word(Word::End)?;
        Ok(Boxed::new(self.alloc, Ast::Match(at, matched, cases))?)
    }

    // A case for an operation, after its bar.
    #[tactic(auto, unfolding(ft_grammar::specs::Grammar::operation_body))]
    fn operation_body(&self, tokens: &mut Cursor<'_>, at: u64) -> Result<OpCase, SyntaxFault>
        requires { Nests expression self.now.depth (F.pre self.now.nested) (F.post self.now.nested) }
        ensures { Reads (read (level self.now.depth) (rule.operation_body at) tokens.old) result tokens.new }
    {
        let operation = tokens.name()?;
        let argument = tokens.name()?;
        tokens.expect_mark(Mark::Arrow)?;
        let body = self.inner(tokens)?;
        Ok(OpCase {
            at,
            operation,
            argument,
            body,
        })
    }

    #[tactic(auto, unfolding(ft_grammar::specs::Grammar::operation_case))]
    fn operation_case(&self, tokens: &mut Cursor<'_>) -> Result<OpCase, SyntaxFault>
        requires { Nests expression self.now.depth (F.pre self.now.nested) (F.post self.now.nested) }
        ensures { Reads (read (level self.now.depth) rule.operation_case tokens.old) result tokens.new }
    {
        let at = tokens.start();
        tokens.expect_mark(Mark::Bar)?;
        self.operation_body(tokens, at)
    }

    // The cases for operations that follow those that were found.
    #[tactic(auto, using(crate::proofs::MoreTurns::more_stops, crate::proofs::MoreTurns::more_ends, crate::proofs::MoreTurns::more_goes, crate::proofs::MoreTurns::more_fails))]
    fn more_operation_cases(
        &self,
        tokens: &mut Cursor<'_>,
        mut found: Items<OpCase>,
    ) -> Result<Items<OpCase>, SyntaxFault>
        requires { Nests expression self.now.depth (F.pre self.now.nested) (F.post self.now.nested) }
        ensures { Reads (more_from (is_mark Bar) (read (level self.now.depth) rule.operation_case) (length tokens.old) found tokens.old) result tokens.new }
    {
        for _turn in 0..tokens.left() {
            if !tokens.sees_mark(Mark::Bar) {
                return Ok(found);
            }
            found.push(self.operation_case(tokens)?)?;
        }
        Ok(found)
    }

    // The case for the value, after its bar.
    #[tactic(auto, unfolding(ft_grammar::specs::Grammar::value_body))]
    fn value_body(&self, tokens: &mut Cursor<'_>, at: u64) -> Result<ValCase, SyntaxFault>
        requires { Nests expression self.now.depth (F.pre self.now.nested) (F.post self.now.nested) }
        ensures { Reads (read (level self.now.depth) (rule.value_body at) tokens.old) result tokens.new }
    {
        tokens.expect_word(Word::Val)?;
        let name = tokens.name()?;
        tokens.expect_mark(Mark::Arrow)?;
        let body = self.inner(tokens)?;
        Ok(ValCase { at, name, body })
    }

    // The cases of a handle: the first one may be that for the value.
    #[tactic(auto, unfolding(ft_grammar::specs::Grammar::handle_cases))]
    fn handle_cases(
        &self,
        tokens: &mut Cursor<'_>,
    ) -> Result<(Option<ValCase>, Items<OpCase>), SyntaxFault>
        requires { Nests expression self.now.depth (F.pre self.now.nested) (F.post self.now.nested) }
        ensures { Reads (read (level self.now.depth) rule.handle_cases tokens.old) result tokens.new }
    {
        if !tokens.sees_mark(Mark::Bar) {
            return Ok((None, Items::new(self.alloc)));
        }
        let at = tokens.start();
        tokens.expect_mark(Mark::Bar)?;
        if tokens.sees_word(Word::Val) {
            let value = self.value_body(tokens, at)?;
            let operations = self.more_operation_cases(tokens, Items::new(self.alloc))?;
            Ok((Some(value), operations))
        } else {
            let first = single(self.alloc, self.operation_body(tokens, at)?)?;
            let operations = self.more_operation_cases(tokens, first)?;
            Ok((None, operations))
        }
    }

    #[tactic(auto, unfolding(ft_grammar::specs::Grammar::handle_with))]
    pub fn handle_with(&self, tokens: &mut Cursor<'_>) -> Result<Boxed<Ast>, SyntaxFault>
        requires { Nests expression self.now.depth (F.pre self.now.nested) (F.post self.now.nested) }
        ensures { Reads (read (level self.now.depth) rule.handle_with tokens.old) result tokens.new }
    {
        let at = tokens.start();
        tokens.expect_word(Word::Handle)?;
        let handled = self.inner(tokens)?;
        tokens.expect_word(Word::With)?;
        let (value, operations) = self.handle_cases(tokens)?;
        tokens.expect_word(Word::End)?;
        Ok(Boxed::new(self.alloc, Ast::Handle(at, handled, value, operations))?)
    }
}
