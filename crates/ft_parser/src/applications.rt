//! Reading applications.

ghost use Rattle.std.specs.Prelude.{◌≡◌, [], length};
ghost use Rattle.ft_grammar.specs.Forms as form;
ghost use Rattle.ft_grammar.specs.Rules.{expression};
ghost use Rattle.ft_grammar.specs.Grammar as rule;
ghost use Rattle.ft_grammar.specs.Reading.{Reads, read, read_word, more_from, level};
ghost use Rattle.ft_parser.specs.Nests.{Nests};

use crate::cursor::Cursor;
use crate::expressions::{Expressions, keep};
use crate::form;
use ft_base::Word;
use ft_grammar::{Ast, Mark, OneForm, SyntaxFault, TwoForm};
use sqlite_items::{Boxed, Items};
use std::alloc::Global;

impl<F: Fn(Global, &mut Cursor<'_>, usize) -> Result<Boxed<Ast>, SyntaxFault>> Expressions<F> {
    #[tactic(auto, using(crate::proofs::MoreTurns::more_stops, crate::proofs::MoreTurns::more_ends, crate::proofs::MoreTurns::more_goes, crate::proofs::MoreTurns::more_fails))]
    fn atoms(&self, tokens: &mut Cursor<'_>) -> Result<Items<Ast>, SyntaxFault>
        requires { Nests expression self.now.depth (F.pre self.now.nested) (F.post self.now.nested) }
        ensures { Reads (more_from form.begins_atom (read (level self.now.depth) rule.atom) (length tokens.old) [] tokens.old) result tokens.new }
    {
        let mut found = Items::new(self.alloc);
        for _turn in 0..tokens.left() {
            if !tokens.sees_atom() {
                return Ok(found);
            }
            keep(&mut found, self.atom(tokens)?)?;
        }
        Ok(found)
    }

    #[tactic(auto, unfolding(ft_grammar::specs::Grammar::call))]
    fn call(&self, tokens: &mut Cursor<'_>) -> Result<Boxed<Ast>, SyntaxFault>
        requires { Nests expression self.now.depth (F.pre self.now.nested) (F.post self.now.nested) }
        ensures { Reads (read (level self.now.depth) rule.call tokens.old) result tokens.new }
    {
        let at = tokens.start();
        let name = tokens.name()?;
        if tokens.sees_mark(Mark::LeftBrace) {
            let alone = Ast::Call(at, name, Items::new(self.alloc));
            let alone = Boxed::new(self.alloc, alone)?;
            self.braces(tokens, at, alone)
        } else {
            let found = self.atoms(tokens)?;
            Ok(Boxed::new(self.alloc, Ast::Call(at, name, found))?)
        }
    }

    #[tactic(auto, unfolding(ft_grammar::specs::Grammar::one_part))]
    fn one_part(&self, tokens: &mut Cursor<'_>) -> Result<Boxed<Ast>, SyntaxFault>
        requires { Nests expression self.now.depth (F.pre self.now.nested) (F.post self.now.nested) }
        ensures { Reads (read (level self.now.depth) rule.one_part tokens.old) result tokens.new }
    {
        let at = tokens.start();
        let form = one_form(tokens)?;
        let part = self.atom(tokens)?;
        Ok(Boxed::new(self.alloc, form::one_tree(form, at, part))?)
    }

    #[tactic(auto, unfolding(ft_grammar::specs::Grammar::two_parts))]
    fn two_parts(&self, tokens: &mut Cursor<'_>) -> Result<Boxed<Ast>, SyntaxFault>
        requires { Nests expression self.now.depth (F.pre self.now.nested) (F.post self.now.nested) }
        ensures { Reads (read (level self.now.depth) rule.two_parts tokens.old) result tokens.new }
    {
        let at = tokens.start();
        let form = two_form(tokens)?;
        let first = self.atom(tokens)?;
        let second = self.atom(tokens)?;
        Ok(Boxed::new(self.alloc, form::two_tree(form, at, first, second))?)
    }

    #[tactic(auto, unfolding(ft_grammar::specs::Grammar::argument))]
    fn argument(&self, tokens: &mut Cursor<'_>) -> Result<Boxed<Ast>, SyntaxFault>
        requires { Nests expression self.now.depth (F.pre self.now.nested) (F.post self.now.nested) }
        ensures { Reads (read (level self.now.depth) rule.argument tokens.old) result tokens.new }
    {
        let at = tokens.start();
        tokens.expect_word(Word::Argument)?;
        let whole = self.atom(tokens)?;
        let number = tokens.number()?;
        Ok(Boxed::new(self.alloc, Ast::Argument(at, whole, number))?)
    }

    #[tactic(auto, unfolding(ft_grammar::specs::Grammar::congruence))]
    fn congruence(&self, tokens: &mut Cursor<'_>) -> Result<Boxed<Ast>, SyntaxFault>
        requires { Nests expression self.now.depth (F.pre self.now.nested) (F.post self.now.nested) }
        ensures { Reads (read (level self.now.depth) rule.congruence tokens.old) result tokens.new }
    {
        let at = tokens.start();
        tokens.expect_word(Word::Congruence)?;
        let name = tokens.name()?;
        let left = self.atom(tokens)?;
        let right = self.atom(tokens)?;
        Ok(Boxed::new(self.alloc, Ast::Congruence(at, name, left, right))?)
    }

    #[tactic(auto, unfolding(ft_grammar::specs::Grammar::perform))]
    fn perform(&self, tokens: &mut Cursor<'_>) -> Result<Boxed<Ast>, SyntaxFault>
        requires { Nests expression self.now.depth (F.pre self.now.nested) (F.post self.now.nested) }
        ensures { Reads (read (level self.now.depth) rule.perform tokens.old) result tokens.new }
    {
        let at = tokens.start();
        tokens.expect_word(Word::Perform)?;
        let name = tokens.name()?;
        let given = self.atom(tokens)?;
        Ok(Boxed::new(self.alloc, Ast::Perform(at, name, given))?)
    }

    #[tactic(auto, unfolding(ft_grammar::specs::Grammar::application))]
    pub fn application(&self, tokens: &mut Cursor<'_>) -> Result<Boxed<Ast>, SyntaxFault>
        requires { Nests expression self.now.depth (F.pre self.now.nested) (F.post self.now.nested) }
        ensures { Reads (read (level self.now.depth) rule.application tokens.old) result tokens.new }
    {
        if tokens.sees_name() {
            self.call(tokens)
        } else if tokens.sees_one_form() {
            self.one_part(tokens)
        } else if tokens.sees_two_form() {
            self.two_parts(tokens)
        } else if tokens.sees_word(Word::Argument) {
            self.argument(tokens)
        } else if tokens.sees_word(Word::Congruence) {
            self.congruence(tokens)
        } else if tokens.sees_word(Word::Perform) {
            self.perform(tokens)
        } else {
            self.atom(tokens)
        }
    }
}

#[tactic(auto, using(crate::proofs::WordValues::word_there, crate::proofs::WordValues::no_word), unfolding(ft_grammar::specs::Reading::read_word))]
fn one_form(tokens: &mut Cursor<'_>) -> Result<OneForm, SyntaxFault>
    ensures { Reads (read_word form.one_form tokens.old) result tokens.new }
{
    match tokens.word() {
        Some(word) => tokens.past(form::one_form(word)),
        None => Err(tokens.unexpected()),
    }
}

#[tactic(auto, using(crate::proofs::WordValues::word_there, crate::proofs::WordValues::no_word), unfolding(ft_grammar::specs::Reading::read_word))]
fn two_form(tokens: &mut Cursor<'_>) -> Result<TwoForm, SyntaxFault>
    ensures { Reads (read_word form.two_form tokens.old) result tokens.new }
{
    match tokens.word() {
        Some(word) => tokens.past(form::two_form(word)),
        None => Err(tokens.unexpected()),
    }
}
