//! The words that stand before atoms.

ghost use Rattle.std.specs.Prelude.{◌≡◌};
ghost use Rattle.ft_grammar.specs.Forms as spec;

use ft_base::Word;
use ft_grammar::{Ast, OneForm, TwoForm};
use sqlite_items::Boxed;

/// The word before one atom that a word is.
#[tactic(auto, unfolding(ft_grammar::specs::Forms::one_form))]
pub fn one_form(word: Word) -> Option<OneForm>
    ensures { result ≡ spec.one_form word }
{
    match word {
        Word::Refl => Some(OneForm::Refl),
        Word::Sym => Some(OneForm::Sym),
        Word::Left => Some(OneForm::Left),
        Word::Right => Some(OneForm::Right),
        Word::Typeof => Some(OneForm::Typeof),
        Word::Domain => Some(OneForm::Domain),
        Word::Natural => Some(OneForm::Natural),
        Word::Normal => Some(OneForm::Normal),
        Word::Boundaryof => Some(OneForm::Boundaryof),
        Word::SomeWord => Some(OneForm::SomeWord),
        _ => None,
    }
}

/// The word with its atom.
#[tactic(auto, unfolding(ft_grammar::specs::Forms::one_tree))]
pub fn one_tree(form: OneForm, at: u64, e: Boxed<Ast>) -> Ast
    ensures { result ≡ spec.one_tree form at e }
{
    match form {
        OneForm::Refl => Ast::Refl(at, e),
        OneForm::Sym => Ast::Sym(at, e),
        OneForm::Left => Ast::Left(at, e),
        OneForm::Right => Ast::Right(at, e),
        OneForm::Typeof => Ast::Typeof(at, e),
        OneForm::Domain => Ast::Domain(at, e),
        OneForm::Natural => Ast::Natural(at, e),
        OneForm::Normal => Ast::Normal(at, e),
        OneForm::Boundaryof => Ast::Boundaryof(at, e),
        OneForm::SomeWord => Ast::SomeWord(at, e),
    }
}

/// The word before two atoms that a word is.
#[tactic(auto, unfolding(ft_grammar::specs::Forms::two_form))]
pub fn two_form(word: Word) -> Option<TwoForm>
    ensures { result ≡ spec.two_form word }
{
    match word {
        Word::Trans => Some(TwoForm::Trans),
        Word::Convert => Some(TwoForm::Convert),
        Word::Equal => Some(TwoForm::Equal),
        Word::Widen => Some(TwoForm::Widen),
        Word::Rewrite => Some(TwoForm::Rewrite),
        Word::Fill => Some(TwoForm::Fill),
        _ => None,
    }
}

/// The word with its atoms.
#[tactic(auto, unfolding(ft_grammar::specs::Forms::two_tree))]
pub fn two_tree(form: TwoForm, at: u64, d: Boxed<Ast>, e: Boxed<Ast>) -> Ast
    ensures { result ≡ spec.two_tree form at d e }
{
    match form {
        TwoForm::Trans => Ast::Trans(at, d, e),
        TwoForm::Convert => Ast::Convert(at, d, e),
        TwoForm::Equal => Ast::Equal(at, d, e),
        TwoForm::Widen => Ast::Widen(at, d, e),
        TwoForm::Rewrite => Ast::Rewrite(at, d, e),
        TwoForm::Fill => Ast::Fill(at, d, e),
    }
}
