//! Where expressions begin.

ghost use Rattle.std.specs.Prelude.{◌≡◌};
ghost use Rattle.ft_meaning.specs.Trees.{form, place};

use ft_grammar::Ast;

/// Where an expression begins.
#[tactic(auto, using(crate::proofs::Rules::written_forms))]
pub fn place_of(e: &Ast) -> u64
    ensures { result ≡ place (form e.now) }
{
    match e {
        Ast::LetIn(at, ..) | Ast::If(at, ..) | Ast::Match(at, ..) | Ast::Handle(at, ..) => *at,
        Ast::Abstract(at, ..) | Ast::Cons(at, ..) | Ast::Refl(at, _) | Ast::Sym(at, _) => *at,
        Ast::Left(at, _) | Ast::Right(at, _) | Ast::Typeof(at, _) | Ast::Domain(at, _) => *at,
        Ast::Natural(at, _) | Ast::Normal(at, _) | Ast::Boundaryof(at, _) => *at,
        Ast::Trans(at, ..) | Ast::Convert(at, ..) | Ast::Equal(at, ..) => *at,
        Ast::Widen(at, ..) | Ast::Rewrite(at, ..) | Ast::Fill(at, ..) => *at,
        Ast::Argument(at, ..) | Ast::Congruence(at, ..) | Ast::Perform(at, ..) => *at,
        Ast::SomeWord(at, _) | Ast::Call(at, ..) | Ast::Subst(at, ..) => *at,
        Ast::TrueWord(at) | Ast::FalseWord(at) | Ast::Unit(at) => *at,
        Ast::Pair(at, ..) | Ast::NoneWord(at, _) | Ast::Nil(at, _) => *at,
    }
}
