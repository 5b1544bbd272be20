//! The first part of an expression that asks the equality checker, in the order of the text.

ghost use Rattle.std.specs.Prelude.{◌≡◌, ◌++◌, [], map, Some};
ghost use Rattle.ft_meaning.specs.Trees.{form, forms, cases, handlers, value_case_of};
ghost use Rattle.ft_meaning.specs.Stages.{parts, all_parts, case_parts};
ghost use Rattle.ft_meaning.specs.Stages.{value_parts, handler_parts};
ghost use Rattle.ft_meaning.proofs.Written.{case, handler, value};
ghost use Rattle.ft_stages.specs.First.{first};

use ft_grammar::{Ast, Case, OpCase, ValCase};

/// The place of the first `normal` or `equal` in an expression.
#[cycle(looking)]
#[tactic(auto, using(crate::proofs::Rules::written_forms))]
pub fn first_in(e: &Ast) -> Option<u64>
    ensures { result ≡ first (parts [] (form e.now)) }
{
    match e {
        Ast::LetIn(_, _, e, f) => in_two(e.get(), f.get()),
        Ast::If(_, e, f, g) => in_three(e.get(), f.get(), g.get()),
        Ast::Match(_, e, cs) => in_match(e.get(), cs.as_slice()),
        Ast::Handle(_, e, None, hs) => in_handle(e.get(), hs.as_slice()),
        Ast::Handle(_, e, Some(v), hs) => in_handle_value(e.get(), v, hs.as_slice()),
        Ast::Abstract(_, _, e, f) => in_two(e.get(), f.get()),
        Ast::Cons(_, e, f) => in_two(e.get(), f.get()),
        Ast::Refl(_, e) => first_in(e.get()),
        Ast::Sym(_, e) => first_in(e.get()),
        Ast::Left(_, e) => first_in(e.get()),
        Ast::Right(_, e) => first_in(e.get()),
        Ast::Typeof(_, e) => first_in(e.get()),
        Ast::Domain(_, e) => first_in(e.get()),
        Ast::Natural(_, e) => first_in(e.get()),
        Ast::Normal(at, _) => Some(*at),
        Ast::Boundaryof(_, e) => first_in(e.get()),
        Ast::SomeWord(_, e) => first_in(e.get()),
        Ast::Trans(_, e, f) => in_two(e.get(), f.get()),
        Ast::Convert(_, e, f) => in_two(e.get(), f.get()),
        Ast::Equal(at, _, _) => Some(*at),
        Ast::Widen(_, e, f) => in_two(e.get(), f.get()),
        Ast::Rewrite(_, e, f) => in_two(e.get(), f.get()),
        Ast::Fill(_, e, f) => in_two(e.get(), f.get()),
        Ast::Argument(_, e, _) => first_in(e.get()),
        Ast::Congruence(_, _, e, f) => in_two(e.get(), f.get()),
        Ast::Perform(_, _, e) => first_in(e.get()),
        Ast::Call(_, _, es) => in_all(es.as_slice()),
        Ast::Subst(_, e, es) => in_substitution(e.get(), es.as_slice()),
        Ast::Pair(_, e, f) => in_two(e.get(), f.get()),
        Ast::TrueWord(_) | Ast::FalseWord(_) | Ast::Unit(_) => None,
        Ast::NoneWord(..) | Ast::Nil(..) => None,
    }
}

/// The place of the first one in two expressions.
#[cycle(looking)]
#[tactic(auto, using(crate::proofs::Rules::in_turn))]
pub fn in_two(e: &Ast, f: &Ast) -> Option<u64>
    ensures { result ≡ first (parts [] (form e.now) ++ parts [] (form f.now)) }
{
    match first_in(e) {
        Some(at) => Some(at),
        None => first_in(f),
    }
}

/// The place of the first one in three expressions.
#[cycle(looking)]
#[tactic(auto, using(crate::proofs::Rules::in_turn))]
pub fn in_three(e: &Ast, f: &Ast, g: &Ast) -> Option<u64>
    ensures { result ≡ first
        (parts [] (form e.now) ++ parts [] (form f.now) ++ parts [] (form g.now)) }
{
    match first_in(e) {
        Some(at) => Some(at),
        None => in_two(f, g),
    }
}

// In expressions in a row.
#[cycle(looking)]
fn in_all(es: &[Ast]) -> Option<u64>
    ensures { result ≡ first (all_parts [] (forms (map form es.now))) }
{
    for e in es {
        if let Some(at) = first_in(e) {
            return Some(at);
        }
    }
    None
}

#[cycle(looking)]
#[tactic(auto, using(crate::proofs::Rules::in_turn))]
fn in_substitution(e: &Ast, es: &[Ast]) -> Option<u64>
    ensures { result ≡ first
        (parts [] (form e.now) ++ all_parts [] (forms (map form es.now))) }
{
    match first_in(e) {
        Some(at) => Some(at),
        None => in_all(es),
    }
}

#[cycle(looking)]
#[tactic(auto, using(crate::proofs::Rules::in_turn))]
fn in_match(e: &Ast, cs: &[Case]) -> Option<u64>
    ensures { result ≡ first
        (parts [] (form e.now) ++ case_parts [] (cases (map case cs.now))) }
{
    match first_in(e) {
        Some(at) => Some(at),
        None => in_cases(cs),
    }
}

// In the cases of a match.
#[cycle(looking)]
fn in_cases(cs: &[Case]) -> Option<u64>
    ensures { result ≡ first (case_parts [] (cases (map case cs.now))) }
{
    for c in cs {
        if let Some(at) = first_in(c.body.get()) {
            return Some(at);
        }
    }
    None
}

#[cycle(looking)]
#[tactic(auto, using(crate::proofs::Rules::in_turn))]
fn in_handle(e: &Ast, hs: &[OpCase]) -> Option<u64>
    ensures { result ≡ first
        (parts [] (form e.now) ++ handler_parts [] (handlers (map handler hs.now))) }
{
    match first_in(e) {
        Some(at) => Some(at),
        None => in_handlers(hs),
    }
}

#[cycle(looking)]
#[tactic(auto, using(crate::proofs::Rules::in_turn, crate::proofs::Rows::value_at))]
fn in_handle_value(e: &Ast, v: &ValCase, hs: &[OpCase]) -> Option<u64>
    ensures { result ≡ first
        (parts [] (form e.now) ++ value_parts [] (value_case_of (Some (value v.now)))
        ++ handler_parts [] (handlers (map handler hs.now))) }
{
    match first_in(e) {
        Some(at) => Some(at),
        None => in_handle(v.body.get(), hs),
    }
}

// In the cases for operations.
#[cycle(looking)]
fn in_handlers(hs: &[OpCase]) -> Option<u64>
    ensures { result ≡ first (handler_parts [] (handlers (map handler hs.now))) }
{
    for h in hs {
        if let Some(at) = first_in(h.body.get()) {
            return Some(at);
        }
    }
    None
}
