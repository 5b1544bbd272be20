//! Of which kind the entries are that a step names.

ghost use Rattle.std.specs.Prelude.{◌≡◌, take, option_map};
ghost use Rattle.ft_items.specs.Store.{resolve, store_of, declared_by};
ghost use Rattle.ft_items.specs.Good.{Good};
ghost use Rattle.ft_stated.specs.Steps.{stated_step};
ghost use Rattle.ft_check.specs.Kinds.{thesis_named, boundary_named, kind_named, theses_named, entry_there, variable_there, metavariable_there, rule_there, both as both_tests, also as with_test, kinds_right};

use crate::named::{
    also, are_theses, both, is_boundary, is_entry, is_metavariable, is_of_kind, is_rule, is_thesis,
    is_variable,
};
use ft_stated::{Numbers, StatedItems, StatedStep};

fn one_thesis(items: &StatedItems, i: u64, p: u64, right: bool) -> Option<bool>
    ensures { result ≡ with_test (thesis_named (store_of (take i items.now.items)) p) right }
{
    also(is_thesis(items, i, p), right)
}

fn two_theses(items: &StatedItems, i: u64, p: u64, q: u64, right: bool) -> Option<bool>
    ensures { result ≡ with_test (both_tests (thesis_named (store_of (take i items.now.items)) p)
        (thesis_named (store_of (take i items.now.items)) q)) right }
{
    also(both(is_thesis(items, i, p), is_thesis(items, i, q)), right)
}

fn three_theses(items: &StatedItems, i: u64, p: u64, q: u64, r: u64, right: bool) -> Option<bool>
    ensures { result ≡ with_test (both_tests (thesis_named (store_of (take i items.now.items)) p)
        (both_tests (thesis_named (store_of (take i items.now.items)) q)
        (thesis_named (store_of (take i items.now.items)) r))) right }
{
    let later = both(is_thesis(items, i, q), is_thesis(items, i, r));
    also(both(is_thesis(items, i, p), later), right)
}

fn metavariable_at(items: &StatedItems, i: u64, m: u64, ps: &Numbers, right: bool) -> Option<bool>
    ensures { Good (take i items.now.items) → result ≡
        with_test (both_tests (metavariable_there (declared_by (take i items.now.items)) m)
        (theses_named (store_of (take i items.now.items)) ps.now)) right }
{
    also(
        both(is_metavariable(items, i, m), are_theses(items, i, ps)),
        right,
    )
}

fn rule_at(items: &StatedItems, i: u64, r: u64, ps: &Numbers, right: bool) -> Option<bool>
    ensures { Good (take i items.now.items) → result ≡
        with_test (both_tests (rule_there (declared_by (take i items.now.items)) r)
        (theses_named (store_of (take i items.now.items)) ps.now)) right }
{
    also(both(is_rule(items, i, r), are_theses(items, i, ps)), right)
}

fn rule_with(items: &StatedItems, i: u64, r: u64, b: u64, ps: &Numbers, right: bool) -> Option<bool>
    ensures { Good (take i items.now.items) → result ≡
        with_test (both_tests (rule_there (declared_by (take i items.now.items)) r)
        (both_tests (boundary_named (store_of (take i items.now.items)) b)
        (theses_named (store_of (take i items.now.items)) ps.now))) right }
{
    let later = both(is_boundary(items, i, b), are_theses(items, i, ps));
    also(both(is_rule(items, i, r), later), right)
}

fn rule_twice(
    items: &StatedItems,
    i: u64,
    r: u64,
    ps: &Numbers,
    es: &Numbers,
    right: bool,
) -> Option<bool>
    ensures { Good (take i items.now.items) → result ≡
        with_test (both_tests (rule_there (declared_by (take i items.now.items)) r)
        (both_tests (theses_named (store_of (take i items.now.items)) ps.now)
        (theses_named (store_of (take i items.now.items)) es.now))) right }
{
    let later = both(are_theses(items, i, ps), are_theses(items, i, es));
    also(both(is_rule(items, i, r), later), right)
}

fn rule_moved(
    items: &StatedItems,
    i: u64,
    r: u64,
    ps: &Numbers,
    es: &Numbers,
    q: u64,
    right: bool,
) -> Option<bool>
    ensures { Good (take i items.now.items) → result ≡
        with_test (both_tests (rule_there (declared_by (take i items.now.items)) r)
        (both_tests (theses_named (store_of (take i items.now.items)) ps.now)
        (both_tests (theses_named (store_of (take i items.now.items)) es.now)
        (thesis_named (store_of (take i items.now.items)) q)))) right }
{
    let last = both(are_theses(items, i, es), is_thesis(items, i, q));
    let later = both(are_theses(items, i, ps), last);
    also(both(is_rule(items, i, r), later), right)
}

fn substituted(items: &StatedItems, i: u64, p: u64, t: u64, thesis: bool) -> Option<bool>
    ensures { result ≡ both_tests (kind_named thesis (store_of (take i items.now.items)) p)
        (thesis_named (store_of (take i items.now.items)) t) }
{
    both(is_of_kind(items, i, p, thesis), is_thesis(items, i, t))
}

fn abstracted(items: &StatedItems, i: u64, v: u64, p: u64, thesis: bool) -> Option<bool>
    ensures { Good (take i items.now.items) → result ≡
        both_tests (variable_there (declared_by (take i items.now.items)) v)
        (kind_named thesis (store_of (take i items.now.items)) p) }
{
    both(is_variable(items, i, v), is_of_kind(items, i, p, thesis))
}

/// Whether a step after the items before place `i` has theses and boundaries where its row has them, and concludes a thesis
/// where `thesis` is true and else a boundary; None where a number names nothing.
pub fn kinds(items: &StatedItems, i: u64, step: &StatedStep, thesis: bool) -> Option<bool>
    ensures { Good (take i items.now.items) → result ≡
        option_map (kinds_right thesis) (resolve (store_of (take i items.now.items))
        (stated_step step.now)) }
{
    match step {
        StatedStep::Var(v) => also(is_variable(items, i, *v), thesis),
        StatedStep::Generic(m) => also(is_metavariable(items, i, *m), thesis),
        StatedStep::Meta(m, ps) => metavariable_at(items, i, *m, ps, thesis),
        StatedStep::Metacong(m, es) => metavariable_at(items, i, *m, es, thesis),
        StatedStep::Abs(v, p) => abstracted(items, i, *v, *p, thesis),
        StatedStep::Subst(p, t) => substituted(items, i, *p, *t, thesis),
        StatedStep::Substeq(p, e) => two_theses(items, i, *p, *e, thesis),
        StatedStep::Refl(p) => one_thesis(items, i, *p, thesis),
        StatedStep::Sym(p) => one_thesis(items, i, *p, thesis),
        StatedStep::Trans(p, q) => two_theses(items, i, *p, *q, thesis),
        StatedStep::Conv(p, e) => two_theses(items, i, *p, *e, thesis),
        StatedStep::Conveq(p, e) => two_theses(items, i, *p, *e, thesis),
        StatedStep::Left(p) => also(is_entry(items, i, *p), thesis),
        StatedStep::Right(p) => also(is_entry(items, i, *p), thesis),
        StatedStep::Typeof(p) => also(is_entry(items, i, *p), thesis),
        StatedStep::Domain(p) => also(is_entry(items, i, *p), thesis),
        StatedStep::Boundary(p) => one_thesis(items, i, *p, !thesis),
        StatedStep::Widen(p, q) => two_theses(items, i, *p, *q, thesis),
        StatedStep::Btype => Some(!thesis),
        StatedStep::Bterm(p) => one_thesis(items, i, *p, !thesis),
        StatedStep::Beqty(p, q) => two_theses(items, i, *p, *q, !thesis),
        StatedStep::Beqtm(p, s, t) => three_theses(items, i, *p, *s, *t, !thesis),
        StatedStep::Rule(r, ps) => rule_at(items, i, *r, ps, thesis),
        StatedStep::Rulewith(r, b, ps) => rule_with(items, i, *r, *b, ps, thesis),
        StatedStep::Inst(r, ps) => rule_at(items, i, *r, ps, !thesis),
        StatedStep::Cong(r, ps, es) => rule_twice(items, i, *r, ps, es, thesis),
        StatedStep::Convprem(r, ps, es, q) => rule_moved(items, i, *r, ps, es, *q, thesis),
        StatedStep::Convback(r, ps, es, q) => rule_moved(items, i, *r, ps, es, *q, thesis),
        StatedStep::Arg(_, p) => one_thesis(items, i, *p, thesis),
        StatedStep::Natural(p) => one_thesis(items, i, *p, thesis),
    }
}
