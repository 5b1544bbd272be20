//! Equations that start at the heads of theses, and their right sides.

ghost use Rattle.std.specs.Prelude.{◌≡◌, ◌<◌, ◌≤◌, ℕ, List, Some, true, drop, is_some, length, option_map, take, IfOk, IfSome};
ghost use Rattle.ft_theory.specs.Expressions.{Expression};
ghost use Rattle.ft_theory.specs.Statements.{Statement, domain_count};
ghost use Rattle.ft_items.specs.Equal.{is_thesis, right_head, right_heads, start_all, starts as starts_at};
ghost use Rattle.ft_items.specs.Store.{Assertion, entry_named, store_of};
ghost use Rattle.ft_items.specs.Rows.{statements};
ghost use Rattle.ft_syntax.specs.Table.{tree, arguments_in, ArgumentsBelow, BodyBelow};
ghost use Rattle.ft_judge.specs.Meaning.{thesis_in, ThesisBelow};
ghost use Rattle.ft_check.specs.Arguing.{AreTheses};
ghost use Rattle.ft_check.specs.Entries.{entry_in, EntryBelow};
ghost use Rattle.ft_check.specs.Equations.{next_in, right_and_rest, taken};

use crate::entry::{Entry, entry_before};
use ft_base::Memory;
use ft_judge::{Form, Thesis, head_of};
use ft_stated::StatedItems;
use ft_steps::{FromOne, from_one, is_same};
use ft_syntax::{Arg, E, Terms};
use std::alloc::Global;

// Whether the entry `e` is an equation whose left side is the head of the entry `x`, at its type and under the same domains.
#[tactic(auto, using(crate::proofs::Started::no_left, crate::proofs::Started::left_there))]
fn starts(terms: &Terms, x: Entry<'_>, e: Entry<'_>) -> bool
    requires x { EntryBelow (length terms.now) x }
    requires e { EntryBelow (length terms.now) e }
    ensures { is_thesis (entry_in terms.now e.entry).statement ≡ true
        → result ≡ starts_at (entry_in terms.now x.entry).statement
        (entry_in terms.now e.entry).statement }
{
    match from_one(FromOne::Left, e.parts()) {
        None => false,
        Some(left) => {
            let stated = x.parts();
            is_same(terms, &stated, &left)
        }
    }
}

// The right side of an equation.
#[tactic(auto, using(crate::proofs::Started::right_is, crate::proofs::Started::no_equation))]
fn right_of(x: &Thesis) -> Option<E>
    ensures is { (ts : List Expression)
        → IfSome result (λ b. tree ts b ≡ right_head (thesis_in ts x.now)) }
    ensures there { (ts : List Expression) (y : Statement)
        → starts_at y (thesis_in ts x.now) ≡ true → is_some result ≡ true }
    ensures below { (n : ℕ) → ThesisBelow n x.now → IfSome result (λ b. b < n) }
{
    match x.form {
        Form::EqTy(_, b) => Some(b),
        Form::EqTm(_, t, _) => Some(t),
        _ => None,
    }
}

// The right side of the entry `e`, where that starts at the head of the entry `x`.
fn right_from(terms: &Terms, x: Entry<'_>, e: Entry<'_>) -> Option<E>
    requires x { EntryBelow (length terms.now) x }
    requires e { EntryBelow (length terms.now) e }
    ensures is { is_thesis (entry_in terms.now e.entry).statement ≡ true
        → IfSome result (λ b. tree terms.now b
        ≡ right_head (entry_in terms.now e.entry).statement) }
    ensures there { is_thesis (entry_in terms.now e.entry).statement ≡ true
        → is_some result ≡ starts_at (entry_in terms.now x.entry).statement
        (entry_in terms.now e.entry).statement }
    ensures below { IfSome result (λ b. b < length terms.now) }
{
    if !starts(terms, x, e) {
        return None;
    }
    match e {
        Entry::Boundary(..) => None,
        Entry::Thesis(y, _) => right_of(y),
    }
}

/// The argument in the place of a thesis, and how many equations are used by then.
#[derive(Clone, Copy)]
pub struct Next {
    pub argument: Arg,
    pub used: usize,
}

// The argument in the place of a thesis with a head, of which the next equation is to tell the right side.
#[tactic(auto, using(crate::proofs::Started::taken_none, crate::proofs::Started::taken_not, crate::proofs::Started::taken_some))]
fn right_at(
    items: &StatedItems,
    i: u64,
    x: Entry<'_>,
    binders: u64,
    es: &[u64],
    used: usize,
) -> Option<Next>
    requires x { EntryBelow (length items.now.trees) x }
    requires used { used ≤ length es.now }
    ensures next { (ys : List Assertion) → AreTheses (take i items.now.items) es.now ys
        → binders ≡ domain_count (entry_in items.now.trees x.entry).statement
        → option_map (next_in items.now.trees (statements ys)) result
        ≡ taken (entry_in items.now.trees x.entry).statement
        (drop used (statements ys)) }
    ensures used { IfSome result (λ n. n.used ≤ length es.now) }
    ensures below { IfSome result (λ n. BodyBelow (length items.now.trees) n.argument.body) }
{
    if used == es.len() {
        return None;
    }
    let e = entry_before(items, i, es[used])?;
    let Some(body) = right_from(items.terms(), x, e) else {
        return None;
    };
    Some(Next {
        argument: Arg {
            binders,
            body: Some(body),
        },
        used: used + 1,
    })
}

// The argument in the place of the thesis `p`: the right side of the next equation, or a dummy where it has no head.
#[tactic(auto, using(crate::proofs::Started::thesis_depth, crate::proofs::Started::thesis_head, crate::proofs::Started::without_head, crate::proofs::Started::with_head))]
fn next_right(items: &StatedItems, i: u64, p: u64, es: &[u64], used: usize) -> Option<Next>
    requires { used ≤ length es.now }
    ensures next { (a : Assertion) (ys : List Assertion)
        → entry_named (store_of (take i items.now.items)) p ≡ Some a → is_thesis a.statement ≡ true
        → AreTheses (take i items.now.items) es.now ys
        → option_map (next_in items.now.trees (statements ys)) result
        ≡ right_and_rest a.statement (drop used (statements ys)) }
    ensures used { IfSome result (λ n. n.used ≤ length es.now) }
    ensures below { IfSome result (λ n. BodyBelow (length items.now.trees) n.argument.body) }
{
    let found = entry_before(items, i, p)?;
    match found {
        Entry::Boundary(..) => None,
        Entry::Thesis(x, _) => {
            let Arg { binders, body } = head_of(x);
            match body {
                None => Some(Next {
                    argument: Arg {
                        binders,
                        body: None,
                    },
                    used,
                }),
                Some(_) => right_at(items, i, found, binders, es, used),
            }
        }
    }
}

/// The right sides of equations that start at the theses' heads, one for each head, or None where the equations are no such.
#[tactic(auto, using(crate::proofs::Started::rights_start, crate::proofs::Started::rights_over, crate::proofs::Started::rights_all, crate::proofs::Started::rights_are))]
pub fn rights_of(
    alloc: Global,
    items: &StatedItems,
    i: u64,
    ps: &[u64],
    es: &[u64],
) -> Result<Option<Vec<Arg>>, Memory>
    ensures start { (xs ys : List Assertion) → AreTheses (take i items.now.items) ps.now xs
        → AreTheses (take i items.now.items) es.now ys
        → IfOk result (λ o. is_some o ≡ start_all (statements xs) (statements ys)) }
    ensures are { (xs ys : List Assertion) → AreTheses (take i items.now.items) ps.now xs
        → AreTheses (take i items.now.items) es.now ys
        → IfOk result (λ o. IfSome o (λ l. arguments_in items.now.trees l.items
        ≡ right_heads (statements xs) (statements ys))) }
    ensures below { IfOk result (λ o. IfSome o (λ l.
        ArgumentsBelow (length items.now.trees) l.items)) }
{
    let mut list = Vec::new(alloc);
    let mut used = 0;
    for k in 0..ps.len() {
        match next_right(items, i, ps[k], es, used) {
            None => return Ok(None),
            Some(next) => {
                let later = next.used;
                let Arg { binders, body } = next.argument;
                list.push(Arg { binders, body })?;
                used = later;
            }
        }
    }
    if used < es.len() {
        return Ok(None);
    }
    Ok(Some(list))
}
