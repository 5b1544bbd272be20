//! The texts of claims.

ghost use Rattle.std.specs.Prelude.{◌≡◌, ◌≢◌, ◌++◌, ◌-◌, ◌<◌, ◌≤◌, Some, length, codes, slice_get, OnOk, OnErr};
ghost use Rattle.ft_theory.specs.Statements.{has_type};
ghost use Rattle.ft_syntax.specs.Arguments.{arguments_of};
ghost use Rattle.ft_syntax.specs.Table.{tree};
ghost use Rattle.ft_judge.specs.Meaning.{claim_in, FormBelow};
ghost use Rattle.ft_applications_meaning.specs.Texts.{symbol_text, expression_text, claim_text};
ghost use Rattle.ft_run.specs.Session.{IsSimple, IsSimpleClaim};
ghost use Rattle.ft_run.specs.Claiming.{names_known};
ghost use Rattle.ft_run.specs.Printing.{HasBeginning};

use crate::session::Known;
use ft_base::{Memory, Text};
use ft_judge::Form;
use ft_syntax::{E, Node, Terms};

// Appends the name of the rule of a symbol, where there is one.
#[tactic(auto, using(crate::proofs::Printing::name_there, crate::proofs::Printing::name_missing))]
fn push_name(known: &[Known], symbol: u64, out: &mut Text) -> Result<(), Memory>
    ensures ok { OnOk result (out.new ≡ out.old ++ symbol_text (names_known known.now) symbol) }
    ensures err { OnErr result (out.new ≡ out.old) }
{
    match known.get(symbol as usize) {
        Some(rule) => out.push_chars(rule.name.chars()),
        None => Ok(()),
    }
}

// What stands before the argument at place `i`, counted from 0.
fn before(i: u64) -> &'static str
    ensures first { i ≡ 0 → result.now ≡ codes "(" }
    ensures further { i ≢ 0 → result.now ≡ codes ", " }
{
    if i == 0 {
        return "(";
    }
    ", "
}

// The argument at place `i`, counted from 1, of a simple expression.
#[tactic(auto, using(crate::proofs::Printing::argument_is, crate::proofs::Printing::argument_simple, crate::proofs::Printing::no_dummy))]
fn argument(terms: &Terms, e: E, i: u64) -> E
    requires within { e < length terms.now }
    requires simple { IsSimple (tree terms.now e) }
    requires first { 1 ≤ i }
    requires last { i ≤ length (arguments_of (tree terms.now e)) }
    ensures below { result < e }
    ensures argument { slice_get (arguments_of (tree terms.now e)) (i - 1) ≡ Some (0, Some (tree terms.now result)) }
    ensures simple { IsSimple (tree terms.now result) }
{
    match terms.arg(e, i).body {
        Some(body) => body,
        None => unreachable!(),
    }
}

// Appends the text of a simple expression.
#[tactic(auto, using(crate::proofs::Printing::written_start, crate::proofs::Printing::written_more, crate::proofs::Printing::written_none, crate::proofs::Printing::begins_same, crate::proofs::Printing::written_begins))]
fn push_expression(terms: &Terms, known: &[Known], e: E, out: &mut Text) -> Result<(), Memory>
    requires within { e < length terms.now }
    requires simple { IsSimple (tree terms.now e) }
    ensures ok { OnOk result (out.new ≡ out.old ++ expression_text (names_known known.now) (tree terms.now e)) }
    ensures err { OnErr result (HasBeginning out.old (expression_text (names_known known.now) (tree terms.now e)) out.new) }
{
    let Node::Sym(symbol) = terms.node(e) else {
        return Ok(());
    };
    push_name(known, symbol, out)?;
    let count = terms.count(e);
    if count == 0 {
        return Ok(());
    }
    for i in 0..count {
        out.push_str(before(i))?;
        push_expression(terms, known, argument(terms, e, i + 1), out)?;
    }
    out.push_str(")")
}

// Appends the text of a term and its type.
#[tactic(auto, using(crate::proofs::Printing::begins_first, crate::proofs::Printing::begins_later, crate::proofs::Printing::begins_same, crate::proofs::Printing::later_err))]
fn push_term(terms: &Terms, known: &[Known], term: E, ty: E, out: &mut Text) -> Result<(), Memory>
    requires term { (term < length terms.now) × IsSimple (tree terms.now term) }
    requires ty { (ty < length terms.now) × IsSimple (tree terms.now ty) }
    ensures ok { OnOk result (out.new ≡ out.old ++ claim_text (names_known known.now) (has_type (tree terms.now term) (tree terms.now ty))) }
    ensures err { OnErr result (HasBeginning out.old (claim_text (names_known known.now) (has_type (tree terms.now term) (tree terms.now ty))) out.new) }
{
    push_expression(terms, known, term, out)?;
    out.push_str(" : ")?;
    push_expression(terms, known, ty, out)
}

/// Appends the text of a claim. After `Memory` the text holds a beginning of it.
#[tactic(auto, using(crate::proofs::Printing::begins_first, crate::proofs::Printing::begins_later, crate::proofs::Printing::same_err, crate::proofs::Printing::later_err))]
pub fn push_claim(terms: &Terms, known: &[Known], form: Form, out: &mut Text) -> Result<(), Memory>
    requires below { FormBelow (length terms.now) form }
    requires simple { IsSimpleClaim (claim_in terms.now form) }
    ensures ok { OnOk result (out.new ≡ out.old ++ claim_text (names_known known.now) (claim_in terms.now form)) }
    ensures err { OnErr result (HasBeginning out.old (claim_text (names_known known.now) (claim_in terms.now form)) out.new) }
{
    match form {
        Form::Ty(ty) => {
            push_expression(terms, known, ty, out)?;
            out.push_str(" type")
        }
        Form::Tm(term, ty) => push_term(terms, known, term, ty, out),
        _ => Ok(()),
    }
}
