//! Reading the line of an item.

ghost use Rattle.std.specs.Prelude.{◌≡◌, List, [], length, IfOk, IsErrOf};
ghost use Rattle.ft_theory.specs.Expressions.{Expression};
ghost use Rattle.ft_base.specs.Names.{is_name_token};
ghost use Rattle.ft_items.specs.Lines.{IsLineOf};
ghost use Rattle.ft_items.specs.Faults.{IsItemLine};
ghost use Rattle.ft_syntax.specs.Table.{Extends};
ghost use Rattle.ft_stated.specs.Lines.{item_in, StatedBelow};
ghost use Rattle.ft_lines.specs.declared.fault.Fault.TheVariants.{Form};
ghost use Rattle.ft_lines.specs.Lines as spec;
ghost use Rattle.ft_lines.specs.Lines.{ReadsItem};
ghost use Rattle.ft_lines.specs.Reading.{Reads};

use crate::cursor::Cursor;
use crate::entries::{boundary_entry, thesis_entry};
use crate::fault::Fault;
use crate::written::stated;
use ft_stated::{Numbers, Stated};
use ft_syntax::Terms;
use std::alloc::Global;

/// The item that a line states, over the table; `Form` where it states none.
pub fn line(alloc: Global, terms: &mut Terms, bytes: &[u8]) -> Result<Stated, Fault>
    ensures item { IfOk result (λ x. StatedBelow (length terms.new) x × IsLineOf is_name_token bytes.now (item_in terms.new x)) }
    ensures form { IsErrOf result Form → IsItemLine is_name_token bytes.now → ⊥ }
    ensures goes_on { Extends terms.old terms.new }
{
    let mut text = Cursor::new(bytes);
    whole(alloc, terms, &mut text)
}

// An item, and nothing behind it.
#[tactic(auto, unfolding(crate::specs::Lines::whole))]
fn whole(alloc: Global, terms: &mut Terms, text: &mut Cursor<'_>) -> Result<Stated, Fault>
    ensures reads { ReadsItem (spec.whole text.old) terms.new result text.new }
    ensures goes_on { Extends terms.old terms.new }
{
    let stated = item(alloc, terms, text)?;
    text.end()?;
    Ok(stated)
}

// The item that is next.
#[tactic(auto, unfolding(crate::specs::Lines::item))]
fn item(alloc: Global, terms: &mut Terms, text: &mut Cursor<'_>) -> Result<Stated, Fault>
    ensures reads { ReadsItem (spec.item text.old) terms.new result text.new }
    ensures goes_on { Extends terms.old terms.new }
{
    if text.sees(b'J') {
        thesis_item(alloc, terms, text)
    } else if text.sees(b'B') {
        boundary_item(alloc, terms, text)
    } else {
        declared(alloc, text)
    }
}

// An entry with a thesis.
#[tactic(auto, unfolding(crate::specs::Lines::thesis_item))]
fn thesis_item(alloc: Global, terms: &mut Terms, text: &mut Cursor<'_>) -> Result<Stated, Fault>
    ensures reads { ReadsItem (spec.thesis_item text.old) terms.new result text.new }
    ensures goes_on { Extends terms.old terms.new }
{
    let entry = thesis_entry(alloc, terms, text)?;
    let step = stated(alloc, entry.word, entry.parts.as_slice())?;
    Ok(Stated::Thesis(entry.thesis, entry.set, step))
}

// An entry with a boundary.
#[tactic(auto, unfolding(crate::specs::Lines::boundary_item))]
fn boundary_item(alloc: Global, terms: &mut Terms, text: &mut Cursor<'_>) -> Result<Stated, Fault>
    ensures reads { ReadsItem (spec.boundary_item text.old) terms.new result text.new }
    ensures goes_on { Extends terms.old terms.new }
{
    let entry = boundary_entry(alloc, terms, text)?;
    let step = stated(alloc, entry.word, entry.parts.as_slice())?;
    Ok(Stated::Boundary(entry.boundary, entry.set, step))
}

// An item that is no entry. It has no expressions, so that each table tells it.
fn declared(alloc: Global, text: &mut Cursor<'_>) -> Result<Stated, Fault>
    ensures { (ts : List Expression) → ReadsItem (spec.declared text.old) ts result text.new }
{
    if text.sees(b'V') {
        variable(alloc, text)
    } else if text.sees(b'M') {
        metavariable(alloc, text)
    } else if text.sees(b'R') {
        rule(alloc, text)
    } else {
        mark(text)
    }
}

#[tactic(auto, unfolding(crate::specs::Lines::variable))]
fn variable(alloc: Global, text: &mut Cursor<'_>) -> Result<Stated, Fault>
    ensures { (ts : List Expression) → ReadsItem (spec.variable text.old) ts result text.new }
{
    text.expect(b'V')?;
    text.expect(b' ')?;
    let number = text.number()?;
    text.expect(b' ')?;
    let name = text.name(alloc)?;
    text.expect(b' ')?;
    let entry = text.number()?;
    Ok(Stated::Var(number, name, entry))
}

#[tactic(auto, unfolding(crate::specs::Lines::metavariable))]
fn metavariable(alloc: Global, text: &mut Cursor<'_>) -> Result<Stated, Fault>
    ensures { (ts : List Expression) → ReadsItem (spec.metavariable text.old) ts result text.new }
{
    text.expect(b'M')?;
    text.expect(b' ')?;
    let name = text.name(alloc)?;
    text.expect(b' ')?;
    let entry = text.number()?;
    Ok(Stated::Met(name, entry))
}

#[tactic(auto, unfolding(crate::specs::Lines::rule))]
fn rule(alloc: Global, text: &mut Cursor<'_>) -> Result<Stated, Fault>
    ensures { (ts : List Expression) → ReadsItem (spec.rule text.old) ts result text.new }
{
    text.expect(b'R')?;
    text.expect(b' ')?;
    let name = text.name(alloc)?;
    let premises = premises(alloc, text)?;
    text.expect(b' ')?;
    let entry = text.number()?;
    Ok(Stated::Rule(name, premises, entry))
}

// The metavariables of a rule, and the semicolon behind them.
#[tactic(auto, unfolding(crate::specs::Lines::premises_from))]
fn premises(alloc: Global, text: &mut Cursor<'_>) -> Result<Numbers, Fault>
    ensures { Reads (spec.premises text.old) result text.new }
{
    let mut found = Numbers::new(alloc);
    for _turn in 0..text.left() {
        text.expect(b' ')?;
        if text.passes(b';') {
            return Ok(found);
        }
        found.push(text.number()?)?;
    }
    Err(Fault::Form)
}

// A shown mark.
#[tactic(auto, unfolding(crate::specs::Lines::mark))]
fn mark(text: &mut Cursor<'_>) -> Result<Stated, Fault>
    ensures { (ts : List Expression) → ReadsItem (spec.mark text.old) ts result text.new }
{
    text.expect(b'W')?;
    text.expect(b' ')?;
    let entry = text.number()?;
    Ok(Stated::Shown(entry))
}
