//! Lines of items.

ghost use Rattle.std.specs.Prelude.{◌≡◌, ◌++◌, ◌<◌, ◌∷◌, [], length, codes, true, encode_utf8_all, OnOk};
ghost use Rattle.ft_base.specs.Names.{is_name_token};
ghost use Rattle.ft_items.specs.Sets.{Ascending};
ghost use Rattle.ft_items.specs.Item.{variable, metavariable, rule, entry, shown};
ghost use Rattle.ft_items.specs.Texts.{set_text, written, step_text, EachAtomFits, EachNumberFits, PartsFit};
ghost use Rattle.ft_judge.specs.Meaning.{thesis_in, boundary_in, ThesisBelow, BoundaryBelow};
ghost use Rattle.ft_kernel.specs.Steps.{step_of};
ghost use Rattle.ft_export.specs.Parts.{parts_text, numbers};
ghost use Rattle.ft_export.specs.Written.{AppendsLine, AppendsLineAt};

use crate::sets::push_set;
use crate::statements::{push_boundary, push_thesis};
use crate::steps::{push_number, push_step};
use ft_assume::Assume;
use ft_base::{Memory, Name, Text};
use ft_judge::{Boundary, Thesis};
use ft_kernel::{Item, J, Kernel, M, MetItem, RuleItem, Step, VarItem};
use ft_syntax::Terms;

// Appends the line of the item at a place, without its line feed.
pub fn push_item(k: &Kernel, i: u64, out: &mut Text) -> Result<(), Memory>
    requires within { i < length k.now.items }
    ensures ok { OnOk result (AppendsLineAt k.now.items i out.old out.new) }
{
    match k.item(i) {
        Item::Var(v) => push_variable(k.var(v), out),
        Item::Met(m) => push_metavariable(k.met(m), out),
        Item::Rule(r) => push_rule(k.rule(r), out),
        Item::Thesis(j, step) => {
            push_judgement(k.terms(), k.thesis_of(j), k.asm_of(j), step, out)
        }
        Item::Boundary(b, step) => {
            push_boundary_entry(k.terms(), k.boundary_at(b), k.set_of(b), step, out)
        }
        Item::Shown(j) => push_mark(j, out),
    }
}

// Appends the line of a variable.
fn push_variable(x: &VarItem, out: &mut Text) -> Result<(), Memory>
    ensures ok { OnOk result (AppendsLine (variable x.now.number x.now.name x.now.ty) out.old out.new) }
{
    out.push_str("V")?;
    push_number(x.number, out)?;
    push_name(&x.name, out)?;
    push_number(x.ty.number(), out)
}

// Appends the line of a metavariable.
fn push_metavariable(x: &MetItem, out: &mut Text) -> Result<(), Memory>
    ensures ok { OnOk result (AppendsLine (metavariable x.now.name x.now.boundary) out.old out.new) }
{
    out.push_str("M")?;
    push_name(&x.name, out)?;
    push_number(x.boundary.number(), out)
}

// Appends the line of a rule.
fn push_rule(x: &RuleItem, out: &mut Text) -> Result<(), Memory>
    ensures ok { OnOk result (AppendsLine (rule x.now.name x.now.premises x.now.conclusion) out.old out.new) }
{
    out.push_str("R")?;
    push_name(&x.name, out)?;
    push_metavariables(x.premises.items(), out)?;
    out.push_str(" ;")?;
    push_number(x.conclusion.number(), out)
}

// Appends the line of a thesis.
fn push_judgement(
    terms: &Terms,
    x: &Thesis,
    set: &Assume,
    step: &Step,
    out: &mut Text,
) -> Result<(), Memory>
    requires below { ThesisBelow (length terms.now) x.now }
    ensures ok { OnOk result (AppendsLine (entry (record { statement = thesis_in terms.now x.now; set = set.now; step = step_of step.now })) out.old out.new) }
{
    out.push_str("J ")?;
    push_thesis(terms, x, out)?;
    push_grounds(set, step, out)
}

// Appends the line of a boundary.
fn push_boundary_entry(
    terms: &Terms,
    x: &Boundary,
    set: &Assume,
    step: &Step,
    out: &mut Text,
) -> Result<(), Memory>
    requires below { BoundaryBelow (length terms.now) x.now }
    ensures ok { OnOk result (AppendsLine (entry (record { statement = boundary_in terms.now x.now; set = set.now; step = step_of step.now })) out.old out.new) }
{
    out.push_str("B ")?;
    push_boundary(terms, x, out)?;
    push_grounds(set, step, out)
}

// Appends the line of a shown mark.
fn push_mark(j: J, out: &mut Text) -> Result<(), Memory>
    ensures ok { OnOk result (AppendsLine (shown j) out.old out.new) }
{
    out.push_str("W")?;
    push_number(j.number(), out)
}

// Appends the set and the step of an entry, with a space before each.
fn push_grounds(set: &Assume, step: &Step, out: &mut Text) -> Result<(), Memory>
    ensures ok { OnOk result (out.new ≡ out.old ++ codes " " ++ set_text set.now ++ codes " " ++ step_text (step_of step.now)) }
    ensures set { OnOk result (EachAtomFits set.now) }
    ensures ascending { OnOk result (Ascending set.now) }
    ensures step { OnOk result (PartsFit (written (step_of step.now)).1) }
{
    out.push_str(" ")?;
    push_set(set, out)?;
    out.push_str(" ")?;
    push_step(step, out)
}

// Appends a space and a name.
fn push_name(name: &Name, out: &mut Text) -> Result<(), Memory>
    ensures ok { OnOk result (out.new ≡ out.old ++ (codes " " ++ encode_utf8_all name.now)) }
    ensures token { OnOk result (is_name_token name.now ≡ true) }
{
    out.push_str(" ")?;
    out.push_chars(name.chars())
}

// Appends the numbers of metavariables, with a space before each.
fn push_metavariables(items: &[M], out: &mut Text) -> Result<(), Memory>
    ensures ok { OnOk result (out.new ≡ out.old ++ parts_text (numbers items.now)) }
    ensures fits { OnOk result (EachNumberFits items.now) }
{
    for m in items {
        push_number(m.number(), out)?;
    }
    Ok(())
}
