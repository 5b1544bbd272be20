//! Refusals.

ghost use Rattle.std.specs.Prelude.{◌≡◌, ◌++◌, length, IfOk, OnOk};
ghost use Rattle.std.specs.List.Sorted.{IsNonDecreasing};
ghost use Rattle.ft_items.specs.Good.{Good};
ghost use Rattle.ft_items.specs.Store.{declared_by};
ghost use Rattle.ft_meaning.specs.Faults.{differ_text, refusal_text};
ghost use Rattle.ft_calls.specs.Answers.{difference_in, refusal_in, RefusalBelow};
ghost use Rattle.ft_print.specs.Refused.{counts_text, DifferBelow};

use crate::atoms::push_atom;
use crate::expressions::push_expression;
use crate::mentioned::variables_mentioned;
use ft_assume::Atom;
use ft_base::{Memory, Text};
use ft_judge::{Differ, Refusal};
use ft_kernel::Kernel;
use std::alloc::Global;

/// Why a call of the nucleus refuses.
pub fn refusal_text(alloc: Global, k: &Kernel, r: &Refusal) -> Result<Text, Memory>
    requires { RefusalBelow (length k.now.trees) r.now }
    ensures { IfOk result
        (λ t. t ≡ refusal_text (declared_by k.now.items) (refusal_in k.now.trees r.now)) }
{
    let mut out = Text::new(alloc);
    push_refusal(alloc, k, r, &mut out)?;
    Ok(out)
}

// Appends why a call of the nucleus refuses.
pub fn push_refusal(alloc: Global, k: &Kernel, r: &Refusal, out: &mut Text) -> Result<(), Memory>
    requires { RefusalBelow (length k.now.trees) r.now }
    ensures ok { OnOk result
        (out.new ≡ out.old ++ refusal_text (declared_by k.now.items) (refusal_in k.now.trees r.now)) }
{
    match r {
        Refusal::WrongForm => out.push_str("WrongForm"),
        Refusal::NotAbstracted => out.push_str("NotAbstracted"),
        Refusal::TypeDiffers(d) => {
            out.push_str("TypeDiffers")?;
            push_differ(alloc, k, d, out)
        }
        Refusal::SidesDiffer(d) => {
            out.push_str("SidesDiffer")?;
            push_differ(alloc, k, d, out)
        }
        Refusal::DependentVariable(v) => {
            out.push_str("DependentVariable: ")?;
            push_atom(k, Atom::Var(*v), out)
        }
        Refusal::OpenBoundary(v) => {
            out.push_str("OpenBoundary: ")?;
            push_atom(k, Atom::Var(*v), out)
        }
        Refusal::ArgumentCount(given, wanted) => push_counts(*given, *wanted, out),
        Refusal::TooBig => out.push_str("TooBig"),
        Refusal::NotApplication => out.push_str("NotApplication"),
    }
}

// Appends two expressions that differ.
fn push_differ(alloc: Global, k: &Kernel, d: &Differ, out: &mut Text) -> Result<(), Memory>
    requires { DifferBelow (length k.now.trees) d.now }
    ensures ok { OnOk result
        (out.new ≡ out.old ++ differ_text (declared_by k.now.items) (difference_in k.now.trees d.now)) }
{
    let variables = variables_mentioned(alloc, k.terms(), d.found, d.wanted)?;
    out.push_str(": found ")?;
    push_expression(k, &variables, d.under, d.found, out)?;
    out.push_str(", wanted ")?;
    push_expression(k, &variables, d.under, d.wanted, out)
}

// Appends how many arguments were given and wanted.
fn push_counts(given: u64, wanted: u64, out: &mut Text) -> Result<(), Memory>
    ensures ok { OnOk result (out.new ≡ out.old ++ counts_text given wanted) }
{
    out.push_str("ArgumentCount: ")?;
    out.push_number(given)?;
    out.push_str(" given, ")?;
    out.push_number(wanted)?;
    out.push_str(" wanted")
}
