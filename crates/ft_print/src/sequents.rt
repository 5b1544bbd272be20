//! Sequents: contexts and theses.

ghost use Rattle.std.specs.Prelude.{◌≡◌, ◌≢◌, ◌<◌, ℕ, ◌++◌, List, [], codes, Some, option_map, IfOk, OnOk};
ghost use Rattle.std.specs.List.Sorted.{IsNonDecreasing};
ghost use Rattle.ft_theory.specs.Rules.{look_up};
ghost use Rattle.ft_items.specs.Good.{Good};
ghost use Rattle.ft_items.specs.Store.{nth, type_in, declared_by};
ghost use Rattle.ft_theory.specs.Expressions.{Expression};
ghost use Rattle.ft_syntax.specs.Table.{tree};
ghost use Rattle.ft_judge.specs.Meaning.{thesis_in, ThesisBelow};
ghost use Rattle.ft_print.specs.Domains.{IsPlainType};
ghost use Rattle.ft_assume.specs.Atoms.{atom_of, atoms_of};
ghost use Rattle.ft_kernel.specs.State.{entry_at, IsThesisOf};
ghost use Rattle.ft_meaning.specs.Texts.{metavariable_member, variable_member, member_text, context_text, sequent_text};

use crate::names::{push_metavariable, push_variable};
use crate::statements::{push_boundary, push_of_type, push_thesis};
use crate::variables::variables_of;
use ft_assume::Atom;
use ft_base::{Memory, Text};
use ft_judge::{Form, Thesis};
use ft_kernel::{J, Kernel};
use ft_syntax::E;
use std::alloc::Global;

/// The sequent of a thesis: its context, and the thesis.
pub fn sequent_text(alloc: Global, k: &Kernel, j: J) -> Result<Text, Memory>
    requires { IsThesisOf k.now j }
    ensures { IfOk result
        (λ t. Some t ≡ option_map (sequent_text (declared_by k.now.items)) (entry_at k.now j)) }
{
    let mut out = Text::new(alloc);
    push_sequent(alloc, k, j, &mut out)?;
    Ok(out)
}

// Appends the sequent of a thesis.
pub fn push_sequent(alloc: Global, k: &Kernel, j: J, out: &mut Text) -> Result<(), Memory>
    requires { IsThesisOf k.now j }
    ensures ok { OnOk result
        (Some out.new ≡ option_map (λ a. out.old ++
        sequent_text (declared_by k.now.items) a) (entry_at k.now j)) }
{
    let thesis = k.thesis_of(j);
    let set = k.asm_of(j);
    let variables = variables_of(alloc, set)?;
    push_context(k, &variables, set.atoms(), out)?;
    out.push_str("|- ")?;
    push_thesis(k, &variables, thesis, out)
}

// Appends the members of a context, with a space after the last.
fn push_context(k: &Kernel, variables: &[u64], atoms: &[Atom], out: &mut Text) -> Result<(), Memory>
    requires good { Good k.now.items }
    requires ascending { IsNonDecreasing variables.now }
    ensures ok { OnOk result
        (out.new ≡ out.old ++
        context_text (declared_by k.now.items) variables.now (atoms_of atoms.now)) }
{
    for i in 0..atoms.len() {
        out.push_str(before(i))?;
        push_member(k, variables, atoms[i], out)?;
    }
    if atoms.is_empty() {
        return Ok(());
    }
    out.push_str(" ")
}

// What stands before the member at place `i`, counted from 0.
fn before(i: usize) -> &'static str
    ensures first { i ≡ 0 → result.now ≡ [] }
    ensures further { i ≢ 0 → result.now ≡ codes ", " }
{
    if i == 0 {
        return "";
    }
    ", "
}

// Appends a member of a context.
fn push_member(k: &Kernel, variables: &[u64], atom: Atom, out: &mut Text) -> Result<(), Memory>
    requires good { Good k.now.items }
    requires ascending { IsNonDecreasing variables.now }
    ensures ok { OnOk result
        (out.new ≡ out.old ++ member_text (declared_by k.now.items) variables.now (atom_of atom)) }
{
    match atom {
        Atom::Met(m) => push_metavariable_member(k, variables, m, out),
        Atom::Var(v) => push_variable_member(k, variables, v, out),
    }
}

// Appends a metavariable with its boundary, where it is declared.
fn push_metavariable_member(
    k: &Kernel,
    variables: &[u64],
    m: u64,
    out: &mut Text,
) -> Result<(), Memory>
    requires good { Good k.now.items }
    requires ascending { IsNonDecreasing variables.now }
    ensures ok { OnOk result
        (out.new ≡ out.old ++ metavariable_member (declared_by k.now.items) variables.now m (nth
        (declared_by k.now.items).metavariables m)) }
{
    match k.met_numbered(m) {
        Some(found) => {
            push_metavariable(k, m, out)?;
            out.push_str(" := ")?;
            push_boundary(k, variables, k.boundary_at(k.met(found).boundary), out)
        }
        None => Ok(()),
    }
}

// Appends a variable with its type, where it is declared.
fn push_variable_member(k: &Kernel, variables: &[u64], v: u64, out: &mut Text) -> Result<(), Memory>
    requires good { Good k.now.items }
    requires ascending { IsNonDecreasing variables.now }
    ensures ok { OnOk result
        (out.new ≡ out.old ++ variable_member (declared_by k.now.items) variables.now v (look_up
        (declared_by k.now.items).variables v)) }
{
    match k.var_numbered(v) {
        Some(found) => {
            push_variable(k, variables, v, out)?;
            push_of_type(k, variables, 0, type_of(k.thesis_of(k.var(found).ty)), out)
        }
        None => Ok(()),
    }
}

// The type that a plain thesis `A type` is about.
#[tactic(auto, using(crate::proofs::Members::plain_type_in, crate::proofs::Members::plain_type_below))]
fn type_of(x: &Thesis) -> E
    requires { IsPlainType x.now }
    ensures is { (ts : List Expression) → type_in (thesis_in ts x.now) ≡ tree ts result }
    ensures below { (n : ℕ) → ThesisBelow n x.now → result < n }
{
    match x.form {
        Form::Ty(a) => a,
        _ => unreachable!(),
    }
}
