//! Why a rule is not declared.

ghost use Rattle.std.specs.Prelude.{◌≡◌, IfOk};
ghost use Rattle.ft_items.specs.Item.{Name as AnyName};
ghost use Rattle.ft_items.specs.Store.{Declarations, declared_by};
ghost use Rattle.ft_assume.specs.Atoms.{atom_of};
ghost use Rattle.ft_reference.specs.Declare.{Duplicate, TooMany, OpenPremise, OpenConclusion};
ghost use Rattle.ft_meaning.specs.Values.{OfRule};
ghost use Rattle.ft_meaning.specs.Faults.{fault_text};

use crate::atoms::push_atom;
use crate::fixed::fixed_text;
use ft_assume::Atom;
use ft_base::{Memory, Name, Text};
use ft_kernel::Kernel;
use std::alloc::Global;

/// Why a run ends at a rule whose name an earlier rule has.
pub fn duplicate_rule_text(alloc: Global, name: &Name) -> Result<Text, Memory>
    ensures { IfOk result (λ t. (W : Declarations) → t ≡ fault_text W name.now (OfRule Duplicate)) }
{
    let mut out = Text::new(alloc);
    out.push_str("rule ")?;
    out.push_chars(name.chars())?;
    out.push_str(" declared twice")?;
    Ok(out)
}

/// Why a run ends at a rule when as many are declared as there may be.
pub fn too_many_rules_text(alloc: Global) -> Result<Text, Memory>
    ensures { IfOk result (λ t. (W : Declarations) (n : AnyName) → t ≡ fault_text W n (OfRule TooMany)) }
{
    fixed_text(alloc, "too many rules")
}

/// Why a run ends at a premise, counted from 1, that rests on an atom which is none of its rule's metavariables.
pub fn open_premise_text(
    alloc: Global,
    k: &Kernel,
    premise: u64,
    atom: Atom,
) -> Result<Text, Memory>
    ensures { IfOk result
        (λ t. (n : AnyName) →
        t ≡ fault_text (declared_by k.now.items) n (OfRule (OpenPremise premise (atom_of atom)))) }
{
    let mut out = Text::new(alloc);
    out.push_str("premise ")?;
    out.push_number(premise)?;
    out.push_str(" keeps ")?;
    push_atom(k, atom, &mut out)?;
    Ok(out)
}

/// Why a run ends at a conclusion that rests on an atom which is none of its rule's metavariables.
pub fn open_conclusion_text(alloc: Global, k: &Kernel, atom: Atom) -> Result<Text, Memory>
    ensures { IfOk result
        (λ t. (n : AnyName) →
        t ≡ fault_text (declared_by k.now.items) n (OfRule (OpenConclusion (atom_of atom)))) }
{
    let mut out = Text::new(alloc);
    out.push_str("conclusion keeps ")?;
    push_atom(k, atom, &mut out)?;
    Ok(out)
}
