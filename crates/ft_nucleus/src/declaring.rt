//! Declarations of variables and of metavariables.

ghost use Rattle.std.specs.Prelude.{◌≡◌, ◌≤◌, ◌<◌, ◌+◌, ◌^◌, length, IfOk};
ghost use Rattle.ft_items.specs.Store.{variables_in, metavariables_in};
ghost use Rattle.ft_reference.specs.Declare.{first_variable as least_variable};
ghost use Rattle.ft_assume.specs.Atoms.{atom_of, atoms_of};
ghost use Rattle.ft_kernel.specs.State.{next_number, IsThesisOf, IsBoundaryOf, IsVariableOf};
ghost use Rattle.ft_calls.specs.Declaring.{DeclaresVariable, DeclaresMetavariable};
ghost use Rattle.ft_nucleus.specs.Named.{variable_of_atom};

use crate::naming::plain_type;
use ft_assume::Atom;
use ft_base::Name;
use ft_judge::{Fault, Refusal};
use ft_kernel::{B, J, Kernel, M, MetItem, V, VarItem};

/// A variable of the type that is derived. Its number is greater than that of each earlier one.
pub fn new_var(k: &mut Kernel, number: u64, name: &Name, ty: J) -> Result<V, Fault>
    requires thesis { IsThesisOf k.old ty }
    requires next { next_number (variables_in k.old.items) ≤ number }
    requires number { number + 1 < 2 ^ 64 }
    ensures declares { DeclaresVariable k.old number name.now ty result k.new }
    ensures variable { IfOk result (λ v. IsVariableOf k.new v) }
{
    let _terms = k.terms();
    let _type = match plain_type(k, ty) {
        Ok(a) => a,
        Err(refusal) => return Err(Fault::Refused(refusal)),
    };
    let name = name.copy()?;
    Ok(k.push_var(VarItem { number, name, ty })?)
}

/// A metavariable with the boundary that is derived, which rests on no variable.
pub fn new_meta(k: &mut Kernel, name: &Name, b: B) -> Result<M, Fault>
    requires boundary { IsBoundaryOf k.old b }
    ensures declares { DeclaresMetavariable k.old name.now b result k.new }
    ensures metavariable { IfOk result (λ m. m < length (metavariables_in k.new.items)) }
{
    let _terms = k.terms();
    match first_variable(k.set_of(b).atoms()) {
        Some(v) => return Err(Fault::Refused(Refusal::OpenBoundary(v))),
        None => {}
    }
    let name = name.copy()?;
    Ok(k.push_met(MetItem { name, boundary: b })?)
}

// The first variable among the atoms.
fn first_variable(atoms: &[Atom]) -> Option<u64>
    ensures { result ≡ least_variable (atoms_of atoms.now) }
{
    for i in 0..atoms.len() {
        if let Some(v) = variable_of(atoms[i]) {
            return Some(v);
        }
    }
    None
}

// The number of an atom that is a variable.
fn variable_of(atom: Atom) -> Option<u64>
    ensures { result ≡ variable_of_atom (atom_of atom) }
{
    match atom {
        Atom::Var(v) => Some(v),
        Atom::Met(_) => None,
    }
}
