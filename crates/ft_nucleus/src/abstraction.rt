//! Abstraction: a variable bound as the variable of a new first domain.

ghost use Rattle.std.specs.Prelude.{◌≡◌, ◌<◌, length, IfOk};
ghost use Rattle.ft_theory.specs.Rules.{look_up};
ghost use Rattle.ft_theory.specs.Statements.{abstracted, close_statement};
ghost use Rattle.ft_items.specs.Item.{by_abs};
ghost use Rattle.ft_items.specs.Sets.{var, union, without};
ghost use Rattle.ft_items.specs.Store.{declared_by};
ghost use Rattle.ft_items.specs.Rows.{rests_on as annotation_rests_on};
ghost use Rattle.ft_reference.specs.Checks.{first_dependent as least_dependent};
ghost use Rattle.ft_syntax.specs.Table.{tree};
ghost use Rattle.ft_judge.specs.Meaning.{thesis_in, boundary_in, ThesisBelow, BoundaryBelow};
ghost use Rattle.ft_assume.specs.Atoms.{atom_of, atoms_of};
ghost use Rattle.ft_kernel.specs.State.{IsThesisOf, IsBoundaryOf, IsVariableOf};
ghost use Rattle.ft_calls.specs.Answers.{Stays, Answers};
ghost use Rattle.ft_nucleus.specs.Named.{dependent_atom};

use crate::naming::{type_at, type_entry};
use ft_assume::{Assume, Atom};
use ft_base::Memory;
use ft_calls::{conclude, conclude_boundary};
use ft_judge::{Boundary, Fault, Refusal, Thesis};
use ft_kernel::{B, J, Kernel, Part, Step, V};
use ft_syntax::{E, SynFault};

/// The thesis with the variable bound.
pub fn abstract_var(k: &mut Kernel, v: V, j: J) -> Result<J, Fault>
    requires variable { IsVariableOf k.old v }
    requires thesis { IsThesisOf k.old j }
    ensures answers { Answers k.old (by_abs v j) result k.new }
    ensures thesis { IfOk result (λ j. IsThesisOf k.new j) }
{
    let entry = type_entry(k, v);
    if let Some(w) = first_dependent(k, v, k.asm_of(j).atoms()) {
        return Err(Fault::Refused(Refusal::DependentVariable(w)));
    }
    let ty = type_at(k, entry);
    let set = bound_set(k.asm_of(entry), v, k.asm_of(j))?;
    let thesis = k.thesis_of(j).copy()?;
    let closed = closed_thesis(k, &thesis, v.number(), ty)?;
    conclude(k, closed, set, Step::Abs(v, Part::Thesis(j)))
}

/// The boundary with the variable bound.
pub fn abstract_boundary(k: &mut Kernel, v: V, b: B) -> Result<B, Fault>
    requires variable { IsVariableOf k.old v }
    requires boundary { IsBoundaryOf k.old b }
    ensures answers { Answers k.old (by_abs v b) result k.new }
    ensures boundary { IfOk result (λ b. IsBoundaryOf k.new b) }
{
    let entry = type_entry(k, v);
    if let Some(w) = first_dependent(k, v, k.set_of(b).atoms()) {
        return Err(Fault::Refused(Refusal::DependentVariable(w)));
    }
    let ty = type_at(k, entry);
    let set = bound_set(k.asm_of(entry), v, k.set_of(b))?;
    let boundary = k.boundary_at(b).copy()?;
    let closed = closed_boundary(k, &boundary, v.number(), ty)?;
    conclude_boundary(k, closed, set, Step::Abs(v, Part::Boundary(b)))
}

// The first of the atoms, other than the variable, whose type rests on the variable.
fn first_dependent(k: &Kernel, v: V, atoms: &[Atom]) -> Option<u64>
    ensures { result ≡ least_dependent (declared_by k.now.items).variables v (atoms_of atoms.now) }
{
    for i in 0..atoms.len() {
        if let Some(w) = dependent(k, v, atoms[i]) {
            return Some(w);
        }
    }
    None
}

// The number of the atom, where it is another variable whose type rests on the variable.
fn dependent(k: &Kernel, v: V, atom: Atom) -> Option<u64>
    ensures { result ≡ dependent_atom (declared_by k.now.items).variables v (atom_of atom) }
{
    match atom {
        Atom::Met(_) => None,
        Atom::Var(w) => (w != v.number() && rests_on(k, v, w)).then_some(w),
    }
}

// Whether the type of the variable with the number w rests on the variable v.
fn rests_on(k: &Kernel, v: V, w: u64) -> bool
    ensures { result ≡ annotation_rests_on v (look_up (declared_by k.now.items).variables w) }
{
    let _terms = k.terms();
    match k.var_numbered(w) {
        Some(other) => k
            .asm_of(type_entry(k, other))
            .contains(Atom::Var(v.number())),
        None => false,
    }
}

// The set of a variable's type, and the other set without the variable.
fn bound_set(of_type: &Assume, v: V, set: &Assume) -> Result<Assume, Memory>
    ensures { IfOk result (λ s. s ≡ union of_type.now (without (var v) set.now)) }
{
    let rest = set.without(Atom::Var(v.number()))?;
    of_type.union(&rest)
}

// The thesis with the variable bound. It is small, as the thesis is.
fn closed_thesis(k: &mut Kernel, x: &Thesis, v: u64, ty: E) -> Result<Thesis, Memory>
    requires thesis { ThesisBelow (length k.old.trees) x.now }
    requires ty { ty < length k.old.trees }
    ensures within { IfOk result (λ r. ThesisBelow (length k.new.trees) r) }
    ensures thesis { IfOk result (λ r. thesis_in k.new.trees r ≡
        abstracted (tree k.old.trees ty) (close_statement v (thesis_in k.old.trees x.now))) }
    ensures stays { Stays k.old k.new }
{
    let _domains = x.domains.items();
    k.terms().are_small();
    match k.close_over(x, v, ty) {
        Ok(closed) => Ok(closed),
        Err(SynFault::Memory) => Err(Memory),
        Err(SynFault::TooBig) => unreachable!(),
    }
}

// The boundary with the variable bound. It is small, as the boundary is.
fn closed_boundary(k: &mut Kernel, x: &Boundary, v: u64, ty: E) -> Result<Boundary, Memory>
    requires boundary { BoundaryBelow (length k.old.trees) x.now }
    requires ty { ty < length k.old.trees }
    ensures within { IfOk result (λ r. BoundaryBelow (length k.new.trees) r) }
    ensures boundary { IfOk result (λ r. boundary_in k.new.trees r ≡
        abstracted (tree k.old.trees ty) (close_statement v (boundary_in k.old.trees x.now))) }
    ensures stays { Stays k.old k.new }
{
    let _domains = x.domains.items();
    k.terms().are_small();
    match k.close_over_boundary(x, v, ty) {
        Ok(closed) => Ok(closed),
        Err(SynFault::Memory) => Err(Memory),
        Err(SynFault::TooBig) => unreachable!(),
    }
}
