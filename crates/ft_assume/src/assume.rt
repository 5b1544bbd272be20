//! Sets of assumptions.

ghost use Rattle.std.specs.Prelude.{◌≡◌, ◌+◌, ◌<◌, ◌≤◌, ◌∷◌, [], length, IfOk, not};
ghost use Rattle.std.specs.List.{filter, list_any};
ghost use Rattle.ft_items.specs.Sets.{union as union_of, without as without_atom, has, is_within, same_atom, Ascending};
ghost use Rattle.ft_assume.specs.Atoms.{atom_of, atoms_of};
ghost use Rattle.ft_assume.specs.Merge.{next_of};

use crate::atom::{Atom, precedes, same};
use ft_base::Memory;
use std::alloc::Global;
use std::marker::Model;

/// A set of atoms, which contracts see as the strictly ascending list of them.
#[derive(Debug, Drop)]
pub struct Assume {
    atoms: Vec<Atom>,
}

impl Model for Assume {
    ghost use Rattle.std.specs.Prelude.{List};
    ghost use Rattle.ft_items.specs.Sets.{Atom as AnyAtom, Ascending};
    ghost use Rattle.ft_assume.specs.Atoms.{atoms_of};

    ghost Value = { List AnyAtom };

    ghost view = { λ s. atoms_of s.atoms.items };

    ghost invariant = { λ s. Ascending (atoms_of s.atoms.items) };
}

impl Assume {
    /// The empty set. It takes no memory.
    pub fn new(alloc: Global) -> Assume
        ensures { result ≡ [] }
    {
        Assume {
            atoms: Vec::new(alloc),
        }
    }

    /// The set of one atom.
    pub fn single(alloc: Global, a: Atom) -> Result<Assume, Memory>
        ensures { IfOk result (λ s. s ≡ atom_of a ∷ []) }
    {
        let mut atoms = Vec::new(alloc);
        atoms.push(a)?;
        Ok(Assume { atoms })
    }

    /// The atoms of both sets.
    #[tactic(auto, using(ft_items::proofs::SetLemmas::ascending_union))]
    pub fn union(&self, other: &Assume) -> Result<Assume, Memory>
        ensures { IfOk result (λ s. s ≡ union_of self.now other.now) }
    {
        let alloc = *self.atoms.allocator();
        Ok(Assume {
            atoms: merge(alloc, &self.atoms, &other.atoms)?,
        })
    }

    /// The set with the atom taken out.
    #[tactic(auto, using(ft_items::proofs::SetLemmas::ascending_without))]
    pub fn without(&self, a: Atom) -> Result<Assume, Memory>
        ensures { IfOk result (λ s. s ≡ without_atom (atom_of a) self.now) }
    {
        let alloc = *self.atoms.allocator();
        Ok(Assume {
            atoms: others(alloc, &self.atoms, a)?,
        })
    }

    /// An equal set.
    pub fn copy(&self) -> Result<Assume, Memory>
        ensures { IfOk result (λ s. s ≡ self.now) }
    {
        Ok(Assume {
            atoms: self.atoms.clone()?,
        })
    }

    /// Whether the atom is in the set. It takes no memory.
    pub fn contains(&self, a: Atom) -> bool
        ensures { result ≡ has (atom_of a) self.now }
    {
        is_among(a, &self.atoms)
    }

    /// Whether each atom of the set is in the other one. It takes no memory.
    pub fn is_subset(&self, other: &Assume) -> bool
        ensures { result ≡ is_within self.now other.now }
    {
        is_part(&self.atoms, &other.atoms)
    }

    /// The atoms in ascending order. It takes no memory.
    pub fn atoms(&self) -> &[Atom]
        ensures atoms { atoms_of result.now ≡ self.now }
        ensures order { Ascending self.now }
    {
        self.atoms.as_slice()
    }
}

// The atoms of a list that are not this one.
fn others(alloc: Global, atoms: &[Atom], a: Atom) -> Result<Vec<Atom>, Memory>
    ensures { IfOk result (λ v. v.items ≡ filter (λ b. not (same_atom (atom_of a) (atom_of b))) atoms.now) }
{
    let others = atoms
        .iter()
        .copied()
        .filter(|b| !same(a, *b))
        .collect(alloc)?;
    Ok(others)
}

// Whether the atom is in a list.
fn is_among(a: Atom, atoms: &[Atom]) -> bool
    ensures { result ≡ list_any (λ b. same_atom (atom_of a) (atom_of b)) atoms.now }
{
    atoms.iter().any(|b| same(a, *b))
}

// The less of the two atoms that are next in two lists, and how many of each list it stands for.
#[tactic(auto, unfolding(crate::specs::Merge::next_of))]
fn next(a: Atom, b: Atom) -> (Atom, usize, usize)
    ensures next { result ≡ next_of a b }
    ensures left { result.1 ≤ 1 }
    ensures right { result.2 ≤ 1 }
    ensures some { 0 < result.1 + result.2 }
{
    if precedes(a, b) {
        (a, 1, 0)
    } else if precedes(b, a) {
        (b, 0, 1)
    } else {
        (a, 1, 1)
    }
}

// The union of two ascending lists.
fn merge(alloc: Global, left: &[Atom], right: &[Atom]) -> Result<Vec<Atom>, Memory>
    requires left { Ascending (atoms_of left.now) }
    requires right { Ascending (atoms_of right.now) }
    ensures { IfOk result (λ v. atoms_of v.items ≡ union_of (atoms_of left.now) (atoms_of right.now)) }
{
    let mut out = Vec::new(alloc);
    let mut i = 0usize;
    let mut j = 0usize;
    'merging: while i < left.len() && j < right.len() {
        let (atom, from_left, from_right) = next(left[i], right[j]);
        out.push(atom)?;
        i += from_left;
        j += from_right;
    }
    out.extend_from_slice(&left[i..])?;
    out.extend_from_slice(&right[j..])?;
    Ok(out)
}

// Whether the first of two ascending lists is part of the second.
fn is_part(left: &[Atom], right: &[Atom]) -> bool
    requires left { Ascending (atoms_of left.now) }
    requires right { Ascending (atoms_of right.now) }
    ensures { result ≡ is_within (atoms_of left.now) (atoms_of right.now) }
{
    let mut i = 0usize;
    let mut j = 0usize;
    'walking: while i < left.len() && j < right.len() {
        let (_, from_left, from_right) = next(left[i], right[j]);
        if from_right == 0 {
            return false;
        }
        i += from_left;
        j += from_right;
    }
    i == left.len()
}
