//! Reading sets of atoms.

ghost use Rattle.std.specs.Prelude.{◌≡◌, [], length, Some, None, IfOk};
ghost use Rattle.ft_items.specs.Sets.{precedes as stands_before, Ascending};
ghost use Rattle.ft_assume.specs.Atoms.{atom_of, atoms_of};
ghost use Rattle.ft_lines.specs.Sets as spec;
ghost use Rattle.ft_lines.specs.Reading.{Reads};

use crate::cursor::Cursor;
use crate::fault::Fault;
use ft_assume::{Assume, Atom};
use ft_base::Memory;
use sqlite_items::Items;
use std::alloc::Global;

/// The set that is next.
#[tactic(auto, using(crate::proofs::Atoms::listed_ascending), unfolding(crate::specs::Sets::set))]
pub fn set(alloc: Global, text: &mut Cursor<'_>) -> Result<Assume, Fault>
    ensures { Reads (spec.set text.old) result text.new }
{
    let found = listed(alloc, text)?;
    Ok(assume(alloc, found.as_slice())?)
}

// The ascending atoms in brackets that are next.
#[tactic(auto, unfolding(crate::specs::Sets::listed))]
fn listed(alloc: Global, text: &mut Cursor<'_>) -> Result<Items<Atom>, Fault>
    ensures { Reads (spec.listed text.old) result text.new }
{
    text.expect(b'[')?;
    if text.passes(b']') {
        return Ok(Items::new(alloc));
    }
    let found = atoms(alloc, text)?;
    text.expect(b']')?;
    Ok(found)
}

#[tactic(auto, unfolding(crate::specs::Sets::atoms_from))]
fn atoms(alloc: Global, text: &mut Cursor<'_>) -> Result<Items<Atom>, Fault>
    ensures { Reads (spec.atoms_from (length text.old) None [] text.old) result text.new }
{
    let mut found = Items::new(alloc);
    let mut last = None;
    for _turn in 0..text.left() {
        let a = atom(text)?;
        if !follows(last, a) {
            return Err(Fault::Form);
        }
        last = Some(a);
        found.push(a)?;
        if !text.passes(b',') {
            return Ok(found);
        }
    }
    Err(Fault::Form)
}

// Whether the atom stands after the last one, where there is one.
fn follows(last: Option<Atom>, a: Atom) -> bool
    ensures { result ≡ spec.follows last a }
{
    match last {
        None => true,
        Some(b) => precedes(b, a),
    }
}

// Whether the first stands before the second in a set.
fn precedes(a: Atom, b: Atom) -> bool
    ensures { result ≡ stands_before (atom_of a) (atom_of b) }
{
    match (a, b) {
        (Atom::Met(m), Atom::Met(n)) => m < n,
        (Atom::Met(_), Atom::Var(_)) => true,
        (Atom::Var(_), Atom::Met(_)) => false,
        (Atom::Var(v), Atom::Var(w)) => v < w,
    }
}

#[tactic(auto, unfolding(crate::specs::Sets::atom))]
fn atom(text: &mut Cursor<'_>) -> Result<Atom, Fault>
    ensures { Reads (spec.atom text.old) result text.new }
{
    if text.passes(b'm') {
        Ok(Atom::Met(text.number()?))
    } else if text.passes(b'v') {
        Ok(Atom::Var(text.number()?))
    } else {
        Err(Fault::Form)
    }
}

// The set of ascending atoms.
#[tactic(auto, using(crate::proofs::Atoms::ascending_take, crate::proofs::Atoms::ascending_drop, crate::proofs::Atoms::union_halves))]
fn assume(alloc: Global, atoms: &[Atom]) -> Result<Assume, Memory>
    requires { Ascending (atoms_of atoms.now) }
    ensures { IfOk result (λ s. s ≡ atoms_of atoms.now) }
{
    match atoms {
        [] => Ok(Assume::new(alloc)),
        [only] => Assume::single(alloc, *only),
        _ => {
            let (first, second) = atoms.split_at(atoms.len() / 2);
            let second = assume(alloc, second)?;
            assume(alloc, first)?.union(&second)
        }
    }
}
