//! Sets of assumptions as text.

ghost use Rattle.std.specs.Prelude.{◌≡◌, ◌++◌, OnOk};
ghost use Rattle.ft_items.specs.Sets.{Ascending};
ghost use Rattle.ft_items.specs.Texts.{atom_text, set_text, AtomFits, EachAtomFits};
ghost use Rattle.ft_assume.specs.Atoms.{atom_of};

use crate::pieces::{comma_before, push_lettered};
use ft_assume::{Assume, Atom};
use ft_base::{Memory, Text};

// Appends a set: its atoms in brackets.
pub fn push_set(set: &Assume, out: &mut Text) -> Result<(), Memory>
    ensures ok { OnOk result (out.new ≡ out.old ++ set_text set.now) }
    ensures fits { OnOk result (EachAtomFits set.now) }
    ensures ascending { Ascending set.now }
{
    let atoms = set.atoms();
    out.push_str("[")?;
    for i in 0..atoms.len() {
        out.push_str(comma_before(i as u64))?;
        push_atom(atoms[i], out)?;
    }
    out.push_str("]")
}

// Appends an atom.
fn push_atom(atom: Atom, out: &mut Text) -> Result<(), Memory>
    ensures ok { OnOk result (out.new ≡ out.old ++ atom_text (atom_of atom)) }
    ensures fits { AtomFits (atom_of atom) }
{
    match atom {
        Atom::Met(m) => push_lettered("m", m, out),
        Atom::Var(v) => push_lettered("v", v, out),
    }
}
