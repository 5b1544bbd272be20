//! Atoms that alone are mentioned.

ghost use Rattle.std.specs.Prelude.{◌≡◌, ◌++◌, OnOk};
ghost use Rattle.ft_items.specs.Store.{declared_by};
ghost use Rattle.ft_assume.specs.Atoms.{atom_of};
ghost use Rattle.ft_meaning.specs.Faults.{atom_text};

use crate::names::{push_metavariable, push_variable};
use ft_assume::Atom;
use ft_base::{Memory, Text};
use ft_kernel::Kernel;

// Appends an atom, in a line that mentions no other variable.
pub fn push_atom(k: &Kernel, atom: Atom, out: &mut Text) -> Result<(), Memory>
    ensures ok { OnOk result
        (out.new ≡ out.old ++ atom_text (declared_by k.now.items) (atom_of atom)) }
{
    // That the list is good comes with its table.
    let _terms = k.terms();
    match atom {
        Atom::Met(m) => push_metavariable(k, m, out),
        Atom::Var(v) => push_variable(k, &[v], v, out),
    }
}
