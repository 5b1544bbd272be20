//! Atoms that are none of a draft's metavariables.

ghost use Rattle.std.specs.Prelude.{◌≡◌, map, option_map};
ghost use Rattle.ft_items.specs.Sets.{met, has};
ghost use Rattle.ft_reference.specs.Declare.{first_outside};
ghost use Rattle.ft_assume.specs.Atoms.{atom_of, atoms_of};
ghost use Rattle.ft_rules.specs.Drafts.{InOrder};

use ft_assume::Atom;
use ft_kernel::M;

// Whether the atom is one of the metavariables.
#[tactic(auto, using(crate::proofs::Own::no_variable))]
fn is_own(atom: Atom, own: &[M]) -> bool
    requires { InOrder own.now }
    ensures { result ≡ has (atom_of atom) (map met own.now) }
{
    match atom {
        Atom::Met(m) => own.binary_search_by_key(&m, |p| p.number()).is_ok(),
        Atom::Var(_) => false,
    }
}

/// The first of the atoms that is none of the metavariables. It takes no memory.
#[tactic(auto, using(crate::proofs::Own::looking_start, crate::proofs::Own::looking_more, crate::proofs::Own::looking_found, crate::proofs::Own::looking_end))]
pub(crate) fn outside(atoms: &[Atom], own: &[M]) -> Option<Atom>
    requires { InOrder own.now }
    ensures { option_map atom_of result ≡
        first_outside (map met own.now) (atoms_of atoms.now) }
{
    for i in 0..atoms.len() {
        if !is_own(atoms[i], own) {
            return Some(atoms[i]);
        }
    }
    None
}
