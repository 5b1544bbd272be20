//! Atoms of a set of assumptions.

ghost use Rattle.std.specs.Prelude.{◌≡◌};
ghost use Rattle.ft_items.specs.Sets.{precedes as stands_before, same_atom};
ghost use Rattle.ft_assume.specs.Atoms.{atom_of};

/// A metavariable or a free variable, by its number. Metavariables come first, then the order is by number.
#[derive(Clone, Copy, Debug, PartialEq, Eq, PartialOrd, Ord, Hash, Drop)]
pub enum Atom {
    Met(u64),
    Var(u64),
}

// Whether the first stands before the second in a set.
pub fn precedes(a: Atom, b: Atom) -> bool
    ensures { result ≡ stands_before (atom_of a) (atom_of b) }
{
    match (a, b) {
        (Atom::Met(m), Atom::Met(n)) => m < n,
        (Atom::Met(_), Atom::Var(_)) => true,
        (Atom::Var(_), Atom::Met(_)) => false,
        (Atom::Var(v), Atom::Var(w)) => v < w,
    }
}

// Whether both are one atom.
pub fn same(a: Atom, b: Atom) -> bool
    ensures { result ≡ same_atom (atom_of a) (atom_of b) }
{
    a == b
}
