//! What sets rest on.

ghost use Rattle.std.specs.Prelude.{◌≡◌, ◌∷◌, [], map, nat_eq};
ghost use Rattle.std.specs.List.{list_all, list_any};
ghost use Rattle.ft_items.specs.Sets.{met, same_atom, is_within as within, metavariables_only};
ghost use Rattle.ft_items.specs.Rows.{differ as all_differ};
ghost use Rattle.ft_assume.specs.Atoms.{atom_of};

use ft_assume::{Assume, Atom};

fn is_listed(m: u64, ms: &[u64]) -> bool
    ensures { result ≡ list_any (λ n. nat_eq m n) ms.now }
{
    ms.iter().any(|n| m == *n)
}

// Whether the atom is one of the metavariables.
#[tactic(auto, using(crate::proofs::OfSets::no_variable))]
fn is_one_of(a: Atom, ms: &[u64]) -> bool
    ensures { result ≡ list_any (λ n. same_atom (atom_of a) (met n)) ms.now }
{
    match a {
        Atom::Met(m) => is_listed(m, ms),
        Atom::Var(_) => false,
    }
}

fn are_among(atoms: &[Atom], ms: &[u64]) -> bool
    ensures { result ≡ list_all (λ a. list_any (λ n. same_atom (atom_of a) (met n)) ms.now)
        atoms.now }
{
    atoms.iter().all(|a| is_one_of(*a, ms))
}

/// Whether each atom of the set is one of the metavariables.
#[tactic(auto, using(crate::proofs::OfSets::within_all))]
pub fn is_within(set: &Assume, ms: &[u64]) -> bool
    ensures { result ≡ within set.now (map met ms.now) }
{
    are_among(set.atoms(), ms)
}

fn is_metavariable(a: Atom) -> bool
    ensures { result ≡ metavariables_only (atom_of a ∷ []) }
{
    match a {
        Atom::Met(_) => true,
        Atom::Var(_) => false,
    }
}

fn are_metavariables(atoms: &[Atom]) -> bool
    ensures { result ≡ list_all (λ a. metavariables_only (atom_of a ∷ [])) atoms.now }
{
    atoms.iter().all(|a| is_metavariable(*a))
}

/// Whether no variable is in the set.
#[tactic(auto, using(crate::proofs::OfSets::metavariables_all))]
pub fn has_no_variable(set: &Assume) -> bool
    ensures { result ≡ metavariables_only set.now }
{
    are_metavariables(set.atoms())
}

/// Whether no metavariable stands twice.
#[tactic(auto, using(crate::proofs::OfSets::differ_next, crate::proofs::OfSets::differ_not, crate::proofs::OfSets::differ_end))]
pub fn differ(ms: &[u64]) -> bool
    ensures { result ≡ all_differ (map met ms.now) }
{
    for k in 0..ms.len() {
        let m = ms[k];
        if is_listed(m, &ms[k + 1..]) {
            return false;
        }
    }
    true
}
