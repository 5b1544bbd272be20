//! Variables with their types.

ghost use Rattle.std.specs.Prelude.{◌≡◌, ◌<◌, ◌∷◌, [], List, None, Some, length, option_map, take, IfSome, IsSomeAnd};
ghost use Rattle.ft_theory.specs.Expressions.{Expression};
ghost use Rattle.ft_items.specs.Store.{Annotation, variables_in, declared_by};
ghost use Rattle.ft_items.specs.Rows.{depends as depends_in, rests_on};
ghost use Rattle.ft_items.specs.Good.{Good};
ghost use Rattle.ft_theory.specs.Rules.{look_up};
ghost use Rattle.ft_stated.specs.Lines.{item_in};
ghost use Rattle.ft_assume.specs.Atoms.{atom_of};
ghost use Rattle.ft_check.specs.Entries.{variable_in, variable_of};
ghost use Rattle.ft_check.specs.Typing.{IsTyped};

use crate::entry::entry_before;
use ft_assume::{Assume, Atom};
use ft_stated::{Stated, StatedItems};
use ft_steps::plain_type;
use ft_syntax::E;

// The entry of the variable's type, where a variable is stated.
fn type_entry(x: &Stated) -> Option<u64>
    ensures { (ts : List Expression) → result ≡ option_map (λ y. y.2)
        (variable_of (item_in ts x.now)) }
{
    match x {
        Stated::Var(_, _, p) => Some(*p),
        _ => None,
    }
}

// The entry of the type of the variable of a number before place `i`, or None where there is none.
#[tactic(auto, using(crate::proofs::TypeEntries::first_within, crate::proofs::TypeEntries::type_absent, crate::proofs::TypeEntries::type_later, crate::proofs::TypeEntries::type_there))]
fn type_before(items: &StatedItems, i: u64, v: u64) -> Option<u64>
    ensures { result ≡ option_map (λ x. x.2) (variable_in v (variables_in (take i items.now.items))) }
{
    let place = items.var_place(v)?;
    if place < i {
        type_entry(items.item(place))
    } else {
        None
    }
}

/// The type of a variable, and what it rests on.
#[derive(Clone, Copy)]
pub struct Typed<'a> {
    pub ty: E,
    pub set: &'a Assume,
}

/// The type of the variable of a number before place `i`, with its set; None where there is no variable.
pub fn typed_before(items: &StatedItems, i: u64, v: u64) -> Option<Typed<'_>>
    ensures is { (d : Annotation) → Good (take i items.now.items)
        → look_up (declared_by (take i items.now.items)).variables v ≡ Some d
        → IsSomeAnd result (λ x. IsTyped items.now.trees x d) }
    ensures none { Good (take i items.now.items)
        → look_up (declared_by (take i items.now.items)).variables v ≡ None → result ≡ None }
    ensures below { IfSome result (λ x. x.ty < length items.now.trees) }
{
    let p = type_before(items, i, v)?;
    let entry = entry_before(items, i, p)?;
    let parts = entry.parts();
    let ty = plain_type(&parts)?;
    Some(Typed {
        ty,
        set: entry.set(),
    })
}

// Whether the type of the variable `w` rests on the variable `v`.
fn type_rests_on(items: &StatedItems, i: u64, v: u64, w: u64) -> bool
    ensures { Good (take i items.now.items) → result ≡
        rests_on v (look_up (declared_by (take i items.now.items)).variables w) }
{
    match typed_before(items, i, w) {
        None => false,
        Some(x) => x.set.contains(Atom::Var(v)),
    }
}

// Whether the atom is a variable other than `v` whose type rests on `v`.
#[tactic(auto, using(crate::proofs::Bindings::same_variable, crate::proofs::Bindings::other_variable, crate::proofs::Bindings::no_variable))]
fn is_dependent(items: &StatedItems, i: u64, v: u64, a: Atom) -> bool
    ensures { Good (take i items.now.items) → result ≡
        depends_in (declared_by (take i items.now.items)).variables v (atom_of a ∷ []) }
{
    match a {
        Atom::Met(_) => false,
        Atom::Var(w) => {
            if w == v {
                false
            } else {
                type_rests_on(items, i, v, w)
            }
        }
    }
}

/// Whether a variable of the set, other than `v`, has a type that rests on `v`.
#[tactic(auto, using(crate::proofs::Bindings::depends_next, crate::proofs::Bindings::depends_found, crate::proofs::Bindings::depends_end))]
pub fn depends(items: &StatedItems, i: u64, v: u64, set: &Assume) -> bool
    ensures { Good (take i items.now.items) → result ≡
        depends_in (declared_by (take i items.now.items)).variables v set.now }
{
    let atoms = set.atoms();
    for k in 0..atoms.len() {
        if is_dependent(items, i, v, atoms[k]) {
            return true;
        }
    }
    false
}
