//! Sets of assumptions.

use ft_assume::{Assume, Atom};
use std::test::Fail;

#[test]
fn sets_are_joined_and_atoms_taken_out(rt: HostRuntime) -> Result<(), Fail> {
    let variable = Assume::single(rt.alloc(), Atom::Var(3))?;
    let metavariable = Assume::single(rt.alloc(), Atom::Met(7))?;
    let both = variable.union(&metavariable)?;
    assert_eq!(rt; both.atoms(), [Atom::Met(7), Atom::Var(3)].as_slice());
    assert_eq!(rt; both.copy()?.atoms(), both.atoms());
    let rest = both.without(Atom::Met(7))?;
    assert_eq!(rt; rest.atoms(), [Atom::Var(3)].as_slice());
    assert!(rt; Assume::new(rt.alloc()).atoms().is_empty());
    Ok(())
}
