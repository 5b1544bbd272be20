//! What metavariables and theses of a list are: boundaries and sets.

ghost use Rattle.std.specs.Prelude.{◌≡◌, ◌<◌, length, IfOk};
ghost use Rattle.ft_items.specs.Sets.{met, insert, union, unions};
ghost use Rattle.ft_items.specs.Store.{metavariables_in};
ghost use Rattle.ft_items.specs.Rows.{sets as sets_in};
ghost use Rattle.ft_kernel.specs.State.{IsBoundaryOf};
ghost use Rattle.ft_judge.specs.Meaning.{boundary_in, BoundaryBelow};
ghost use Rattle.ft_metas.specs.Named.{entry_of, entries_of, declared_of, AreThesesOf};

use ft_assume::{Assume, Atom};
use ft_base::Memory;
use ft_judge::Boundary;
use ft_kernel::{B, J, Kernel, M};
use std::alloc::Global;

// The entry of a metavariable's boundary. It takes no memory.
fn boundary_entry(k: &Kernel, m: M) -> B
    requires { m < length (metavariables_in k.now.items) }
    ensures boundary { IsBoundaryOf k.now result }
    ensures statement { (declared_of k.now.items m).boundary ≡
        (entry_of k.now.items result).statement }
    ensures set { (declared_of k.now.items m).set ≡ (entry_of k.now.items result).set }
{
    k.met(m).boundary
}

/// The boundary of a metavariable.
pub(crate) fn boundary_of(k: &Kernel, m: M) -> Result<Boundary, Memory>
    requires { m < length (metavariables_in k.now.items) }
    ensures within { IfOk result (λ b. BoundaryBelow (length k.now.trees) b) }
    ensures boundary { IfOk result (λ b.
        boundary_in k.now.trees b ≡ (declared_of k.now.items m).boundary) }
{
    k.boundary_at(boundary_entry(k, m)).copy()
}

/// The metavariable, with the set of its boundary.
pub(crate) fn own_set(alloc: Global, k: &Kernel, m: M) -> Result<Assume, Memory>
    requires { m < length (metavariables_in k.now.items) }
    ensures { IfOk result (λ s. s ≡ insert (met m) (declared_of k.now.items m).set) }
{
    let entry = boundary_entry(k, m);
    Assume::single(alloc, Atom::Met(m.number()))?.union(k.set_of(entry))
}

/// The metavariable, with the set of its boundary and those of the theses.
pub(crate) fn set_at(alloc: Global, k: &Kernel, m: M, args: &[J]) -> Result<Assume, Memory>
    requires metavariable { m < length (metavariables_in k.now.items) }
    requires arguments { AreThesesOf k.now args.now }
    ensures { IfOk result (λ s. s ≡ insert (met m) (union (declared_of k.now.items m).set
        (unions (sets_in (entries_of k.now.items args.now))))) }
{
    let entry = boundary_entry(k, m);
    let rest = k.set_of(entry).union(&sets(alloc, k, args)?)?;
    Assume::single(alloc, Atom::Met(m.number()))?.union(&rest)
}

// The sets of theses, together.
#[tactic(auto, using(crate::proofs::Naming::thesis_named, crate::proofs::Naming::joining_start, crate::proofs::Naming::joining_more, crate::proofs::Naming::joining_end))]
fn sets(alloc: Global, k: &Kernel, args: &[J]) -> Result<Assume, Memory>
    requires { AreThesesOf k.now args.now }
    ensures { IfOk result (λ s. s ≡ unions (sets_in (entries_of k.now.items args.now))) }
{
    let mut set = Assume::new(alloc);
    for i in 0..args.len() {
        let last = args[args.len() - 1 - i];
        set = k.asm_of(last).union(&set)?;
    }
    Ok(set)
}
