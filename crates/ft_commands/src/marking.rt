//! Marks of what is shown.

ghost use Rattle.std.specs.Prelude.{◌≡◌, ◌∷◌, [], List, ℕ, OnOk, OnErr};
ghost use Rattle.ft_kernel.specs.State.{IsThesisOf};
ghost use Rattle.ft_apply.specs.Named.{AreThesesOf};
ghost use Rattle.ft_commands.specs.Doing.{shown_by, with_marks};

use crate::done::Done;
use ft_base::Memory;
use ft_kernel::J;
use ft_running::State;

// Marks an entry as shown.
fn mark_one(state: &mut State, j: J) -> Result<(), Memory>
    requires { IsThesisOf state.old.list j }
    ensures ok { OnOk result (state.new ≡ with_marks (j ∷ []) state.old) }
    ensures err { OnErr result (state.new ≡ state.old) }
{
    state.holds();
    let _terms = state.kernel.terms();
    state.kernel.push_shown(j)
}

// Marks entries as shown, in their order; after `Memory` the first of them.
fn mark_all(state: &mut State, js: &[J]) -> Result<(), Memory>
    requires { AreThesesOf state.old.list js.now }
    ensures ok { OnOk result (state.new ≡ with_marks js.now state.old) }
    ensures err { OnErr result ((some : List ℕ) × (state.new ≡ with_marks some state.old)) }
{
    for j in js {
        mark_one(state, *j)?;
    }
    Ok(())
}

/// Marks what is shown; after `Memory` the first entries of it.
pub(crate) fn mark(state: &mut State, done: &Done) -> Result<(), Memory>
    requires { AreThesesOf state.old.list (shown_by done.now) }
    ensures ok { OnOk result (state.new ≡ with_marks (shown_by done.now) state.old) }
    ensures err { OnErr result ((some : List ℕ) × (state.new ≡ with_marks some state.old)) }
{
    match done {
        Done::Shown(js) => mark_all(state, js.as_slice()),
        Done::Accepted(_) => mark_all(state, &[]),
        Done::ShownNone => mark_all(state, &[]),
        Done::Quiet => mark_all(state, &[]),
    }
}
