//! Values that are shown.

ghost use Rattle.std.specs.Prelude.{◌≡◌, ◌∷◌, [], List, ℕ, Ok, IfOk, OnOk, OnErr};
ghost use Rattle.ft_kernel.specs.State.{IsThesisOf};
ghost use Rattle.ft_apply.specs.Named.{AreThesesOf};
ghost use Rattle.ft_meaning.specs.Commands.{shown};
ghost use Rattle.ft_meaning.specs.Commands as command;
ghost use Rattle.ft_values.specs.Kept.{stated_at};
ghost use Rattle.ft_running.specs.Evaluation.{run_of, value_over, IsValueOf};
ghost use Rattle.ft_commands.specs.Doing.{TellsShown, shown_part, shown_list, shown_by};
ghost use Rattle.ft_commands.specs.Doing.{with_marks};

use crate::done::Done;
use ft_base::Memory;
use ft_kernel::J;
use ft_running::{End, State};
use ft_telling::Why;
use ft_values::Value;

// One judgement.
fn single(state: &State, j: J) -> Result<Vec<J>, Memory>
    ensures { IfOk result (λ js. js.items ≡ j ∷ []) }
{
    let mut js = Vec::new(state.allocator());
    js.push(j)?;
    Ok(js)
}

// A judgement is shown.
#[tactic(auto, using(crate::proofs::Shown::one_shown, crate::proofs::Shown::memory_shown))]
fn one(state: &State, j: J) -> Result<Done, End>
    requires { IsThesisOf state.now.list j }
    ensures { TellsShown
        (Ok (command.Shown (stated_at state.now.list j ∷ [])), run_of state.now) result state.now }
{
    match single(state, j) {
        Ok(js) => Ok(Done::Shown(js)),
        Err(memory) => Err(End::from(memory)),
    }
}

// What an option holds is shown.
#[tactic(auto, using(crate::proofs::Shown::part_shown, crate::proofs::Shown::no_part))]
fn part(state: &State, v: Value) -> Result<Done, End>
    requires { IsValueOf state.now v }
    ensures { TellsShown (shown_part (value_over state.now v) (run_of state.now)) result state.now }
{
    match state.judgement(v) {
        Some(j) => one(state, j),
        None => Err(End::halts(0, Why::Stuck)),
    }
}

// A list of judgements is shown.
#[tactic(auto, using(crate::proofs::Shown::list_shown, crate::proofs::Shown::no_list, crate::proofs::Shown::memory_shown))]
fn listed(state: &State, v: Value) -> Result<Done, End>
    requires { IsValueOf state.now v }
    ensures { TellsShown (shown_list (value_over state.now v) (run_of state.now)) result state.now }
{
    match state.judgements(v) {
        Ok(Some(js)) => Ok(Done::Shown(js)),
        Ok(None) => Err(End::halts(0, Why::Stuck)),
        Err(memory) => Err(End::from(memory)),
    }
}

/// What a value shows.
#[tactic(auto, using(crate::proofs::Shown::shows_judgement, crate::proofs::Shown::shows_part, crate::proofs::Shown::shows_none, crate::proofs::Shown::shows_list))]
pub(crate) fn shown(state: &State, v: Value) -> Result<Done, End>
    requires { IsValueOf state.now v }
    ensures { TellsShown (shown (value_over state.now v) (run_of state.now)) result state.now }
{
    if let Some(j) = state.judgement(v) {
        return one(state, j);
    }
    if let Some(held) = state.option_part(v) {
        return part(state, held);
    }
    if state.is_none(v) {
        return Ok(Done::ShownNone);
    }
    listed(state, v)
}
