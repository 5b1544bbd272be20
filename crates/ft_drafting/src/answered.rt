//! What calls of the nucleus answered over a state.

ghost use Rattle.std.specs.Prelude.{IfOk};
ghost use Rattle.ft_items.specs.Store.{Assertion};
ghost use Rattle.ft_kernel.specs.State.{IsThesisOf, IsBoundaryOf};
ghost use Rattle.ft_meaning.specs.Values as meaning;
ghost use Rattle.ft_rules.specs.Drafts.{IsPlainBoundaryOf};
ghost use Rattle.ft_telling.specs.Telling.{TellsJudgement, TellsStatement};
ghost use Rattle.ft_running.specs.Asked.{TellsGoal};
ghost use Rattle.ft_running.specs.Evaluation.{GoesFurther};
ghost use Rattle.ft_running.specs.Telling.{TellsValue};

use ft_kernel::{B, J};
use ft_running::{End, State};
use ft_telling::Halt;
use ft_values::Value;

/// The boundary that a call answered.
#[tactic(auto, using(ft_running::proofs::Ended::halt_told))]
pub(crate) fn goal(state: &State, answer: Result<B, Halt>) -> Result<B, End>
    requires { IfOk answer (λ b. IsBoundaryOf state.now.list b) }
    ensures tells { (o : meaning.Outcome Assertion)
        → TellsStatement o answer state.now.list state.now.units → TellsGoal o result state.now }
    ensures plain { IfOk answer (λ b. IsPlainBoundaryOf state.now.list b)
        → IfOk result (λ b. IsPlainBoundaryOf state.now.list b) }
{
    let _ = state;
    match answer {
        Ok(b) => Ok(b),
        Err(halt) => Err(End::from(halt)),
    }
}

/// The judgement that a call answered, as a value.
#[tactic(auto, using(ft_running::proofs::Ended::judgement_kept, ft_running::proofs::Ended::halt_told, ft_running::proofs::Ended::memory_told, ft_running::proofs::Further::further_same))]
pub(crate) fn concluded(state: &mut State, answer: Result<J, Halt>) -> Result<Value, End>
    requires { IfOk answer (λ j. IsThesisOf state.old.list j) }
    ensures tells { (o : meaning.Outcome meaning.Value)
        → TellsJudgement o answer state.old.list state.old.units
        → TellsValue o result state.new }
    ensures further { GoesFurther state.old state.new }
{
    state.holds();
    match answer {
        Ok(j) => match state.keep_judgement(j) {
            Ok(value) => Ok(value),
            Err(memory) => Err(End::from(memory)),
        },
        Err(halt) => Err(End::from(halt)),
    }
}
