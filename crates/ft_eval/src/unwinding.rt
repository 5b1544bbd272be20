//! Operations that go outwards.

ghost use Rattle.std.specs.Prelude.{◌≡◌, ◌<◌, ◌⊎◌, [], IfOk, IfSome, IfNone, Err, length, map};
ghost use Rattle.ft_meaning.specs.Trees.{handlers};
ghost use Rattle.ft_meaning.specs.Values.{Outcome, Value as AnyValue};
ghost use Rattle.ft_meaning.specs.Forms.{of_operation};
ghost use Rattle.ft_meaning.proofs.Written.{handler};
ghost use Rattle.ft_running.specs.Evaluation.{Evaluation, run_of, value_over, environment_of};
ghost use Rattle.ft_running.specs.Evaluation.{IsValueOf, IsScopeIn, GoesFurther};
ghost use Rattle.ft_running.specs.Telling.{performs};
ghost use Rattle.ft_eval.specs.Asking.{HandlersAskNothing};
ghost use Rattle.ft_eval.specs.Fits.{AllFit, Fits, WorkFits, TurnFits, AnswerFits};
ghost use Rattle.ft_eval.specs.Frames.{passed, passed_all, handlers_of, TurnsInto};
ghost use Rattle.ft_eval.specs.Turns.{StepsInto, turn_left, frames_left, IsTurnOf};

use crate::frames::{Frame, Turn, Work};
use crate::resuming::within;
use ft_grammar::OpCase;
use ft_running::{End, Operation, State};
use ft_values::Scope;

// The cases for operations, where a `handle` waits.
fn cases_of<'a>(work: &Work<'a>) -> Option<&'a [OpCase]>
    ensures some { IfSome result (λ hs. map handler hs.now ≡ handlers_of work.now) }
    ensures none { IfNone result (handlers_of work.now ≡ []) }
    ensures asks { (S : Evaluation) → WorkFits S work.now
        → IfSome result (λ hs. HandlersAskNothing (handlers (map handler hs.now))) }
{
    match work {
        Work::Handle(hs) | Work::HandleValue(_, hs) => Some(*hs),
        _ => None,
    }
}

// An operation goes to the first case for it, or further outwards.
#[tactic(auto, using(crate::proofs::Handling::case_taken, crate::proofs::Handling::case_passed, crate::proofs::Handling::cases_ask))]
fn handle<'a>(
    state: &mut State,
    scope: Scope,
    hs: &'a [OpCase],
    operation: Operation,
) -> Result<Turn<'a>, End>
    requires scope { IsScopeIn state.old scope }
    requires argument { IsValueOf state.old operation.argument }
    requires asks { HandlersAskNothing (handlers (map handler hs.now)) }
    ensures turns { TurnsInto
        (of_operation (handlers (map handler hs.now)) operation.name
        (value_over state.old operation.argument) operation.at (environment_of state.old scope)
        (run_of state.old))
        result state.new }
    ensures further { GoesFurther state.old state.new }
    ensures fits { IfOk result (λ t. TurnFits state.new t) }
    ensures evaluates { IfOk result (λ t. turn_left t ≡ 0) }
{
    for h in hs {
        if h.operation.name == operation.name {
            return within(state, scope, &h.argument, operation.argument, h.body.get());
        }
    }
    Err(End::Performs(operation))
}

// An operation comes to a frame.
fn pass<'a>(state: &mut State, frame: &Frame<'a>, operation: Operation) -> Result<Turn<'a>, End>
    requires frame { Fits state.old frame.now }
    requires argument { IsValueOf state.old operation.argument }
    ensures turns { TurnsInto
        (passed state.old frame.now (Err (performs operation state.old), run_of state.old))
        result state.new }
    ensures further { GoesFurther state.old state.new }
    ensures fits { IfOk result (λ t. TurnFits state.new t) }
    ensures evaluates { IfOk result (λ t. turn_left t ≡ 0) }
{
    match cases_of(&frame.work) {
        Some(hs) => handle(state, frame.scope, hs, operation),
        None => Err(End::Performs(operation)),
    }
}

/// An operation goes outwards to the innermost frame that has a case for it. The case is evaluated
/// outside that frame.
pub fn unwind<'a>(
    state: &mut State,
    stack: &mut Vec<Frame<'a>>,
    operation: Operation,
) -> Result<Turn<'a>, End>
    requires frames { AllFit state.old stack.old.items }
    requires argument { IsValueOf state.old operation.argument }
    ensures steps { StepsInto
        (passed_all state.old stack.old.items (Err (performs operation state.old), run_of state.old))
        result stack.new.items state.new }
    ensures further { GoesFurther state.old state.new }
    ensures frames { AllFit state.new stack.new.items }
    ensures fits { IfOk result (λ t. TurnFits state.new t) }
    ensures falls { IfOk result (λ t. frames_left stack.new.items t < length stack.old.items) }
{
    state.holds();
    let mut operation = operation;
    'outwards: while let Some(frame) = stack.pop() {
        match pass(state, &frame, operation) {
            Ok(turn) => return Ok(turn),
            Err(End::Performs(further)) => operation = further,
            Err(End::Halts(halt)) => return Err(End::Halts(halt)),
        }
    }
    Err(End::Performs(operation))
}

/// What a turn answered: an operation that is performed goes outwards.
pub fn outwards<'a>(
    state: &mut State,
    stack: &mut Vec<Frame<'a>>,
    answer: Result<Turn<'a>, End>,
) -> Result<Turn<'a>, End>
    requires frames { AllFit state.old stack.old.items }
    requires answer { AnswerFits state.old answer }
    ensures steps { (o : Outcome AnyValue) → TurnsInto o answer.entry state.old
        → StepsInto (passed_all state.old stack.old.items o) result stack.new.items state.new }
    ensures further { GoesFurther state.old state.new }
    ensures frames { AllFit state.new stack.new.items }
    ensures fits { IfOk result (λ t. TurnFits state.new t) }
    ensures falls { IfOk result
        (λ t. IsTurnOf answer.entry stack.old.items stack.new.items t
        ⊎ (frames_left stack.new.items t < length stack.old.items)) }
{
    match answer {
        Ok(turn) => Ok(turn),
        Err(End::Performs(operation)) => unwind(state, stack, operation),
        Err(End::Halts(halt)) => Err(End::Halts(halt)),
    }
}
