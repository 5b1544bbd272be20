//! The machine: frames that wait on a stack in memory, and turns until a value is left or the
//! evaluation ends.

ghost use Rattle.std.specs.Prelude.{◌≡◌, ◌<◌, ◌+◌, ◌++◌, ◌∷◌, [], ℕ, List, IfOk, OnOk, OnErr, Ok, length};
ghost use Rattle.ft_meaning.specs.Trees.{form};
ghost use Rattle.ft_meaning.specs.Values.{Outcome, Value as AnyValue};
ghost use Rattle.ft_running.specs.Evaluation.{Evaluation, run_of, value_over, environment_of};
ghost use Rattle.ft_running.specs.Evaluation.{IsValueOf, IsScopeIn, GoesFurther};
ghost use Rattle.ft_running.specs.Telling.{TellsValue};
ghost use Rattle.ft_eval.specs.Asking.{AsksNothing};
ghost use Rattle.ft_eval.specs.Fits.{AllFit, Fits, TurnFits};
ghost use Rattle.ft_eval.specs.Frames.{value_of, passed, passed_all, turned};
ghost use Rattle.ft_eval.specs.Turns.{StepsInto, frames_left, work_left};
ghost use Rattle.ft_eval.specs.Progress.{ProgressesTo, IfFurther};
ghost use Rattle.ft_eval.specs.declared.frames.Frame.{Frame as AnyFrame};
ghost use Rattle.ft_eval.specs.declared.frames.Turn.TheVariants as turn;

use crate::entering::enter;
use crate::frames::{Frame, Turn};
use crate::resuming::resume;
use crate::unwinding::outwards;
use ft_base::Memory;
use ft_grammar::Ast;
use ft_running::{End, State};
use ft_values::{Scope, Value};

// A value that no frame waits for, or a further turn.
#[derive(Drop)]
enum Progress<'a> {
    Done(Value),
    Further(Turn<'a>),
}

// One more frame waits.
fn push<'a>(stack: &mut Vec<Frame<'a>>, frame: Frame<'a>) -> Result<(), Memory>
    ensures ok { OnOk result (stack.new.items ≡ stack.old.items ++ frame.entry ∷ []) }
    ensures err { OnErr result (stack.new.items ≡ stack.old.items) }
{
    stack.push(frame)?;
    Ok(())
}

// A value is given to a frame that is taken off the stack.
fn give_to<'a>(
    state: &mut State,
    stack: &mut Vec<Frame<'a>>,
    frame: Frame<'a>,
    v: Value,
) -> Result<Turn<'a>, End>
    requires frames { AllFit state.old stack.old.items }
    requires frame { Fits state.old frame }
    requires value { IsValueOf state.old v }
    ensures steps { StepsInto
        (passed_all state.old stack.old.items
        (passed state.old frame.entry (Ok (value_over state.old v), run_of state.old)))
        result stack.new.items state.new }
    ensures further { GoesFurther state.old state.new }
    ensures frames { AllFit state.new stack.new.items }
    ensures fits { IfOk result (λ t. TurnFits state.new t) }
    ensures falls { IfOk result
        (λ t. frames_left stack.new.items t < length stack.old.items + 2) }
{
    state.holds();
    let Frame { scope, work } = frame;
    let answer = resume(state, scope, work, v);
    outwards(state, stack, answer)
}

// An expression is gone into.
fn go_into<'a>(
    state: &mut State,
    stack: &mut Vec<Frame<'a>>,
    e: &'a Ast,
    scope: Scope,
) -> Result<Turn<'a>, End>
    requires frames { AllFit state.old stack.old.items }
    requires scope { IsScopeIn state.old scope }
    requires asks { AsksNothing (form e.now) }
    ensures steps { StepsInto
        (passed_all state.old stack.old.items
        (value_of e.now (environment_of state.old scope) (run_of state.old)))
        result stack.new.items state.new }
    ensures further { GoesFurther state.old state.new }
    ensures frames { AllFit state.new stack.new.items }
    ensures fits { IfOk result (λ t. TurnFits state.new t) }
    ensures falls { IfOk result (λ t. work_left state.new stack.new.items t
        < work_left state.old stack.old.items (turn.Evaluate e.entry scope)) }
{
    state.holds();
    let answer = enter(state, e, scope);
    state.holds();
    outwards(state, stack, answer)
}

// An expression is gone into, and a frame waits for its value.
fn wait_for<'a>(
    state: &mut State,
    stack: &mut Vec<Frame<'a>>,
    e: &'a Ast,
    frame: Frame<'a>,
) -> Result<Turn<'a>, End>
    requires frames { AllFit state.old stack.old.items }
    requires frame { Fits state.old frame }
    requires asks { AsksNothing (form e.now) }
    ensures steps { StepsInto
        (passed_all state.old stack.old.items
        (passed state.old frame.entry
        (value_of e.now (environment_of state.old frame.entry.scope) (run_of state.old))))
        result stack.new.items state.new }
    ensures further { GoesFurther state.old state.new }
    ensures frames { AllFit state.new stack.new.items }
    ensures fits { IfOk result (λ t. TurnFits state.new t) }
    ensures falls { IfOk result (λ t. work_left state.new stack.new.items t
        < work_left state.old stack.old.items (turn.Await e.entry frame.entry)) }
{
    let scope = frame.scope;
    push(stack, frame)?;
    go_into(state, stack, e, scope)
}

// What a turn answered, as progress.
fn further<'a>(answer: Result<Turn<'a>, End>) -> Result<Progress<'a>, End>
    ensures steps { (o : Outcome AnyValue) (fs : List AnyFrame) (S : Evaluation)
        → StepsInto o answer.entry fs S → ProgressesTo o result fs S }
    ensures fits { (S : Evaluation) → IfOk answer.entry (λ t. TurnFits S t)
        → IfFurther result (λ t. TurnFits S t) }
    ensures falls { (S : Evaluation) (fs : List AnyFrame) (n : ℕ)
        → IfOk answer.entry (λ t. work_left S fs t < n)
        → IfFurther result (λ t. work_left S fs t < n) }
{
    match answer {
        Ok(turn) => Ok(Progress::Further(turn)),
        Err(end) => Err(end),
    }
}

// A turn of the machine.
fn step<'a>(
    state: &mut State,
    stack: &mut Vec<Frame<'a>>,
    turn: Turn<'a>,
) -> Result<Progress<'a>, End>
    requires frames { AllFit state.old stack.old.items }
    requires turn { TurnFits state.old turn }
    ensures steps { ProgressesTo
        (passed_all state.old stack.old.items (turned state.old turn.entry))
        result stack.new.items state.new }
    ensures further { GoesFurther state.old state.new }
    ensures frames { AllFit state.new stack.new.items }
    ensures fits { IfFurther result (λ t. TurnFits state.new t) }
    ensures falls { IfFurther result (λ t. work_left state.new stack.new.items t
        < work_left state.old stack.old.items turn.entry) }
{
    state.holds();
    match turn {
        Turn::Give(v) => match stack.pop() {
            None => Ok(Progress::Done(v)),
            Some(frame) => further(give_to(state, stack, frame, v)),
        },
        Turn::Evaluate(e, scope) => further(go_into(state, stack, e, scope)),
        Turn::Await(e, frame) => further(wait_for(state, stack, e, frame)),
    }
}

/// The value of an expression in a scope.
pub fn evaluate(state: &mut State, e: &Ast, scope: Scope) -> Result<Value, End>
    requires scope { IsScopeIn state.old scope }
    requires asks { AsksNothing (form e.now) }
    ensures tells { TellsValue
        (value_of e.now (environment_of state.old scope) (run_of state.old))
        result state.new }
    ensures further { GoesFurther state.old state.new }
{
    state.holds();
    let mut stack = Vec::new(state.allocator());
    let mut turn = Turn::Evaluate(e, scope);
    'running: loop {
        match step(state, &mut stack, turn) {
            Ok(Progress::Done(v)) => return Ok(v),
            Ok(Progress::Further(next)) => turn = next,
            Err(end) => return Err(end),
        }
    }
}
