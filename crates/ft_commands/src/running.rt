//! The run of a command.

ghost use Rattle.std.specs.Prelude.{◌≡◌, ◌≢◌, ℕ, map, IfErr, OnErr};
ghost use Rattle.ft_meaning.specs.Trees.{command_of, form, premise};
ghost use Rattle.ft_meaning.specs.Trees.{rule_command, let_command, show_command};
ghost use Rattle.ft_meaning.specs.Commands.{done, run_command};
ghost use Rattle.ft_values.specs.Kept.{HasMore};
ghost use Rattle.ft_running.specs.Evaluation.{run_of};
ghost use Rattle.ft_eval.specs.Asking.{AsksNothing};
ghost use Rattle.ft_eval.specs.CommandsAsking.{CommandAsksNothing};
ghost use Rattle.ft_eval.specs.CommandsAsking.{BodyAsksNothing, PremisesAskNothing};
ghost use Rattle.ft_commands.specs.Parts.{conclusion_of, conclusion_place};
ghost use Rattle.ft_commands.specs.Doing.{named_in, IsTyped, TellsDoing, TellsRun, IsQuiet};
ghost use Rattle.ft_commands.specs.Doing.{IsMemoryStop, IsNotStuck};
ghost use Rattle.ft_commands.specs.declared.done.EvalWhy.TheVariants as why;

use crate::done::{Done, EvalFault};
use crate::faults::fault_of;
use crate::marking::mark;
use crate::rules::declare_rule;
use crate::showing::shown;
use ft_drafting::Stop;
use ft_eval::evaluate;
use ft_grammar::{Ast, Command, Conclusion, Named, Premise};
use ft_meaning_laws::typed_commands_fit;
use ft_running::{End, State};
use ft_values::Scope;

// A rule is declared.
#[tactic(auto, using(crate::proofs::Doing::accepted, crate::proofs::Doing::rule_stops, crate::proofs::Doing::memory_stops, crate::proofs::Doing::quiet_further, crate::proofs::Doing::quiet_same, crate::proofs::Doing::more_further, crate::proofs::Doing::more_told, crate::proofs::Doing::more_same))]
fn accept(
    state: &mut State,
    name: &Named,
    premises: &[Premise],
    conclusion: &Conclusion,
) -> Result<Done, Stop>
    requires premises { PremisesAskNothing (map premise premises.now) }
    requires conclusion { BodyAsksNothing (conclusion_of conclusion.now) }
    ensures tells { (at : ℕ) → TellsDoing
        (done (rule_command at name.now (map premise premises.now)
        (conclusion_place conclusion.now) (conclusion_of conclusion.now)) (named_in state.old)
        (run_of state.old)) state.old result state.new }
    ensures quiet { IfErr result (λ s. (IsMemoryStop s → ⊥) → IsQuiet state.old state.new) }
    ensures names { OnErr result (state.new.top ≡ state.old.top) }
    ensures more { HasMore state.old.list state.new.list }
{
    let accepted = match name.name.copy() {
        Ok(accepted) => accepted,
        Err(memory) => return Err(Stop::Ends(End::from(memory))),
    };
    match declare_rule(state, name, premises, conclusion) {
        Ok(()) => Ok(Done::Accepted(accepted)),
        Err(stop) => Err(stop),
    }
}

// A value is named.
#[tactic(auto, using(crate::proofs::Doing::value_named, crate::proofs::Doing::naming_ends, crate::proofs::Doing::memory_stops, crate::proofs::Doing::quiet_further, crate::proofs::Doing::more_further))]
fn name_value(state: &mut State, name: &Named, e: &Ast) -> Result<Done, Stop>
    requires asks { AsksNothing (form e.now) }
    ensures tells { (at : ℕ) → TellsDoing
        (done (let_command at name.now (form e.now)) (named_in state.old) (run_of state.old))
        state.old result state.new }
    ensures quiet { IfErr result (λ s. (IsMemoryStop s → ⊥) → IsQuiet state.old state.new) }
    ensures names { OnErr result (state.new.top ≡ state.old.top) }
    ensures more { HasMore state.old.list state.new.list }
{
    state.holds();
    let v = match evaluate(state, e, Scope::Top) {
        Ok(v) => v,
        Err(end) => return Err(Stop::Ends(end)),
    };
    match state.declare(&name.name, v) {
        Ok(()) => Ok(Done::Quiet),
        Err(memory) => Err(Stop::Ends(End::from(memory))),
    }
}

// A value is shown.
#[tactic(auto, using(crate::proofs::Doing::value_shown, crate::proofs::Doing::showing_ends, crate::proofs::Doing::shown_ends, crate::proofs::Doing::memory_stops, crate::proofs::Doing::quiet_further, crate::proofs::Doing::more_further, crate::proofs::Doing::more_marked, crate::proofs::Doing::told_theses))]
fn show(state: &mut State, e: &Ast) -> Result<Done, Stop>
    requires asks { AsksNothing (form e.now) }
    ensures tells { (at : ℕ) → TellsDoing
        (done (show_command at (form e.now)) (named_in state.old) (run_of state.old))
        state.old result state.new }
    ensures quiet { IfErr result (λ s. (IsMemoryStop s → ⊥) → IsQuiet state.old state.new) }
    ensures names { OnErr result (state.new.top ≡ state.old.top) }
    ensures more { HasMore state.old.list state.new.list }
{
    state.holds();
    let v = match evaluate(state, e, Scope::Top) {
        Ok(v) => v,
        Err(end) => return Err(Stop::Ends(end)),
    };
    state.holds();
    let done = match shown(state, v) {
        Ok(done) => done,
        Err(end) => return Err(Stop::Ends(end)),
    };
    match mark(state, &done) {
        Ok(()) => Ok(done),
        Err(memory) => Err(Stop::Ends(End::from(memory))),
    }
}

// A command is done.
#[tactic(auto, using(crate::proofs::Doing::rule_is_done, crate::proofs::Doing::rule_asks, crate::proofs::Doing::operation_done, crate::proofs::Doing::more_same))]
fn perform(state: &mut State, c: &Command) -> Result<Done, Stop>
    requires asks { CommandAsksNothing (command_of c.now) }
    ensures tells { TellsDoing
        (done (command_of c.now) (named_in state.old) (run_of state.old)) state.old result
        state.new }
    ensures quiet { IfErr result (λ s. (IsMemoryStop s → ⊥) → IsQuiet state.old state.new) }
    ensures names { OnErr result (state.new.top ≡ state.old.top) }
    ensures more { HasMore state.old.list state.new.list }
{
    state.holds();
    match c {
        Command::Rule(_, name, premises, conclusion) => {
            accept(state, name, premises.as_slice(), conclusion)
        }
        Command::Let(_, name, e) => name_value(state, name, e),
        Command::Operation(_, _, _, _) => Ok(Done::Quiet),
        Command::Computation(_, _) => unreachable!(),
        Command::Extensionality(_, _) => unreachable!(),
        Command::Show(_, e) => show(state, e),
    }
}

/// Runs a command that has a type and asks nothing of the equality checker. What it accepts and shows
/// is added to the list; a fault adds no rule and shows nothing, and names stay.
#[tactic(auto, using(crate::proofs::Doing::not_stuck))]
pub fn run_command(state: &mut State, c: &Command) -> Result<Done, EvalFault>
    requires typed { IsTyped (command_of c.now) state.old }
    requires asks { CommandAsksNothing (command_of c.now) }
    ensures tells { TellsRun
        (run_command (command_of c.now) (named_in state.old) (run_of state.old)) state.old result
        state.new }
    ensures quiet { IfErr result (λ f. f.why ≢ why.Memory → IsQuiet state.old state.new) }
    ensures names { OnErr result (state.new.top ≡ state.old.top) }
    ensures more { HasMore state.old.list state.new.list }
{
    typed_commands_fit();
    match perform(state, c) {
        Ok(done) => {
            state.clear_scopes();
            Ok(done)
        }
        Err(stop) => {
            state.clear_scopes();
            Err(fault_of(stop))
        }
    }
}
