//! The run of the commands of a source, one by one.

ghost use Rattle.std.specs.Prelude.{◌≡◌, ◌<◌, [], All, length, map, IfOk};
ghost use Rattle.ft_meaning.specs.Trees.{command_of};
ghost use Rattle.ft_meaning.specs.Typing.{first_scope};
ghost use Rattle.ft_meaning.specs.Transcript.{transcript_from, start};
ghost use Rattle.ft_meaning.specs.CommandTyping.{scope_after};
ghost use Rattle.ft_eval.specs.CommandsAsking.{CommandAsksNothing};
ghost use Rattle.ft_program.specs.Running.{IsReady, ahead, Steps, StepsFrom, commands_left};
ghost use Rattle.ft_program.specs.Running.{performed, IsTypedFor, IsLines};
ghost use Rattle.ft_meaning.specs.Texts.{Text as AnyText};

use crate::halts::halted;
use crate::lines::{told, untyped};
use ft_base::{Memory, Text, Units};
use ft_commands::run_command;
use ft_grammar::Command;
use ft_meaning_laws::typed_commands_fit;
use ft_running::State;
use ft_types::{Scope, check_command};
use ft_whole_answers::Status;
use std::alloc::Global;

/// The commands that are still to be run, the last first; the scope and the state before them.
#[derive(Drop)]
pub struct Run {
    rest: Vec<Command>,
    scope: Scope,
    state: State,
}

/// What a step gives: the lines of a command, after which the run goes on; or the run is over, with
/// a last text and its status.
#[derive(Drop)]
pub enum Step {
    Lines(Text),
    Ends(Text, Status),
}

impl Run {
    /// The run of these commands within a budget, before the first of them.
    #[tactic(auto, using(crate::proofs::Stepping::run_ready, crate::proofs::Stepping::run_ahead))]
    pub fn new(alloc: Global, commands: Vec<Command>, budget: u64) -> Result<Run, Memory>
        requires { All CommandAsksNothing (map command_of commands.items) }
        ensures ready { IfOk result (λ r. IsReady r) }
        ensures ahead { IfOk result (λ r. (source : AnyText) → ahead source r
            ≡ transcript_from source (map command_of commands.items) first_scope [] (start budget)) }
    {
        typed_commands_fit();
        let scope = Scope::new(alloc)?;
        let mut rest = commands;
        rest.reverse();
        let state = State::new(alloc, Units::new(budget));
        Ok(Run { rest, scope, state })
    }

    /// The next step of the run of a source.
    #[tactic(auto, using(crate::proofs::Stepping::run_over, crate::proofs::Stepping::first_asks, crate::proofs::Stepping::rest_asks, crate::proofs::Stepping::typed_for, crate::proofs::Stepping::typed_steps, crate::proofs::Stepping::untyped_ends, crate::proofs::Stepping::more_same))]
    pub fn next(&mut self, source: &str) -> Result<Step, Memory>
        requires { IsReady self.old }
        ensures steps { Steps source.now self.old result self.new }
        ensures shorter { IfOk result (λ s. IsLines s
            → length self.new.rest.items < length self.old.rest.items) }
    {
        let alloc = self.state.allocator();
        let command = match self.rest.pop() {
            Some(command) => command,
            None => return Ok(Step::Ends(Text::new(alloc), Status::Done)),
        };
        match check_command(alloc, &mut self.scope, command) {
            Ok(typed) => self.perform(source, typed.command()),
            Err(fault) => untyped(alloc, source, &fault),
        }
    }

    // A command that has a type is run.
    #[tactic(auto, using(crate::proofs::Stepping::is_typed, crate::proofs::Stepping::telling, crate::proofs::Stepping::halts, crate::proofs::Stepping::done_steps, crate::proofs::Stepping::halted_steps))]
    fn perform(&mut self, source: &str, c: &Command) -> Result<Step, Memory>
        requires typed { IsTypedFor (command_of c.now) self.old }
        requires asks { CommandAsksNothing (command_of c.now) }
        requires rest { All CommandAsksNothing (commands_left self.old) }
        ensures steps { StepsFrom source.now (performed source.now (command_of c.now) self.old)
            self.old.state.list result self.new }
        ensures rest { self.new.rest ≡ self.old.rest }
    {
        typed_commands_fit();
        match run_command(&mut self.state, c) {
            Ok(done) => told(&self.state, &done),
            Err(fault) => halted(&self.state, source, c, &fault),
        }
    }
}
