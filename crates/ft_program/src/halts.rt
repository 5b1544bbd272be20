//! The last line of a run that a command halts.

ghost use Rattle.std.specs.Prelude.{◌≡◌, IfOk};
ghost use Rattle.ft_items.specs.Store.{Declarations, declared_by};
ghost use Rattle.ft_meaning.specs.Trees.{command_of};
ghost use Rattle.ft_meaning.specs.Values.{OfRule};
ghost use Rattle.ft_meaning.specs.Faults.{fault_text};
ghost use Rattle.ft_meaning.specs.Transcript.{rule_name};
ghost use Rattle.ft_reference.specs.Declare.{Duplicate};
ghost use Rattle.ft_program.specs.Running.{IsHalted, IsHalting, IsEnding, IsRuleText};

use crate::commands::Step;
use ft_base::{Memory, Text};
use ft_commands::{EvalFault, EvalWhy};
use ft_grammar::Command;
use ft_kernel::Kernel;
use ft_print::{
    duplicate_rule_text, error_line, no_match_text, open_conclusion_text, open_premise_text,
    refused_text, spent_line, too_many_rules_text, unhandled_text,
};
use ft_rules::RuleFault;
use ft_running::State;
use ft_whole_answers::Status;
use std::alloc::Global;

// The line of a fault at a place, with its status.
fn ends(alloc: Global, source: &str, at: u64, why: &Text, status: Status) -> Result<Step, Memory>
    ensures { IfOk result (λ s. IsEnding source.now at why.now status s) }
{
    let line = error_line(alloc, source, at, why.bytes())?;
    Ok(Step::Ends(line, status))
}

// Why the rule of a command is not declared, whose name is that of an earlier one.
fn duplicate(alloc: Global, c: &Command) -> Result<Text, Memory>
    ensures { IfOk result (λ t. (W : Declarations)
        → t ≡ fault_text W (rule_name (command_of c.now)) (OfRule Duplicate)) }
{
    if let Command::Rule(_, name, _, _) = c {
        return duplicate_rule_text(alloc, &name.name);
    }
    let mut text = Text::new(alloc);
    text.push_str("rule ")?;
    text.push_str(" declared twice")?;
    Ok(text)
}

// Why the rule of a command is not declared.
fn rule_text(alloc: Global, k: &Kernel, c: &Command, fault: &RuleFault) -> Result<Text, Memory>
    ensures { IfOk result (λ t. IsRuleText (declared_by k.now.items)
        (rule_name (command_of c.now)) fault.now t) }
{
    match fault {
        RuleFault::Duplicate => duplicate(alloc, c),
        RuleFault::TooMany => too_many_rules_text(alloc),
        RuleFault::OpenPremise(premise, atom) => open_premise_text(alloc, k, *premise, *atom),
        RuleFault::OpenConclusion(atom) => open_conclusion_text(alloc, k, *atom),
        RuleFault::Memory => Err(Memory),
    }
}

/// The last line of a run that a command halts, with the status.
#[tactic(auto, using(crate::proofs::Halting::spent_halts, crate::proofs::Halting::unhandled_halts, crate::proofs::Halting::refused_halts, crate::proofs::Halting::no_match_halts, crate::proofs::Halting::rule_halts))]
pub(crate) fn halted(
    state: &State,
    source: &str,
    c: &Command,
    fault: &EvalFault,
) -> Result<Step, Memory>
    requires { IsHalting state.now fault.now }
    ensures { IfOk result (λ s. IsHalted source.now (command_of c.now) state.now fault.now s) }
{
    let alloc = state.allocator();
    let at = fault.at;
    match &fault.why {
        EvalWhy::Memory => Err(Memory),
        EvalWhy::Spent => Ok(Step::Ends(spent_line(alloc, source, at)?, Status::Spent)),
        EvalWhy::Unhandled(name) => {
            let why = unhandled_text(alloc, name)?;
            ends(alloc, source, at, &why, Status::Unhandled)
        }
        EvalWhy::Refused(refusal) => {
            let why = refused_text(alloc, &state.kernel, refusal)?;
            ends(alloc, source, at, &why, Status::Refused)
        }
        EvalWhy::NoMatch => {
            let why = no_match_text(alloc)?;
            ends(alloc, source, at, &why, Status::NoMatch)
        }
        EvalWhy::Rule(rule) => {
            let why = rule_text(alloc, &state.kernel, c, rule)?;
            ends(alloc, source, at, &why, Status::Rule)
        }
    }
}
