//! Commands that are run, with their lines, up to the first rule of the name of an earlier one.

ghost use Rattle.std.specs.Prelude.{◌≡◌, ◌++◌, ◌∷◌, List, ℕ, [], Some, None, true, false, OnOk, OnErr, IfOk, IsErrOf};
ghost use Rattle.ft_theory.specs.Statements.{Claim, plain};
ghost use Rattle.ft_theory.specs.Steps.{Prim};
ghost use Rattle.ft_items.specs.Good.{is_new, Good};
ghost use Rattle.ft_judge.specs.Meaning.{claim_in};
ghost use Rattle.ft_applications_meaning.specs.Building.{theory, names, claim_of, declared};
ghost use Rattle.ft_applications_meaning.specs.Events.{Event, done, events};
ghost use Rattle.ft_applications_meaning.specs.Transcript.{accepted_line, repeated_line, shown_line, text_of, status_of, shown_in, AllDerivable};
ghost use Rattle.ft_applications_meaning.specs.Histories.{told, states, IsDerivationOf};
ghost use Rattle.ft_run.specs.Steps.{AllOfApplications};
ghost use Rattle.ft_applications.specs.declared.fault.Fault.TheVariants as fault;
ghost use Rattle.ft_run.specs.Session.{Keeps, IsClaimed, IsCounted};
ghost use Rattle.ft_run.specs.Running.{ending_status, IsDeclared, IsShown, WasRule, WasRun, WereRun, AreBuilt, AreBuiltWhere};

use crate::session::{Claimed, Ending, Run, Session};
use crate::texts::push_claim;
use ft_applications::Fault;
use ft_applications_meaning::{Application, Command, Conclusion, Premise};
use ft_base::{Memory, Name, Text};
use ft_judge::Form;
use std::alloc::Global;

// Appends the line of an accepted rule.
fn push_accepted(name: &Name, out: &mut Text) -> Result<(), Memory>
    ensures { OnOk result (out.new ≡ out.old ++ accepted_line name.now) }
{
    out.push_str("accepted ")?;
    out.push_chars(name.chars())?;
    out.push_str("\n")
}

// Appends the line of a rule of the name of an earlier one.
fn push_repeated(name: &Name, out: &mut Text) -> Result<(), Memory>
    ensures { OnOk result (out.new ≡ out.old ++ repeated_line name.now) }
{
    out.push_str("error rule ")?;
    out.push_chars(name.chars())?;
    out.push_str(" declared twice\n")
}

impl Session {
    // Appends the line of what is claimed.
    fn push_shown(&self, form: Form, out: &mut Text) -> Result<(), Memory>
        requires { (j : ℕ) × IsClaimed self.now.state (record { entry = j; form = form }) }
        ensures line { OnOk result (out.new ≡ out.old ++ shown_line (names self.now.rules) (claim_in self.now.state.trees form)) }
        ensures derivable { OnOk result (Prim (theory self.now.rules) [] [] (plain (claim_in self.now.state.trees form))) }
    {
        out.push_str("|- ")?;
        push_claim(self.kernel.terms(), &self.known, form, out)?;
        out.push_str("\n")
    }

    // Marks what is claimed as shown.
    fn mark(&mut self, shown: &Claimed) -> Result<(), Memory>
        requires { IsClaimed self.old.state shown.now }
        ensures told { OnOk result (told self.new.state.items ≡ told self.old.state.items ++ states (theory self.old.rules) (plain (claim_in self.old.state.trees shown.now.form)) [] ∷ []) }
        ensures rules { self.new.rules ≡ self.old.rules }
        ensures counted { IsCounted self.old → IsCounted self.new }
    {
        self.kernel.push_shown(shown.entry)
    }

    // Shows what an expression claims.
    fn show(&mut self, a: &Application, out: &mut Text) -> Result<(), Fault>
        requires counted { IsCounted self.old }
        ensures shown { OnOk result (IsShown self.old self.new out.old out.new a.now) }
        ensures none { IsErrOf result fault.NotYet → claim_of self.old.rules a.now ≡ None }
    {
        let shown = self.claim(a)?;
        self.push_shown(shown.form, out)?;
        self.mark(&shown)?;
        Ok(())
    }

    // Declares a rule of a new name, and says that it is accepted. One of the name of an earlier rule ends the run.
    fn rule_command(
        &mut self,
        name: &Name,
        premises: &[Premise],
        conclusion: &Conclusion,
        out: &mut Text,
    ) -> Result<Ending, Fault>
        requires counted { IsCounted self.old }
        ensures was { IfOk result (λ x. WasRule self.old self.new out.old out.new name.now premises.now conclusion.now x) }
        ensures none { IsErrOf result fault.NotYet → declared self.old.rules premises.now conclusion.now ≡ None }
    {
        if self.place(name).is_some() {
            push_repeated(name, out)?;
            return Ok(Ending::Twice);
        }
        self.declare(name, premises, conclusion)?;
        push_accepted(name, out)?;
        Ok(Ending::Done)
    }

    // Runs a command.
    #[tactic(auto, using(crate::proofs::Lines::rule_was_run, crate::proofs::Lines::show_was, crate::proofs::Lines::rule_undone, crate::proofs::Lines::show_undone))]
    fn command(&mut self, command: &Command, out: &mut Text) -> Result<Ending, Fault>
        requires counted { IsCounted self.old }
        ensures was { IfOk result (λ x. WasRun self.old self.new out.old out.new command.now x) }
        ensures none { IsErrOf result fault.NotYet → done self.old.rules command.now ≡ None }
    {
        match command {
            Command::Rule(name, premises, conclusion) => self.rule_command(
                name,
                premises.as_slice(),
                conclusion,
                out,
            ),
            Command::Show(a) => {
                self.show(a, out)?;
                Ok(Ending::Done)
            }
        }
    }

    // Runs commands, up to the first rule of the name of an earlier one.
    fn run_until(&mut self, commands: &[Command], out: &mut Text) -> Result<Ending, Fault>
        requires counted { IsCounted self.old }
        ensures were { IfOk result (λ x. WereRun self.old self.new out.old out.new commands.now x) }
        ensures built { IfOk result (λ x. AreBuiltWhere x self.old.rules commands.now) }
        ensures none { IsErrOf result fault.NotYet → events self.old.rules commands.now ≡ None }
    {
        for command in commands {
            let ending = self.command(command, out)?;
            match ending {
                Ending::Twice => return Ok(Ending::Twice),
                Ending::Done => {}
            }
        }
        Ok(Ending::Done)
    }

    // The session with how its run ended.
    fn ended(self, ending: Ending) -> Run
        ensures session { result.session ≡ self }
        ensures ending { result.ending ≡ ending }
        ensures good { Good self.state.items }
        ensures applications { AllOfApplications self.state.items }
    {
        let _terms = self.kernel.terms();
        Run {
            session: self,
            ending,
        }
    }
}

// Judges the commands of a run: after the end of the run all are built, else each is built once more, and the new session is
// dropped.
fn judge(alloc: Global, commands: &[Command], ending: Ending) -> Result<(), Fault>
    requires { AreBuiltWhere ending [] commands.now }
    ensures built { OnOk result (AreBuilt [] commands.now) }
    ensures none { IsErrOf result fault.NotYet → events [] commands.now ≡ None }
{
    match ending {
        Ending::Done => Ok(()),
        Ending::Twice => Session::new(alloc).judge(commands),
    }
}

/// Runs the commands of a source, and appends their lines, up to the first rule of the name of an earlier one. `NotYet` says
/// that one of them, before it or after it, is not built over the rules before it.
pub fn run(alloc: Global, commands: &[Command], out: &mut Text) -> Result<Run, Fault>
    ensures ok { IfOk result (λ r. (es : List Event) × (events [] commands.now ≡ Some es) × (out.new ≡ out.old ++ text_of es) × (ending_status r.ending ≡ status_of es)
        × AllDerivable (shown_in es) × IsDerivationOf r.session.state.items es × AllOfApplications r.session.state.items) }
    ensures none { IsErrOf result fault.NotYet → events [] commands.now ≡ None }
{
    let mut session = Session::new(alloc);
    let ending = session.run_until(commands, out)?;
    judge(alloc, commands, ending)?;
    Ok(session.ended(ending))
}
