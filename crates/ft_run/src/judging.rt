//! Commands that are built, while nothing is run.

ghost use Rattle.std.specs.Prelude.{◌≡◌, ℕ, List, [], nat_lt, length, Some, None, true, false, OnOk, IsErrOf};
ghost use Rattle.ft_theory.specs.Statements.{Statement};
ghost use Rattle.ft_theory.specs.Rules.{Rule};
ghost use Rattle.ft_applications_meaning.specs.Building.{premises_of, declared, with_rule};
ghost use Rattle.ft_applications_meaning.specs.Events.{Event, done, events};
ghost use Rattle.ft_applications.specs.declared.fault.Fault.TheVariants as fault;
ghost use Rattle.ft_run.specs.Session.{Keeps, IsCounted};
ghost use Rattle.ft_run.specs.Running.{AreBuilt};

use crate::asking::Asked;
use crate::session::{Claimed, Session};
use ft_applications::Fault;
use ft_applications_meaning::{Command, Conclusion, Premise};
use ft_base::Name;
use ft_base::limits::MAX_RULES;

impl Session {
    // Whether there is room for one more rule.
    fn has_room(&self) -> bool
        ensures { result ≡ nat_lt (length self.now.rules) MAX_RULES }
    {
        (self.known.len() as u64) < MAX_RULES
    }

    // Whether premises ask for something; no metavariables are made for them.
    fn ask(&mut self, premises: &[Premise]) -> Result<(), Fault>
        ensures some { OnOk result ((m : ℕ) → (qs : List (ℕ × Statement)) × (premises_of self.old.rules m [] premises.now ≡ Some qs)) }
        ensures none { IsErrOf result fault.NotYet → (m : ℕ) → premises_of self.old.rules m [] premises.now ≡ None }
        ensures keeps { Keeps self.old self.new }
    {
        for i in 0..premises.len() {
            let Asked {
                goal: _goal,
                ty: _ty,
            } = self.wanted(&premises[..i], &premises[i])?;
        }
        Ok(())
    }

    // Whether a rule is built, that is not declared.
    fn is_built(&mut self, premises: &[Premise], conclusion: &Conclusion) -> Result<(), Fault>
        ensures some { OnOk result ((R : Rule) × (declared self.old.rules premises.now conclusion.now ≡ Some R)) }
        ensures none { IsErrOf result fault.NotYet → declared self.old.rules premises.now conclusion.now ≡ None }
        ensures keeps { Keeps self.old self.new }
    {
        if !self.has_room() {
            return Err(Fault::NotYet);
        }
        self.ask(premises)?;
        let Asked {
            goal: _goal,
            ty: _ty,
        } = self.concluded(premises, conclusion)?;
        Ok(())
    }

    // Declares a rule of a new name. One of the name of an earlier rule is built, and not declared.
    fn build_rule(
        &mut self,
        name: &Name,
        premises: &[Premise],
        conclusion: &Conclusion,
    ) -> Result<(), Fault>
        requires counted { IsCounted self.old }
        ensures done { OnOk result ((R : Rule) × (declared self.old.rules premises.now conclusion.now ≡ Some R) × (self.new.rules ≡ with_rule self.old.rules name.now R)) }
        ensures counted { OnOk result (IsCounted self.new) }
        ensures none { IsErrOf result fault.NotYet → declared self.old.rules premises.now conclusion.now ≡ None }
    {
        if self.place(name).is_some() {
            return self.is_built(premises, conclusion);
        }
        self.declare(name, premises, conclusion)
    }

    // Builds a command over the rules before it.
    #[tactic(auto, using(crate::proofs::Lines::rule_built, crate::proofs::Lines::rule_undone, crate::proofs::Lines::show_undone))]
    fn build(&mut self, command: &Command) -> Result<(), Fault>
        requires counted { IsCounted self.old }
        ensures done { OnOk result ((e : Event) × (done self.old.rules command.now ≡ Some (self.new.rules, e))) }
        ensures counted { OnOk result (IsCounted self.new) }
        ensures none { IsErrOf result fault.NotYet → done self.old.rules command.now ≡ None }
    {
        match command {
            Command::Rule(name, premises, conclusion) => {
                self.build_rule(name, premises.as_slice(), conclusion)
            }
            Command::Show(a) => {
                let Claimed { form: _form, .. } = self.claim(a)?;
                Ok(())
            }
        }
    }

    // Builds each command over the rules before it.
    pub(crate) fn judge(&mut self, commands: &[Command]) -> Result<(), Fault>
        requires counted { IsCounted self.old }
        ensures some { OnOk result (AreBuilt self.old.rules commands.now) }
        ensures none { IsErrOf result fault.NotYet → events self.old.rules commands.now ≡ None }
    {
        for command in commands {
            self.build(command)?;
        }
        Ok(())
    }
}
