//! The rules that a session accepts.

ghost use Rattle.std.specs.Prelude.{◌≡◌, ◌<◌, [], ◌∷◌, ◌++◌, nat_lt, length, OnOk, OnErr, IsErrOf, true, false};
ghost use Rattle.ft_items.specs.Item.{rule};
ghost use Rattle.ft_items.specs.Good.{is_new};
ghost use Rattle.ft_judge.specs.Meaning.{goal_in};
ghost use Rattle.ft_kernel.specs.State.{with_item};
ghost use Rattle.ft_applications_meaning.specs.Building.{names};
ghost use Rattle.ft_applications_meaning.specs.Histories.{told, declares};
ghost use Rattle.ft_applications.specs.declared.fault.Fault.TheVariants as fault;
ghost use Rattle.ft_run.specs.Session.{FitsGoal, AllFitGoals, FitsKnown, AreMade, HasEntry, goals_in, boundaries_in, numbered, declaration};

use crate::session::{Known, Session};
use ft_applications::Fault;
use ft_base::limits::MAX_RULES;
use ft_base::{Memory, Name};
use ft_judge::Goal;
use ft_kernel::{B, Metavariables, RuleItem};

impl Session {
    // A rule of a new name, with these goals, is accepted, where there is room for it.
    pub(crate) fn accept(
        &mut self,
        name: Name,
        first: u64,
        goals: Vec<Goal>,
        conclusion: Goal,
        premises: Metavariables,
        b: B,
    ) -> Result<(), Fault>
        requires new { is_new (names self.old.rules) name ≡ true }
        requires goals { AllFitGoals self.old.state.trees goals.items }
        requires conclusion { FitsGoal self.old.state.trees conclusion }
        requires made { AreMade self.old.state first (goals_in self.old.state.trees goals.items) premises }
        requires entry { HasEntry self.old.state b (goal_in self.old.state.trees conclusion) }
        ensures rules { OnOk result (self.new.rules ≡ self.old.rules ++ (record { name = name; rule = record { premises = numbered first (boundaries_in self.old.state.trees goals.items); conclusion = goal_in self.old.state.trees conclusion } }) ∷ []) }
        ensures state { OnOk result (self.new.state ≡ with_item self.old.state (rule name premises b)) }
        ensures told { OnOk result (told self.new.state.items ≡ told self.old.state.items ++ declares name (record { premises = numbered first (boundaries_in self.old.state.trees goals.items); conclusion = goal_in self.old.state.trees conclusion }) ∷ []) }
        ensures room { OnOk result (nat_lt (length self.old.rules) MAX_RULES ≡ true) }
        ensures none { IsErrOf result fault.NotYet → nat_lt (length self.old.rules) MAX_RULES ≡ false }
        ensures err { OnErr result (self.new ≡ self.old) }
    {
        if self.known.len() as u64 >= MAX_RULES {
            return Err(Fault::NotYet);
        }
        let known = Known {
            name,
            first,
            premises: goals,
            conclusion,
        };
        self.add(known, premises, b)?;
        Ok(())
    }

    // One more rule, of a new name.
    fn add(&mut self, known: Known, premises: Metavariables, b: B) -> Result<(), Memory>
        requires new { is_new (names self.old.rules) known.name ≡ true }
        requires room { length self.old.rules < MAX_RULES }
        requires fits { FitsKnown self.old.state.trees known }
        requires made { AreMade self.old.state known.first (goals_in self.old.state.trees known.premises.items) premises }
        requires entry { HasEntry self.old.state b (goal_in self.old.state.trees known.conclusion) }
        ensures rules { OnOk result (self.new.rules ≡ self.old.rules ++ declaration self.old.state.trees known ∷ []) }
        ensures state { OnOk result (self.new.state ≡ with_item self.old.state (rule known.name premises b)) }
        ensures told { OnOk result (told self.new.state.items ≡ told self.old.state.items ++ declares known.name (declaration self.old.state.trees known).rule ∷ []) }
        ensures err { OnErr result (self.new ≡ self.old) }
    {
        let item = RuleItem {
            name: known.name.copy()?,
            premises,
            conclusion: b,
        };
        self.known.push(known)?;
        if let Err(e) = self.kernel.push_rule(item) {
            self.known.pop();
            return Err(e);
        }
        Ok(())
    }
}
