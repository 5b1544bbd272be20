//! Rules that are declared: their premises and conclusion are asked for, and they are accepted.

ghost use Rattle.std.specs.Prelude.{◌≡◌, ◌+◌, [], length, Some, None, true, IfOk, OnOk, IsErrOf};
ghost use Rattle.ft_items.specs.Store.{metavariables_in};
ghost use Rattle.ft_items.specs.Good.{is_new};
ghost use Rattle.ft_applications_meaning.specs.Building.{names, premises_of, declared};
ghost use Rattle.ft_applications.specs.declared.fault.Fault.TheVariants as fault;
ghost use Rattle.ft_run.specs.Session.{GoesOn, AllFitGoals, AreMade, goals_in, boundaries_in, numbered, IsCounted};
ghost use Rattle.ft_run.specs.Declaring.{first_number};
ghost use Rattle.ft_run.specs.Running.{IsDeclared};

use crate::asking::{Asked, Made};
use crate::session::Session;
use ft_applications::Fault;
use ft_applications_meaning::{Conclusion, Premise};
use ft_base::Name;
use ft_judge::Goal;
use ft_kernel::Metavariables;

/// The premises of a rule: what each asks for, and their metavariables.
#[derive(Debug, Drop)]
pub(crate) struct Premises {
    pub(crate) goals: Vec<Goal>,
    pub(crate) mets: Metavariables,
}

fn first(mets: &Metavariables) -> u64
    ensures { result ≡ first_number mets.now }
{
    match mets.items() {
        [first, ..] => first.number(),
        [] => 0,
    }
}

impl Session {
    // The metavariables of premises, in their order.
    fn premises(&mut self, premises: &[Premise]) -> Result<Premises, Fault>
        ensures fits { IfOk result (λ x. AllFitGoals self.new.state.trees x.goals.items) }
        ensures long { IfOk result (λ x. length x.goals.items ≡ length premises.now) }
        ensures made { IfOk result (λ x. AreMade self.new.state (length (metavariables_in self.old.state.items)) (goals_in self.new.state.trees x.goals.items) x.mets) }
        ensures premises { IfOk result (λ x. premises_of self.old.rules (length (metavariables_in self.old.state.items)) [] premises.now ≡ Some (numbered (length (metavariables_in self.old.state.items)) (boundaries_in self.new.state.trees x.goals.items))) }
        ensures count { OnOk result (length (metavariables_in self.new.state.items) ≡ length (metavariables_in self.old.state.items) + length premises.now) }
        ensures none { IsErrOf result fault.NotYet → premises_of self.old.rules (length (metavariables_in self.old.state.items)) [] premises.now ≡ None }
        ensures goes { GoesOn self.old self.new }
    {
        let mut goals = Vec::new(self.alloc);
        let mut mets = Metavariables::new(self.alloc);
        for i in 0..premises.len() {
            let Made { goal, met } = self.premise(&premises[..i], &premises[i])?;
            goals.push(goal)?;
            mets.push(met)?;
        }
        Ok(Premises { goals, mets })
    }

    // Declares a rule of a new name, where it is built over the rules before it.
    pub(crate) fn declare(
        &mut self,
        name: &Name,
        premises: &[Premise],
        conclusion: &Conclusion,
    ) -> Result<(), Fault>
        requires new { is_new (names self.old.rules) name.now ≡ true }
        requires counted { IsCounted self.old }
        ensures declared { OnOk result (IsDeclared self.old self.new name.now premises.now conclusion.now) }
        ensures counted { OnOk result (IsCounted self.new) }
        ensures none { IsErrOf result fault.NotYet → declared self.old.rules premises.now conclusion.now ≡ None }
    {
        let Premises { goals, mets } = self.premises(premises)?;
        let Asked { goal, ty } = self.concluded(premises, conclusion)?;
        let b = self.boundary(&goal, ty)?;
        let first = first(&mets);
        self.accept(name.copy()?, first, goals, goal, mets, b)
    }
}
