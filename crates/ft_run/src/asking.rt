//! What the premises and the conclusion of a rule ask for.

ghost use Rattle.std.specs.Prelude.{◌≡◌, ℕ, suc, List, [], length, Some, None, option_map, IfOk, IfSome, IfNone, OnOk, OnErr, IsErrOf};
ghost use Rattle.ft_theory.specs.Expressions.{Expression};
ghost use Rattle.ft_theory.specs.Statements.{Claim, plain, term_goal};
ghost use Rattle.ft_items.specs.Item.{entry, metavariable};
ghost use Rattle.ft_items.specs.Store.{metavariables_in};
ghost use Rattle.ft_items.specs.Good.{Allowed, is_new};
ghost use Rattle.ft_judge.specs.Meaning.{claim_in, goal_in, GoalBelow};
ghost use Rattle.ft_judge.specs.declared.judgement.Goal.TheVariants as goal;
ghost use Rattle.ft_kernel.specs.State.{with_item};
ghost use Rattle.ft_kernel.specs.Steps.{step_of};
ghost use Rattle.ft_run.specs.Steps.{IsStepOfApplications};
ghost use Rattle.ft_applications_meaning.specs.Building.{type_claimed, avoids, name_of_premise, premise_names, goal_of_premise, goal_of_conclusion};
ghost use Rattle.ft_applications.specs.declared.fault.Fault.TheVariants as fault;
ghost use Rattle.ft_run.specs.Session.{Keeps, GoesOn, FitsGoal, HasEntry, HasMet};
ghost use Rattle.ft_run.specs.Asking.{IsGoalAsked, IsTypeOf, HasGoal, goal_of_type, goal_of_new};

use crate::claiming::parts;
use crate::session::{Claimed, Session};
use ft_applications::Fault;
use ft_applications_meaning::{Application, Conclusion, Premise};
use ft_assume::Assume;
use ft_base::{Memory, Name};
use ft_judge::{Boundary, Domains, Form, Goal};
use ft_kernel::{B, J, M, MetItem, Step};

/// What is asked for, with the entry that its type is one, where it is a term.
#[derive(Clone, Copy, Debug)]
pub(crate) struct Asked {
    pub(crate) goal: Goal,
    pub(crate) ty: Option<J>,
}

/// A premise's metavariable, with what it asks for.
#[derive(Clone, Copy, Debug)]
pub(crate) struct Made {
    pub(crate) goal: Goal,
    pub(crate) met: M,
}

// The name of a premise.
fn name(premise: &Premise) -> &Name
    ensures { result.now ≡ name_of_premise premise.now }
{
    match premise {
        Premise::Type(name) => name,
        Premise::Term(name, _) => name,
    }
}

// Whether no premise has the name.
fn is_new(taken: &[Premise], given: &Name) -> bool
    ensures { result ≡ is_new (premise_names taken.now) given.now }
{
    for premise in taken {
        if *name(premise) == *given {
            return false;
        }
    }
    true
}

// Whether no name in the expression is that of a premise.
#[tactic(auto, using(crate::proofs::Claims::argument_smaller))]
fn avoids(taken: &[Premise], a: &Application) -> bool
    ensures { result ≡ avoids (premise_names taken.now) a.now }
{
    let (given, arguments) = parts(a);
    if !is_new(taken, given) {
        return false;
    }
    for argument in arguments {
        if !avoids(taken, argument) {
            return false;
        }
    }
    true
}

fn a_type() -> Asked
    ensures { result ≡ record { goal = goal.Ty; ty = None } }
{
    Asked {
        goal: Goal::Ty,
        ty: None,
    }
}

// The goal of a term of a type that is claimed.
fn term(form: Form) -> Option<Goal>
    ensures goal { IfSome result (λ g. (ts : List Expression) → option_map term_goal (type_claimed (Some (claim_in ts form))) ≡ Some (goal_in ts g)) }
    ensures typed { IfSome result (λ g. IsTypeOf form g) }
    ensures none { IfNone result ((ts : List Expression) → type_claimed (Some (claim_in ts form)) ≡ None) }
{
    match form {
        Form::Ty(ty) => Some(Goal::Tm(ty)),
        _ => None,
    }
}

impl Session {
    // A boundary without domains that rests on nothing.
    fn push_goal(&mut self, goal: &Goal, step: Step) -> Result<B, Memory>
        requires step { IsStepOfApplications (step_of step) }
        requires below { GoalBelow (length self.old.state.trees) goal.now }
        requires allowed { Allowed self.old.state.items (entry (record { statement = plain (goal_in self.old.state.trees goal.now); set = []; step = step_of step })) }
        ensures entry { IfOk result (λ b. HasEntry self.new.state b (goal_in self.old.state.trees goal.now)) }
        ensures trees { self.new.state.trees ≡ self.old.state.trees }
        ensures keeps { Keeps self.old self.new }
    {
        let boundary = Boundary {
            domains: Domains::new(self.alloc),
            goal: *goal,
        };
        self.kernel
            .push_boundary(boundary, Assume::new(self.alloc), step)
    }

    // The boundary of what is asked for.
    #[tactic(auto, using(crate::proofs::Types::asks_type, crate::proofs::Types::asks_term))]
    pub(crate) fn boundary(&mut self, goal: &Goal, ty: Option<J>) -> Result<B, Memory>
        requires { IsGoalAsked self.old.state goal.now ty }
        ensures entry { IfOk result (λ b. HasEntry self.new.state b (goal_in self.old.state.trees goal.now)) }
        ensures trees { self.new.state.trees ≡ self.old.state.trees }
        ensures keeps { Keeps self.old self.new }
    {
        match ty {
            None => self.push_goal(goal, Step::Btype),
            Some(entry) => self.push_goal(goal, Step::Bterm(entry)),
        }
    }

    // A metavariable of this name, for a boundary.
    #[tactic(auto, using(crate::proofs::Going::rules_after_met))]
    fn met(&mut self, name: &Name, b: B) -> Result<M, Memory>
        requires { HasGoal self.old.state b }
        ensures number { IfOk result (λ m. m ≡ length (metavariables_in self.old.state.items)) }
        ensures met { (g : Claim) → HasEntry self.old.state b g → IfOk result (λ m. HasMet self.new.state m g) }
        ensures state { OnOk result (self.new.state ≡ with_item self.old.state (metavariable name.now b)) }
        ensures rules { self.new.rules ≡ self.old.rules }
        ensures err { OnErr result (self.new ≡ self.old) }
    {
        let _terms = self.kernel.terms();
        let item = MetItem {
            name: name.copy()?,
            boundary: b,
        };
        self.kernel.push_met(item)
    }

    // A term of the type that an expression is, whose names are none of the premises'.
    #[tactic(auto, using(crate::proofs::Types::taken_unasked, crate::proofs::Types::none_unasked, crate::proofs::Types::goal_asked))]
    fn typed(&mut self, taken: &[Premise], a: &Application) -> Result<Asked, Fault>
        ensures asked { IfOk result (λ x. IsGoalAsked self.new.state x.goal x.ty) }
        ensures goal { IfOk result (λ x. goal_of_type self.old.rules (premise_names taken.now) a.now ≡ Some (goal_in self.new.state.trees x.goal)) }
        ensures none { IsErrOf result fault.NotYet → goal_of_type self.old.rules (premise_names taken.now) a.now ≡ None }
        ensures keeps { Keeps self.old self.new }
    {
        if !avoids(taken, a) {
            return Err(Fault::NotYet);
        }
        let Claimed { entry, form } = self.claim(a)?;
        let goal = term(form).ok_or(Fault::NotYet)?;
        Ok(Asked {
            goal,
            ty: Some(entry),
        })
    }

    // What a premise asks for.
    fn asked(&mut self, taken: &[Premise], premise: &Premise) -> Result<Asked, Fault>
        ensures asked { IfOk result (λ x. IsGoalAsked self.new.state x.goal x.ty) }
        ensures goal { IfOk result (λ x. goal_of_premise self.old.rules (premise_names taken.now) premise.now ≡ Some (goal_in self.new.state.trees x.goal)) }
        ensures none { IsErrOf result fault.NotYet → goal_of_premise self.old.rules (premise_names taken.now) premise.now ≡ None }
        ensures keeps { Keeps self.old self.new }
    {
        match premise {
            Premise::Type(_) => Ok(a_type()),
            Premise::Term(_, a) => self.typed(taken, a),
        }
    }

    // What a conclusion asks for.
    pub(crate) fn concluded(
        &mut self,
        premises: &[Premise],
        conclusion: &Conclusion,
    ) -> Result<Asked, Fault>
        ensures asked { IfOk result (λ x. IsGoalAsked self.new.state x.goal x.ty) }
        ensures goal { IfOk result (λ x. goal_of_conclusion self.old.rules (premise_names premises.now) conclusion.now ≡ Some (goal_in self.new.state.trees x.goal)) }
        ensures none { IsErrOf result fault.NotYet → goal_of_conclusion self.old.rules (premise_names premises.now) conclusion.now ≡ None }
        ensures keeps { Keeps self.old self.new }
    {
        match conclusion {
            Conclusion::Type => Ok(a_type()),
            Conclusion::Term(a) => self.typed(premises, a),
        }
    }

    // What a premise asks for, where its name is none of those before it.
    pub(crate) fn wanted(&mut self, taken: &[Premise], premise: &Premise) -> Result<Asked, Fault>
        ensures asked { IfOk result (λ x. IsGoalAsked self.new.state x.goal x.ty) }
        ensures goal { IfOk result (λ x. goal_of_new self.old.rules (premise_names taken.now) premise.now ≡ Some (goal_in self.new.state.trees x.goal)) }
        ensures none { IsErrOf result fault.NotYet → goal_of_new self.old.rules (premise_names taken.now) premise.now ≡ None }
        ensures keeps { Keeps self.old self.new }
    {
        if !is_new(taken, name(premise)) {
            return Err(Fault::NotYet);
        }
        self.asked(taken, premise)
    }

    // The metavariable of a premise, after those before it.
    #[tactic(auto, using(crate::proofs::Going::goes_kept, crate::proofs::Going::goes_then, crate::proofs::Going::goes_item, crate::proofs::Going::goes_same))]
    pub(crate) fn premise(&mut self, taken: &[Premise], premise: &Premise) -> Result<Made, Fault>
        ensures goal { IfOk result (λ x. goal_of_new self.old.rules (premise_names taken.now) premise.now ≡ Some (goal_in self.new.state.trees x.goal)) }
        ensures fits { IfOk result (λ x. FitsGoal self.new.state.trees x.goal) }
        ensures met { IfOk result (λ x. HasMet self.new.state x.met (goal_in self.new.state.trees x.goal)) }
        ensures number { IfOk result (λ x. x.met ≡ length (metavariables_in self.old.state.items)) }
        ensures count { OnOk result (length (metavariables_in self.new.state.items) ≡ suc (length (metavariables_in self.old.state.items))) }
        ensures none { IsErrOf result fault.NotYet → goal_of_new self.old.rules (premise_names taken.now) premise.now ≡ None }
        ensures goes { GoesOn self.old self.new }
    {
        let Asked { goal, ty } = self.wanted(taken, premise)?;
        let b = self.boundary(&goal, ty)?;
        let met = self.met(name(premise), b)?;
        Ok(Made { goal, met })
    }
}
