//! What expressions claim over the declared rules.

ghost use Rattle.std.specs.Prelude.{◌≡◌, ◌<◌, zero, [], Some, None, length, IfOk, IfSome, IfNone, IsErrOf, true};
ghost use Rattle.ft_theory.specs.Expressions.{symbol as applied};
ghost use Rattle.ft_theory.specs.Small.{IsSmall};
ghost use Rattle.ft_theory.specs.Statements.{plain, fill_goal};
ghost use Rattle.ft_items.specs.Item.{entry};
ghost use Rattle.ft_items.specs.Good.{Allowed};
ghost use Rattle.ft_syntax.specs.Table.{tree, arguments_in, ArgumentsBelow};
ghost use Rattle.ft_items.specs.Equal.{fit_all, heads};
ghost use Rattle.ft_judge.specs.Meaning.{claim_in, goal_in, FormBelow, GoalBelow};
ghost use Rattle.ft_kernel.specs.Steps.{step_of};
ghost use Rattle.ft_applications_meaning.specs.Building.{claim_of, first_named, plains};
ghost use Rattle.ft_run.specs.Steps.{IsStepOfApplications};
ghost use Rattle.ft_applications.specs.declared.fault.Fault.TheVariants as fault;
ghost use Rattle.ft_applications_meaning.specs.declared.syntax.Application.TheVariants as tree_of;
ghost use Rattle.ft_run.specs.Session.{Keeps, IsClaimed, AreClaimed, HasEntry, IsSimpleGoal, claims_in};
ghost use Rattle.ft_run.specs.Claiming.{at_place, named_at, rule_in};

use crate::given::{all_fit, arguments, entries, filled};
use crate::session::{Claimed, Session};
use ft_applications::Fault;
use ft_applications_meaning::Application;
use ft_assume::Assume;
use ft_base::{Memory, Name};
use ft_judge::{Domains, Form, Goal, Thesis};
use ft_kernel::{J, RuleId, Step};
use ft_syntax::{Arg, E, SynFault};

// The name and the arguments of an application.
pub(crate) fn parts<'a>(a: &'a Application) -> (&'a Name, &'a [Application])
    ensures { a.now ≡ tree_of.Apply result.0.now result.1.now }
{
    match a {
        Application::Apply(name, arguments) => (name, arguments.as_slice()),
    }
}

impl Session {
    // The application of a rule's symbol to arguments.
    fn symbol(&mut self, place: usize, given: &[Arg]) -> Result<E, Fault>
        requires { ArgumentsBelow (length self.old.state.trees) given.now }
        ensures within { IfOk result (λ e. e < length self.new.state.trees) }
        ensures tree { IfOk result (λ e. tree self.new.state.trees e ≡ applied place (arguments_in self.old.state.trees given.now)) }
        ensures small { IfOk result (λ _. IsSmall (applied place (arguments_in self.old.state.trees given.now))) }
        ensures big { IsErrOf result fault.NotYet → IsSmall (applied place (arguments_in self.old.state.trees given.now)) → ⊥ }
        ensures items { self.new.state.items ≡ self.old.state.items }
        ensures keeps { Keeps self.old self.new }
    {
        match self.kernel.symbol(place as u64, given) {
            Ok(e) => Ok(e),
            Err(SynFault::TooBig) => Err(Fault::NotYet),
            Err(SynFault::Memory) => Err(Fault::Memory),
        }
    }

    // A thesis without domains that rests on nothing.
    fn push(&mut self, form: &Form, step: Step) -> Result<J, Memory>
        requires step { IsStepOfApplications (step_of step) }
        requires below { FormBelow (length self.old.state.trees) form.now }
        requires allowed { Allowed self.old.state.items (entry (record { statement = plain (claim_in self.old.state.trees form.now); set = []; step = step_of step })) }
        ensures entry { IfOk result (λ j. HasEntry self.new.state j (claim_in self.old.state.trees form.now)) }
        ensures trees { self.new.state.trees ≡ self.old.state.trees }
        ensures keeps { Keeps self.old self.new }
    {
        let thesis = Thesis {
            domains: Domains::new(self.alloc),
            form: *form,
        };
        self.kernel
            .push_judgement(thesis, Assume::new(self.alloc), step)
    }

    // The kernel's rule at a place.
    #[tactic(auto, using(crate::proofs::Concluding::rule_found))]
    fn rule(&self, place: usize) -> RuleId
        requires { place < length self.now.rules }
        ensures { result ≡ place }
    {
        let _terms = self.kernel.terms();
        match self.kernel.rule_numbered(place as u64) {
            Some(rule) => rule,
            None => unreachable!(),
        }
    }

    // The thesis of a rule at what is claimed and fits it.
    #[tactic(auto, using(crate::proofs::Concluding::place_below, crate::proofs::Concluding::concluded_allowed))]
    fn conclude(&mut self, place: usize, given: &[Claimed], form: &Form) -> Result<J, Memory>
        requires place { place < length self.old.rules }
        requires below { FormBelow (length self.old.state.trees) form.now }
        requires given { AreClaimed self.old.state given.now }
        requires fits { fit_all (λ b. b) (rule_in self.old.rules place).premises (plains (claims_in self.old.state.trees given.now)) ≡ true }
        requires claim { claim_in self.old.state.trees form.now ≡ fill_goal (rule_in self.old.rules place).conclusion (applied place (heads (plains (claims_in self.old.state.trees given.now)))) }
        ensures entry { IfOk result (λ j. HasEntry self.new.state j (claim_in self.old.state.trees form.now)) }
        ensures trees { self.new.state.trees ≡ self.old.state.trees }
        ensures keeps { Keeps self.old self.new }
    {
        let _known = &self.known;
        let rule = self.rule(place);
        let entries = entries(self.alloc, given)?;
        self.push(form, Step::Rule(rule, entries))
    }

    /// What an expression claims, by the first rule of its name at what its arguments claim. `NotYet` says that it claims
    /// nothing. The rules are as before, and the entries that were there stay, after an error too.
    #[tactic(auto, using(crate::proofs::Claims::argument_smaller, crate::proofs::Claims::given_next, crate::proofs::Claims::claims_none, crate::proofs::Keeping::keeps_then, crate::proofs::Keeping::keeps_same))]
    pub fn claim(&mut self, a: &Application) -> Result<Claimed, Fault>
        ensures claimed { IfOk result (λ x. IsClaimed self.new.state x) }
        ensures claim { IfOk result (λ x. claim_of self.old.rules a.now ≡ Some (claim_in self.new.state.trees x.form)) }
        ensures none { IsErrOf result fault.NotYet → claim_of self.old.rules a.now ≡ None }
        ensures keeps { Keeps self.old self.new }
    {
        let (name, arguments) = parts(a);
        let mut given = Vec::new(self.alloc);
        for argument in arguments {
            given.push(self.claim(argument)?)?;
        }
        self.apply_named(name, &given)
    }

    // The first rule of the name, at what is claimed.
    fn apply_named(&mut self, name: &Name, given: &[Claimed]) -> Result<Claimed, Fault>
        requires { AreClaimed self.old.state given.now }
        ensures claimed { IfOk result (λ x. IsClaimed self.new.state x) }
        ensures claim { IfOk result (λ x. named_at self.old.rules name.now (claims_in self.old.state.trees given.now) ≡ Some (claim_in self.new.state.trees x.form)) }
        ensures none { IsErrOf result fault.NotYet → named_at self.old.rules name.now (claims_in self.old.state.trees given.now) ≡ None }
        ensures keeps { Keeps self.old self.new }
    {
        match self.place(name) {
            None => Err(Fault::NotYet),
            Some(place) => self.apply(place, given),
        }
    }

    // The place of the first rule of the name.
    #[tactic(auto, using(crate::proofs::Naming::place_none))]
    pub(crate) fn place(&self, name: &Name) -> Option<usize>
        ensures some { IfSome result (λ k. (k < length self.now.rules) × (first_named zero self.now.rules name.now ≡ Some (k, rule_in self.now.rules k))) }
        ensures none { IfNone result (first_named zero self.now.rules name.now ≡ None) }
    {
        let _terms = self.kernel.terms();
        self.kernel
            .rule_named(name)
            .map(|rule| rule.number() as usize)
    }

    // The rule at a place, at what is claimed.
    #[tactic(auto, using(crate::proofs::Applying::arguments_below, crate::proofs::Applying::misfit_none, crate::proofs::Applying::big_none, crate::proofs::Applying::fit_kept, crate::proofs::Applying::concludes, crate::proofs::Keeping::keeps_then))]
    fn apply(&mut self, place: usize, given: &[Claimed]) -> Result<Claimed, Fault>
        requires place { place < length self.old.rules }
        requires given { AreClaimed self.old.state given.now }
        ensures claimed { IfOk result (λ x. IsClaimed self.new.state x) }
        ensures claim { IfOk result (λ x. at_place self.old.rules place (claims_in self.old.state.trees given.now) ≡ Some (claim_in self.new.state.trees x.form)) }
        ensures none { IsErrOf result fault.NotYet → at_place self.old.rules place (claims_in self.old.state.trees given.now) ≡ None }
        ensures keeps { Keeps self.old self.new }
    {
        if !self.fits(place, given) {
            return Err(Fault::NotYet);
        }
        let arguments = arguments(self.alloc, given)?;
        let head = self.symbol(place, &arguments)?;
        let form = filled(self.conclusion(place), head);
        let entry = self.conclude(place, given, &form)?;
        Ok(Claimed { entry, form })
    }

    // Whether what is claimed fits the premises of the rule at a place.
    #[tactic(auto, using(crate::proofs::Concluding::place_below, crate::proofs::Concluding::goals_at, crate::proofs::Concluding::fits_at, crate::proofs::Concluding::claimed_below))]
    fn fits(&self, place: usize, given: &[Claimed]) -> bool
        requires place { place < length self.now.rules }
        requires given { AreClaimed self.now.state given.now }
        ensures { result ≡ fit_all (λ b. b) (rule_in self.now.rules place).premises (plains (claims_in self.now.state.trees given.now)) }
    {
        all_fit(self.kernel.terms(), &self.known[place].premises, given)
    }

    // What the rule at a place concludes.
    #[tactic(auto, using(crate::proofs::Concluding::place_below, crate::proofs::Concluding::goal_below_at, crate::proofs::Concluding::conclusion_at, crate::proofs::Concluding::goal_simple_at))]
    fn conclusion(&self, place: usize) -> Goal
        requires { place < length self.now.rules }
        ensures below { GoalBelow (length self.now.state.trees) result }
        ensures goal { (rule_in self.now.rules place).conclusion ≡ goal_in self.now.state.trees result }
        ensures simple { IsSimpleGoal (goal_in self.now.state.trees result) }
    {
        self.known[place].conclusion
    }
}
