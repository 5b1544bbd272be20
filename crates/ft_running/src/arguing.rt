//! Arguments of rules, and variables.

ghost use Rattle.std.specs.Prelude.{ℕ, ◌≡◌, IfOk};
ghost use Rattle.ft_apply.specs.Named.{AreThesesOf};
ghost use Rattle.ft_items.specs.Store.{Assertion, Annotation};
ghost use Rattle.ft_kernel.specs.State.{IsThesisOf, IsBoundaryOf};
ghost use Rattle.ft_reference.specs.Nucleus as reference;
ghost use Rattle.ft_meaning.specs.Values.{nucleus, Outcome};
ghost use Rattle.ft_meaning.specs.Forms.{make_variable};
ghost use Rattle.ft_telling.specs.Telling.{variable_at, TellsStatement, TellsVariable};
ghost use Rattle.ft_values.specs.Kept.{stated_at};
ghost use Rattle.ft_running.specs.Evaluation.{run_of, value_over, IsValueOf, GoesFurther};
ghost use Rattle.ft_running.specs.Asked.{TellsEntry, TellsGoal, TellsTerm, TellsDeclared};
ghost use Rattle.ft_running.specs.Asked.{next_argument, new_term, IsVariableIn};
ghost use Rattle.ft_running.specs.Asked.{rule_in, IsRuleOf, judgements_of};

use crate::ending::End;
use crate::state::State;
use ft_base::Name;
use ft_kernel::{B, J, RuleId, V};
use ft_telling::{Halt, Why};
use ft_values::Value;

impl State {
    // The boundary that a call answered.
    #[tactic(auto, using(crate::proofs::Ended::halt_told, crate::proofs::Further::further_same))]
    fn goal(&mut self, answer: Result<B, Halt>) -> Result<B, End>
        requires { IfOk answer (λ b. IsBoundaryOf self.old.list b) }
        ensures tells { (o : Outcome Assertion)
            → TellsStatement o answer self.old.list self.old.units → TellsGoal o result self.new }
        ensures further { GoesFurther self.old self.new }
    {
        match answer {
            Ok(b) => Ok(b),
            Err(halt) => Err(End::from(halt)),
        }
    }

    // The judgement that a call answered.
    #[tactic(auto, using(crate::proofs::Ended::halt_told, crate::proofs::Further::further_same))]
    fn entry(&mut self, answer: Result<J, Halt>) -> Result<J, End>
        requires { IfOk answer (λ j. IsThesisOf self.old.list j) }
        ensures tells { (o : Outcome Assertion)
            → TellsStatement o answer self.old.list self.old.units → TellsEntry o result self.new }
        ensures further { GoesFurther self.old self.new }
    {
        match answer {
            Ok(j) => Ok(j),
            Err(halt) => Err(End::from(halt)),
        }
    }

    // The boundary of the premise of a rule after arguments.
    fn next_boundary(&mut self, at: u64, rule: RuleId, given: &[J]) -> Result<B, End>
        requires rule { IsRuleOf self.old rule }
        requires given { AreThesesOf self.old.list given.now }
        ensures tells { TellsGoal
            (nucleus at (λ W. reference.next_boundary W (rule_in self.old rule)
            (judgements_of self.old given.now)) (run_of self.old))
            result self.new }
        ensures further { GoesFurther self.old self.new }
    {
        self.holds();
        let _terms = self.kernel.terms();
        let answer = ft_calling::next_boundary(self.alloc, &mut self.kernel, at, rule, given);
        let _items = self.kernel.len();
        self.goal(answer)
    }

    /// The judgement that a value is, where it fits the boundary of the premise of a rule after
    /// arguments; else `coerce` is performed.
    #[tactic(auto, using(crate::proofs::Argued::argument_fitted, crate::proofs::Argued::no_boundary, crate::proofs::Argued::no_argument, crate::proofs::Further::thesis_further, crate::proofs::Further::further_both, crate::proofs::Further::further_same))]
    pub fn next_argument(&mut self, at: u64, rule: RuleId, given: &[J], v: Value) -> Result<J, End>
        requires rule { IsRuleOf self.old rule }
        requires given { AreThesesOf self.old.list given.now }
        requires value { IsValueOf self.old v }
        ensures tells { TellsEntry
            (next_argument at (rule_in self.old rule) (judgements_of self.old given.now)
            (value_over self.old v) (run_of self.old))
            result self.new }
        ensures further { GoesFurther self.old self.new }
    {
        let j = match self.judgement(v) {
            Some(j) => j,
            None => return Err(End::halts(at, Why::Stuck)),
        };
        match self.next_boundary(at, rule, given) {
            Ok(b) => self.fitted(at, j, b),
            Err(end) => Err(end),
        }
    }

    // The variable that a declaration answered.
    #[tactic(auto, using(crate::proofs::Ended::halt_told, crate::proofs::Further::further_same))]
    fn declared(&mut self, answer: Result<V, Halt>) -> Result<V, End>
        requires { IfOk answer (λ y. IsVariableIn self.old y) }
        ensures tells { (o : Outcome (ℕ × Annotation))
            → TellsVariable o answer self.old.list self.old.units
            → TellsDeclared o result self.new }
        ensures further { GoesFurther self.old self.new }
    {
        match answer {
            Ok(y) => Ok(y),
            Err(halt) => Err(End::from(halt)),
        }
    }

    // A new variable of a type.
    fn new_variable(&mut self, at: u64, name: &Name, ty: J) -> Result<V, End>
        requires { IsThesisOf self.old.list ty }
        ensures tells { TellsDeclared
            (make_variable at name.now (stated_at self.old.list ty) (run_of self.old))
            result self.new }
        ensures further { GoesFurther self.old self.new }
    {
        self.holds();
        let answer = ft_calling::new_variable(&mut self.kernel, at, name, ty, &mut self.units);
        let _items = self.kernel.len();
        let _used = self.units.used();
        self.declared(answer)
    }

    // The judgement of a variable.
    fn variable(&mut self, at: u64, y: V) -> Result<J, End>
        requires { IsVariableIn self.old y }
        ensures tells { TellsEntry
            (nucleus at (λ W. reference.variable W (variable_at self.old.list y))
            (run_of self.old))
            result self.new }
        ensures further { GoesFurther self.old self.new }
    {
        self.holds();
        let answer = ft_calling::variable(self.alloc, &mut self.kernel, at, y);
        let _items = self.kernel.len();
        self.entry(answer)
    }

    /// A new variable of the type that a value is, with its judgement.
    #[tactic(auto, using(crate::proofs::Argued::term_made, crate::proofs::Argued::no_variable, crate::proofs::Argued::no_term, crate::proofs::Argued::no_type, crate::proofs::Argued::no_memory, crate::proofs::Further::further_both, crate::proofs::Further::further_same))]
    pub fn new_term(&mut self, at: u64, name: &Name, v: Value) -> Result<(V, Value), End>
        requires { IsValueOf self.old v }
        ensures tells { TellsTerm
            (new_term at name.now (value_over self.old v) (run_of self.old)) result self.new }
        ensures further { GoesFurther self.old self.new }
    {
        let ty = match self.judgement(v) {
            Some(ty) => ty,
            None => return Err(End::halts(at, Why::Stuck)),
        };
        let y = match self.new_variable(at, name, ty) {
            Ok(y) => y,
            Err(end) => return Err(end),
        };
        let j = match self.variable(at, y) {
            Ok(j) => j,
            Err(end) => return Err(end),
        };
        match self.keep_judgement(j) {
            Ok(term) => Ok((y, term)),
            Err(memory) => Err(End::from(memory)),
        }
    }
}
