//! What an evaluation asks of the nucleus.

ghost use Rattle.std.specs.Prelude.{◌≡◌, ◌≤◌, ◌+◌, IfSome, IfNone, OnOk, Some, None};
ghost use Rattle.ft_apply.specs.Named.{AreThesesOf};
ghost use Rattle.ft_items.specs.Store.{declared_by};
ghost use Rattle.ft_kernel.specs.State.{IsThesisOf, IsBoundaryOf};
ghost use Rattle.ft_reference.specs.Nucleus as reference;
ghost use Rattle.ft_meaning.specs.Names.{rule_of_name};
ghost use Rattle.ft_meaning.specs.Values.{spend};
ghost use Rattle.ft_meaning.specs.Values as meaning;
ghost use Rattle.ft_meaning.specs.Forms.{word_at, word_at_two, judged, abstract_value};
ghost use Rattle.ft_meaning.specs.Forms.{substitute_value};
ghost use Rattle.ft_telling.specs.Telling.{variable_at};
ghost use Rattle.ft_values.specs.Kept.{stated_at};
ghost use Rattle.ft_grammar.specs.declared.form.OneForm.TheVariants as one;
ghost use Rattle.ft_calling.specs.Asking.{IsAskedOfJudgement, IsAskedOfBoundary, IsAskedOfTwo};
ghost use Rattle.ft_running.specs.Evaluation.{run_of, value_over, IsValueOf, GoesFurther};
ghost use Rattle.ft_running.specs.Telling.{TellsValue, TellsEnd};
ghost use Rattle.ft_running.specs.Asked.{TellsSpent, TellsTerm, TellsEntry, IsNoNormal, IsNoEqual};
ghost use Rattle.ft_running.specs.Asked.{new_term, next_argument, argument_at, congruence_at};
ghost use Rattle.ft_running.specs.Asked.{put_at, performed_at, rule_in, IsRuleOf, IsVariableIn};
ghost use Rattle.ft_running.specs.Asked.{judgements_of};

use crate::ending::{End, Operation};
use crate::state::State;
use ft_base::Name;
use ft_grammar::{OneForm, TwoForm};
use ft_kernel::{B, J, RuleId, V};
use ft_telling::Why;
use ft_values::Value;

impl State {
    /// A unit is spent at a place.
    #[tactic(auto, using(crate::proofs::Ended::halt_told))]
    pub fn spend(&mut self, at: u64) -> Result<(), End>
        ensures tells { TellsSpent (spend at (run_of self.old)) result self.new }
        ensures further { GoesFurther self.old self.new }
        ensures used { OnOk result (self.old.units.used + 1 ≤ self.new.units.used) }
    {
        self.holds();
        let answer = ft_telling::spend(&self.kernel, at, &mut self.units);
        let _used = self.units.used();
        match answer {
            Ok(()) => Ok(()),
            Err(halt) => Err(End::from(halt)),
        }
    }

    /// The rule of a name. It takes no memory.
    pub fn rule(&self, name: &Name) -> Option<RuleId>
        ensures rule { IfSome result (λ r. IsRuleOf self.now r) }
        ensures some { IfSome result (λ r. rule_of_name (declared_by self.now.list.items) name.now
            ≡ Some (rule_in self.now r)) }
        ensures none { IfNone result
            (rule_of_name (declared_by self.now.list.items) name.now ≡ None) }
    {
        let _terms = self.kernel.terms();
        ft_calling::rule_of_name(&self.kernel, name)
    }

    // A word at a judgement, but `boundaryof`, `some` and `normal`.
    pub(crate) fn word_at_judgement(&mut self, at: u64, word: OneForm, j: J) -> Result<Value, End>
        requires thesis { IsThesisOf self.old.list j }
        requires asked { IsAskedOfJudgement word }
        ensures tells { TellsValue
            (word_at at word (meaning.judgement (stated_at self.old.list j)) (run_of self.old))
            result self.new }
        ensures further { GoesFurther self.old self.new }
    {
        self.holds();
        let answer = ft_calling::word_at(self.alloc, &mut self.kernel, at, word, j);
        let _items = self.kernel.len();
        self.concluded(answer)
    }

    // The boundary of a judgement.
    pub(crate) fn boundary_of(&mut self, at: u64, j: J) -> Result<Value, End>
        requires { IsThesisOf self.old.list j }
        ensures tells { TellsValue
            (word_at at one.Boundaryof (meaning.judgement (stated_at self.old.list j))
            (run_of self.old))
            result self.new }
        ensures further { GoesFurther self.old self.new }
    {
        self.holds();
        let answer = ft_calling::boundaryof(self.alloc, &mut self.kernel, at, j);
        let _items = self.kernel.len();
        self.bounded(answer)
    }

    // A word at a boundary, but `some`.
    pub(crate) fn word_at_boundary(&mut self, at: u64, word: OneForm, b: B) -> Result<Value, End>
        requires boundary { IsBoundaryOf self.old.list b }
        requires asked { IsAskedOfBoundary word }
        ensures tells { TellsValue
            (word_at at word (meaning.boundary (stated_at self.old.list b)) (run_of self.old))
            result self.new }
        ensures further { GoesFurther self.old self.new }
    {
        self.holds();
        let answer = ft_calling::word_at_boundary(self.alloc, &mut self.kernel, at, word, b);
        let _items = self.kernel.len();
        self.concluded(answer)
    }

    // Words at two judgements, but `fill` and `equal`.
    pub(crate) fn word_at_judgements(
        &mut self,
        at: u64,
        second: u64,
        word: TwoForm,
        i: J,
        j: J,
    ) -> Result<Value, End>
        requires theses { IsThesisOf self.old.list i × IsThesisOf self.old.list j }
        requires asked { IsAskedOfTwo word }
        ensures tells { TellsValue
            (word_at_two at second word (meaning.judgement (stated_at self.old.list i))
            (meaning.judgement (stated_at self.old.list j)) (run_of self.old))
            result self.new }
        ensures further { GoesFurther self.old self.new }
    {
        self.holds();
        let _ = second;
        let answer = ft_calling::word_at_two(self.alloc, &mut self.kernel, at, word, i, j);
        let _items = self.kernel.len();
        self.concluded(answer)
    }

    // The argument of an application that a judgement states.
    pub(crate) fn argument_of(&mut self, at: u64, i: u64, j: J) -> Result<Value, End>
        requires { IsThesisOf self.old.list j }
        ensures tells { TellsValue
            (judged at (λ W. reference.argument W i (stated_at self.old.list j))
            (run_of self.old))
            result self.new }
        ensures further { GoesFurther self.old self.new }
    {
        self.holds();
        let answer = ft_calling::argument(self.alloc, &mut self.kernel, at, j, i);
        let _items = self.kernel.len();
        self.concluded(answer)
    }

    /// What a rule concludes at arguments.
    pub fn apply(&mut self, at: u64, rule: RuleId, given: &[J]) -> Result<Value, End>
        requires rule { IsRuleOf self.old rule }
        requires given { AreThesesOf self.old.list given.now }
        ensures tells { TellsValue
            (judged at (λ W. reference.apply W (rule_in self.old rule)
            (judgements_of self.old given.now)) (run_of self.old))
            result self.new }
        ensures further { GoesFurther self.old self.new }
    {
        self.holds();
        let _terms = self.kernel.terms();
        let answer = ft_calling::apply(self.alloc, &mut self.kernel, at, rule, given);
        let _items = self.kernel.len();
        self.concluded(answer)
    }

    // The judgement with a variable bound; and the boundary.
    pub(crate) fn abstract_judgement(&mut self, at: u64, y: V, j: J) -> Result<Value, End>
        requires variable { IsVariableIn self.old y }
        requires thesis { IsThesisOf self.old.list j }
        ensures tells { TellsValue
            (abstract_value at (variable_at self.old.list y)
            (meaning.judgement (stated_at self.old.list j)) (run_of self.old))
            result self.new }
        ensures further { GoesFurther self.old self.new }
    {
        self.holds();
        let answer = ft_calling::abstract_judgement(&mut self.kernel, at, y, j);
        let _items = self.kernel.len();
        self.concluded(answer)
    }

    pub(crate) fn abstract_boundary(&mut self, at: u64, y: V, b: B) -> Result<Value, End>
        requires variable { IsVariableIn self.old y }
        requires boundary { IsBoundaryOf self.old.list b }
        ensures tells { TellsValue
            (abstract_value at (variable_at self.old.list y)
            (meaning.boundary (stated_at self.old.list b)) (run_of self.old))
            result self.new }
        ensures further { GoesFurther self.old self.new }
    {
        self.holds();
        let answer = ft_calling::abstract_boundary(&mut self.kernel, at, y, b);
        let _items = self.kernel.len();
        self.bounded(answer)
    }

    // A term put for the first variable of a judgement; and of a boundary.
    pub(crate) fn substitute_judgement(&mut self, at: u64, j: J, t: J) -> Result<Value, End>
        requires theses { IsThesisOf self.old.list j × IsThesisOf self.old.list t }
        ensures tells { TellsValue
            (substitute_value at (meaning.judgement (stated_at self.old.list j))
            (stated_at self.old.list t) (run_of self.old))
            result self.new }
        ensures further { GoesFurther self.old self.new }
    {
        self.holds();
        let answer = ft_calling::substitute_judgement(&mut self.kernel, at, j, t);
        let _items = self.kernel.len();
        self.concluded(answer)
    }

    pub(crate) fn substitute_boundary(&mut self, at: u64, b: B, t: J) -> Result<Value, End>
        requires boundary { IsBoundaryOf self.old.list b }
        requires term { IsThesisOf self.old.list t }
        ensures tells { TellsValue
            (substitute_value at (meaning.boundary (stated_at self.old.list b))
            (stated_at self.old.list t) (run_of self.old))
            result self.new }
        ensures further { GoesFurther self.old self.new }
    {
        self.holds();
        let answer = ft_calling::substitute_boundary(&mut self.kernel, at, b, t);
        let _items = self.kernel.len();
        self.bounded(answer)
    }

    /// An operation that is performed with a value, at a place.
    #[tactic(auto, using(crate::proofs::Ended::memory_told))]
    pub fn perform(&self, name: &Name, v: Value, at: u64) -> End
        requires { IsValueOf self.now v }
        ensures { TellsEnd
            (performed_at at name.now (value_over self.now v) (run_of self.now)) result self.now }
    {
        match name.copy() {
            Ok(name) => End::Performs(Operation {
                name,
                argument: v,
                at,
            }),
            Err(memory) => End::from(memory),
        }
    }
}
