//! What is asked at values.

ghost use Rattle.std.specs.Prelude.{◌≡◌, IfOk, IfErr, None, Ok};
ghost use Rattle.ft_apply.specs.Named.{AreThesesOf};
ghost use Rattle.ft_items.specs.Store.{Assertion};
ghost use Rattle.ft_kernel.specs.State.{IsThesisOf, IsBoundaryOf};
ghost use Rattle.ft_grammar.specs.declared.form.OneForm.TheVariants as one;
ghost use Rattle.ft_grammar.specs.declared.form.TwoForm.TheVariants as two;
ghost use Rattle.ft_meaning.specs.Values as meaning;
ghost use Rattle.ft_meaning.specs.Forms.{word_at, word_at_two, abstract_value, fitting};
ghost use Rattle.ft_telling.specs.Telling.{variable_at};
ghost use Rattle.ft_values.specs.Kept.{stated_at};
ghost use Rattle.ft_calling.specs.Asking.{IsAskedOfJudgement, IsAskedOfBoundary, IsAskedOfTwo};
ghost use Rattle.ft_running.specs.Evaluation.{run_of, value_over, IsValueOf, GoesFurther};
ghost use Rattle.ft_running.specs.Readers.{judgement_in};
ghost use Rattle.ft_running.specs.Telling.{TellsValue};
ghost use Rattle.ft_running.specs.Asked.{TellsEntry, TellsTerm, IsNoNormal, IsNoEqual, IsVariableIn};
ghost use Rattle.ft_running.specs.Asked.{next_argument, argument_at, congruence_at, put_at};
ghost use Rattle.ft_running.specs.Asked.{rule_in, IsRuleOf, judgements_of, new_term};

use crate::ending::End;
use crate::state::State;
use ft_base::Name;
use ft_grammar::{OneForm, TwoForm};
use ft_kernel::{J, RuleId, V};
use ft_telling::Why;
use ft_values::Value;

impl State {
    // A word at a value that is no judgement.
    #[tactic(auto, using(crate::proofs::AtValues::at_boundary, crate::proofs::AtValues::at_nothing, crate::proofs::Further::further_same))]
    fn word_at_other(&mut self, at: u64, word: OneForm, v: Value) -> Result<Value, End>
        requires value { IsValueOf self.old v }
        requires asked { IsAskedOfBoundary word }
        requires other { judgement_in (value_over self.old v) ≡ None }
        ensures tells { TellsValue (word_at at word (value_over self.old v) (run_of self.old))
            result self.new }
        ensures further { GoesFurther self.old self.new }
    {
        match self.boundary(v) {
            Some(b) => self.word_at_boundary(at, word, b),
            None => Err(End::halts(at, Why::Stuck)),
        }
    }

    // A word at a value, but `boundaryof`, `some` and `normal`.
    #[tactic(auto, using(crate::proofs::AtValues::at_judgement, crate::proofs::AtValues::asked_of_both))]
    fn word_at_statement(&mut self, at: u64, word: OneForm, v: Value) -> Result<Value, End>
        requires value { IsValueOf self.old v }
        requires asked { IsAskedOfJudgement word }
        ensures tells { TellsValue (word_at at word (value_over self.old v) (run_of self.old))
            result self.new }
        ensures further { GoesFurther self.old self.new }
    {
        match self.judgement(v) {
            Some(j) => self.word_at_judgement(at, word, j),
            None => self.word_at_other(at, word, v),
        }
    }

    // The boundary of a judgement that a value is.
    #[tactic(auto, using(crate::proofs::AtValues::at_judgement))]
    fn boundaryof(&mut self, at: u64, v: Value) -> Result<Value, End>
        requires { IsValueOf self.old v }
        ensures tells { TellsValue
            (word_at at one.Boundaryof (value_over self.old v) (run_of self.old)) result self.new }
        ensures further { GoesFurther self.old self.new }
    {
        match self.judgement(v) {
            Some(j) => self.boundary_of(at, j),
            None => self.word_at_other(at, OneForm::Boundaryof, v),
        }
    }

    // The option that holds a value.
    #[tactic(auto, using(crate::proofs::AtValues::some_told))]
    fn some(&mut self, at: u64, v: Value) -> Result<Value, End>
        requires { IsValueOf self.old v }
        ensures tells { TellsValue
            (word_at at one.SomeWord (value_over self.old v) (run_of self.old)) result self.new }
        ensures further { GoesFurther self.old self.new }
    {
        let _ = at;
        Ok(self.keep_some(v)?)
    }

    /// A word at a value.
    #[tactic(auto, using(crate::proofs::AtValues::word_same))]
    pub fn word(&mut self, at: u64, word: OneForm, v: Value) -> Result<Value, End>
        requires value { IsValueOf self.old v }
        requires asks { IsNoNormal word }
        ensures tells { TellsValue (word_at at word (value_over self.old v) (run_of self.old))
            result self.new }
        ensures further { GoesFurther self.old self.new }
    {
        match word {
            OneForm::Refl
            | OneForm::Sym
            | OneForm::Left
            | OneForm::Right
            | OneForm::Typeof
            | OneForm::Domain
            | OneForm::Natural => self.word_at_statement(at, word, v),
            OneForm::Boundaryof => self.boundaryof(at, v),
            OneForm::SomeWord => self.some(at, v),
            OneForm::Normal => unreachable!(),
        }
    }

    /// An argument of an application that a value states.
    #[tactic(auto, using(crate::proofs::AtValues::argument_told, crate::proofs::AtValues::no_argument, crate::proofs::Further::further_same))]
    pub fn argument(&mut self, at: u64, i: u64, v: Value) -> Result<Value, End>
        requires { IsValueOf self.old v }
        ensures tells { TellsValue (argument_at at i (value_over self.old v) (run_of self.old))
            result self.new }
        ensures further { GoesFurther self.old self.new }
    {
        match self.judgement(v) {
            Some(j) => self.argument_of(at, i, j),
            None => Err(End::halts(at, Why::Stuck)),
        }
    }

    /// A judgement or a boundary with a variable bound.
    #[tactic(auto, using(crate::proofs::AtValues::bound_judgement, crate::proofs::AtValues::bound_boundary, crate::proofs::AtValues::bound_nothing, crate::proofs::Further::further_same))]
    pub fn abstract_value(&mut self, at: u64, y: V, v: Value) -> Result<Value, End>
        requires variable { IsVariableIn self.old y }
        requires value { IsValueOf self.old v }
        ensures tells { TellsValue
            (abstract_value at (variable_at self.old.list y) (value_over self.old v)
            (run_of self.old))
            result self.new }
        ensures further { GoesFurther self.old self.new }
    {
        match self.judgement(v) {
            Some(j) => self.abstract_judgement(at, y, j),
            None => match self.boundary(v) {
                Some(b) => self.abstract_boundary(at, y, b),
                None => Err(End::halts(at, Why::Stuck)),
            },
        }
    }
}
