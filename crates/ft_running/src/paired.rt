//! What is asked at several values.

ghost use Rattle.std.specs.Prelude.{◌≡◌};
ghost use Rattle.ft_apply.specs.Named.{AreThesesOf};
ghost use Rattle.ft_kernel.specs.State.{IsThesisOf};
ghost use Rattle.ft_reference.specs.Nucleus as reference;
ghost use Rattle.ft_grammar.specs.declared.form.TwoForm.TheVariants as two;
ghost use Rattle.ft_meaning.specs.Values.{nucleus};
ghost use Rattle.ft_meaning.specs.Forms.{word_at_two, judged};
ghost use Rattle.ft_running.specs.Evaluation.{run_of, value_over, IsValueOf, GoesFurther};
ghost use Rattle.ft_running.specs.Telling.{TellsValue};
ghost use Rattle.ft_running.specs.Asked.{TellsEntry, TellsGoal, IsNoEqual, IsOfJudgements};
ghost use Rattle.ft_running.specs.Asked.{next_argument, congruence_at, put_at};
ghost use Rattle.ft_running.specs.Asked.{rule_in, IsRuleOf, judgements_of};

use crate::ending::End;
use crate::state::State;
use ft_base::Name;
use ft_grammar::TwoForm;
use ft_kernel::{B, J, RuleId};
use ft_telling::Why;
use ft_values::Value;

impl State {
    // A judgement with the boundary that it is to fit.
    #[tactic(auto, using(crate::proofs::AtPairs::filled, crate::proofs::AtPairs::filled_ends, crate::proofs::AtPairs::no_boundary, crate::proofs::AtPairs::no_filling, crate::proofs::Ended::memory_told, crate::proofs::Further::further_same, crate::proofs::Further::further_both))]
    fn fill(&mut self, at: u64, second: u64, v: Value, w: Value) -> Result<Value, End>
        requires { IsValueOf self.old v × IsValueOf self.old w }
        ensures tells { TellsValue
            (word_at_two at second two.Fill (value_over self.old v) (value_over self.old w)
            (run_of self.old))
            result self.new }
        ensures further { GoesFurther self.old self.new }
    {
        let b = match self.boundary(v) {
            Some(b) => b,
            None => return Err(End::halts(at, Why::Stuck)),
        };
        let j = match self.judgement(w) {
            Some(j) => j,
            None => return Err(End::halts(at, Why::Stuck)),
        };
        match self.fitted(second, j, b) {
            Ok(j) => Ok(self.keep_judgement(j)?),
            Err(end) => Err(end),
        }
    }

    // A word at two values that are to be judgements.
    #[tactic(auto, using(crate::proofs::AtPairs::at_judgements, crate::proofs::AtPairs::no_first, crate::proofs::AtPairs::no_second, crate::proofs::AtPairs::asked_of_judgements, crate::proofs::Further::further_same))]
    fn word_at_both(
        &mut self,
        at: u64,
        second: u64,
        word: TwoForm,
        v: Value,
        w: Value,
    ) -> Result<Value, End>
        requires values { IsValueOf self.old v × IsValueOf self.old w }
        requires asked { IsOfJudgements word }
        ensures tells { TellsValue
            (word_at_two at second word (value_over self.old v) (value_over self.old w)
            (run_of self.old))
            result self.new }
        ensures further { GoesFurther self.old self.new }
    {
        match self.judgement(v) {
            Some(i) => match self.judgement(w) {
                Some(j) => self.word_at_judgements(at, second, word, i, j),
                None => Err(End::halts(at, Why::Stuck)),
            },
            None => Err(End::halts(at, Why::Stuck)),
        }
    }

    /// A word at two values, the second of which has a place of its own.
    #[tactic(auto, using(crate::proofs::AtPairs::word_of_two_same))]
    pub fn word_of_two(
        &mut self,
        at: u64,
        second: u64,
        word: TwoForm,
        v: Value,
        w: Value,
    ) -> Result<Value, End>
        requires values { IsValueOf self.old v × IsValueOf self.old w }
        requires asks { IsNoEqual word }
        ensures tells { TellsValue
            (word_at_two at second word (value_over self.old v) (value_over self.old w)
            (run_of self.old))
            result self.new }
        ensures further { GoesFurther self.old self.new }
    {
        match word {
            TwoForm::Trans | TwoForm::Convert | TwoForm::Widen | TwoForm::Rewrite =>
                self.word_at_both(at, second, word, v, w),
            TwoForm::Fill => self.fill(at, second, v, w),
            TwoForm::Equal => unreachable!(),
        }
    }

    // The congruence of a rule.
    fn congruence_of(&mut self, at: u64, rule: RuleId, js: &[J], es: &[J]) -> Result<Value, End>
        requires rule { IsRuleOf self.old rule }
        requires theses { AreThesesOf self.old.list js.now × AreThesesOf self.old.list es.now }
        ensures tells { TellsValue
            (judged at (λ W. reference.congruence W (rule_in self.old rule)
            (judgements_of self.old js.now) (judgements_of self.old es.now)) (run_of self.old))
            result self.new }
        ensures further { GoesFurther self.old self.new }
    {
        self.holds();
        let _terms = self.kernel.terms();
        let answer = ft_calling::congruence(self.alloc, &mut self.kernel, at, rule, js, es);
        let _items = self.kernel.len();
        self.concluded(answer)
    }

    /// The congruence of the rule of a name, at lists of judgements and of equations.
    #[tactic(auto, using(crate::proofs::AtPairs::congruence_told, crate::proofs::AtPairs::no_list, crate::proofs::AtPairs::no_second_list, crate::proofs::AtPairs::no_rule, crate::proofs::Further::further_same))]
    pub fn congruence(&mut self, at: u64, name: &Name, v: Value, w: Value) -> Result<Value, End>
        requires { IsValueOf self.old v × IsValueOf self.old w }
        ensures tells { TellsValue
            (congruence_at at name.now (value_over self.old v) (value_over self.old w)
            (run_of self.old))
            result self.new }
        ensures further { GoesFurther self.old self.new }
    {
        let js = match self.judgement_list(at, v) {
            Ok(js) => js,
            Err(end) => return Err(end),
        };
        let es = match self.judgement_list(at, w) {
            Ok(es) => es,
            Err(end) => return Err(end),
        };
        match self.rule(name) {
            Some(rule) => self.congruence_of(at, rule, &js, &es),
            None => Err(End::halts(at, Why::Stuck)),
        }
    }

    /// A term put for the first variable of a judgement or a boundary.
    #[tactic(auto, using(crate::proofs::AtPairs::put_judgement, crate::proofs::AtPairs::put_boundary, crate::proofs::AtPairs::put_nothing, crate::proofs::AtPairs::no_term, crate::proofs::Further::further_same))]
    pub fn substitute(&mut self, at: u64, into: Value, v: Value) -> Result<Value, End>
        requires { IsValueOf self.old into × IsValueOf self.old v }
        ensures tells { TellsValue
            (put_at at (value_over self.old into) (value_over self.old v) (run_of self.old))
            result self.new }
        ensures further { GoesFurther self.old self.new }
    {
        let t = match self.judgement(v) {
            Some(t) => t,
            None => return Err(End::halts(at, Why::Stuck)),
        };
        match self.judgement(into) {
            Some(j) => self.substitute_judgement(at, j, t),
            None => match self.boundary(into) {
                Some(b) => self.substitute_boundary(at, b, t),
                None => Err(End::halts(at, Why::Stuck)),
            },
        }
    }
}
