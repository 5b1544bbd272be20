//! What calls of the nucleus answered, as values.

ghost use Rattle.std.specs.Prelude.{◌≡◌, IfOk, IfErr};
ghost use Rattle.std.specs.Prelude.{List, Ok, codes};
ghost use Rattle.ft_apply.specs.Named.{AreThesesOf};
ghost use Rattle.ft_items.specs.Store.{Assertion};
ghost use Rattle.ft_kernel.specs.State.{IsThesisOf, IsBoundaryOf};
ghost use Rattle.ft_meaning.specs.Forms.{fitting};
ghost use Rattle.ft_meaning.specs.Values as meaning;
ghost use Rattle.ft_telling.specs.Telling.{TellsJudgement, TellsBoundary};
ghost use Rattle.ft_values.specs.Kept.{stated_at};
ghost use Rattle.ft_running.specs.Evaluation.{run_of, value_over, IsValueOf, GoesFurther};
ghost use Rattle.ft_running.specs.Telling.{TellsValue, TellsEnd};
ghost use Rattle.ft_running.specs.Asked.{TellsEntry, judgements_of, coerced};

use crate::ending::{End, Operation};
use crate::state::State;
use ft_base::{Memory, Name};
use ft_calling::fits;
use ft_kernel::{B, J};
use ft_telling::{Halt, Why};
use ft_values::Value;
use std::alloc::Global;

// The name `coerce`.
#[tactic(auto, using(crate::proofs::Coerce::coerce_name))]
fn coerce(alloc: Global) -> Result<Name, Memory>
    ensures { IfOk result (λ n. n ≡ codes "coerce") }
{
    let spelling = vec![in alloc; 'c', 'o', 'e', 'r', 'c', 'e']?;
    match Name::from_chars(spelling) {
        Some(name) => Ok(name),
        None => unreachable!(),
    }
}

impl State {
    /// The judgement that a call answered, as a value.
    #[tactic(auto, using(crate::proofs::Ended::judgement_kept, crate::proofs::Ended::halt_told, crate::proofs::Ended::memory_told, crate::proofs::Further::further_same))]
    pub(crate) fn concluded(&mut self, answer: Result<J, Halt>) -> Result<Value, End>
        requires { IfOk answer (λ j. IsThesisOf self.old.list j) }
        ensures tells { (o : meaning.Outcome meaning.Value)
            → TellsJudgement o answer self.old.list self.old.units
            → TellsValue o result self.new }
        ensures further { GoesFurther self.old self.new }
    {
        self.holds();
        match answer {
            Ok(j) => match self.keep_judgement(j) {
                Ok(value) => Ok(value),
                Err(memory) => Err(End::from(memory)),
            },
            Err(halt) => Err(End::from(halt)),
        }
    }

    /// The boundary that a call answered, as a value.
    #[tactic(auto, using(crate::proofs::Ended::boundary_kept, crate::proofs::Ended::halt_told, crate::proofs::Ended::memory_told, crate::proofs::Further::further_same))]
    pub(crate) fn bounded(&mut self, answer: Result<B, Halt>) -> Result<Value, End>
        requires { IfOk answer (λ b. IsBoundaryOf self.old.list b) }
        ensures tells { (o : meaning.Outcome meaning.Value)
            → TellsBoundary o answer self.old.list self.old.units
            → TellsValue o result self.new }
        ensures further { GoesFurther self.old self.new }
    {
        self.holds();
        match answer {
            Ok(b) => match self.keep_boundary(b) {
                Ok(value) => Ok(value),
                Err(memory) => Err(End::from(memory)),
            },
            Err(halt) => Err(End::from(halt)),
        }
    }

    /// The judgements that a value is a list of.
    #[tactic(auto, using(crate::proofs::Ended::judgements_told, crate::proofs::Ended::no_judgements_told, crate::proofs::Ended::memory_told))]
    pub(crate) fn judgement_list(&self, at: u64, v: Value) -> Result<Vec<J>, End>
        requires { IsValueOf self.now v }
        ensures theses { IfOk result (λ js. AreThesesOf self.now.list js.items) }
        ensures judgements { IfOk result
            (λ js. meaning.as_judgements (value_over self.now v) (run_of self.now)
            ≡ (Ok (judgements_of self.now js.items), run_of self.now)) }
        ensures ends { IfErr result
            (λ end. TellsEnd
            (meaning.as_judgements (value_over self.now v) (run_of self.now)) end self.now) }
    {
        match self.judgements(v) {
            Ok(Some(js)) => Ok(js),
            Ok(None) => Err(End::halts(at, Why::Stuck)),
            Err(memory) => Err(End::from(memory)),
        }
    }

    // The end where `coerce` is performed with a judgement and a boundary.
    #[tactic(auto, using(crate::proofs::Ended::coerce_told, crate::proofs::Ended::memory_told, crate::proofs::Further::further_both, crate::proofs::Further::boundary_further, crate::proofs::Further::below_further))]
    fn coercion(&mut self, at: u64, j: J, b: B) -> End
        requires judgement { IsThesisOf self.old.list j }
        requires boundary { IsBoundaryOf self.old.list b }
        ensures tells { TellsEnd
            (coerced at (stated_at self.old.list j) (stated_at self.old.list b) (run_of self.old))
            result self.new }
        ensures further { GoesFurther self.old self.new }
    {
        self.holds();
        let name = match coerce(self.alloc) {
            Ok(name) => name,
            Err(memory) => return End::from(memory),
        };
        match self.keep_both(j, b) {
            Ok(argument) => End::Performs(Operation { name, argument, at }),
            Err(memory) => End::from(memory),
        }
    }

    // The pair of a judgement and a boundary.
    #[tactic(auto, using(crate::proofs::Ended::both_mean, crate::proofs::Further::further_both, crate::proofs::Further::boundary_further, crate::proofs::Further::below_further))]
    fn keep_both(&mut self, j: J, b: B) -> Result<Value, Memory>
        requires judgement { IsThesisOf self.old.list j }
        requires boundary { IsBoundaryOf self.old.list b }
        ensures value { IfOk result (λ v. IsValueOf self.new v) }
        ensures means { IfOk result (λ v. value_over self.new v
            ≡ meaning.pair (meaning.judgement (stated_at self.old.list j))
            (meaning.boundary (stated_at self.old.list b))) }
        ensures run { run_of self.new ≡ run_of self.old }
        ensures further { GoesFurther self.old self.new }
    {
        self.holds();
        let first = self.keep_judgement(j)?;
        let second = self.keep_boundary(b)?;
        self.keep_pair(first, second)
    }

    /// The judgement, where it fits the boundary; else `coerce` is performed with both.
    #[tactic(auto, using(crate::proofs::Ended::fits_told, crate::proofs::Ended::coercion_told, crate::proofs::Further::further_same))]
    pub(crate) fn fitted(&mut self, at: u64, j: J, b: B) -> Result<J, End>
        requires judgement { IsThesisOf self.old.list j }
        requires boundary { IsBoundaryOf self.old.list b }
        ensures tells { TellsEntry
            (fitting at (stated_at self.old.list j) (stated_at self.old.list b) (run_of self.old))
            result self.new }
        ensures further { GoesFurther self.old self.new }
    {
        self.holds();
        if fits(&self.kernel, j, b) {
            return Ok(j);
        }
        Err(self.coercion(at, j, b))
    }
}
