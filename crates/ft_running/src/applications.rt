//! Applications, their symbols and their arguments.

ghost use Rattle.std.specs.Prelude.{ℕ, ◌≡◌, ◌<◌, length, IfOk, IfSome, option_map};
ghost use Rattle.ft_syntax.specs.Table.{tree};
ghost use Rattle.ft_kernel.specs.State.{IsThesisOf};
ghost use Rattle.ft_meaning.specs.Matching.{is_applied};
ghost use Rattle.ft_values.specs.Kept.{stated_at};
ghost use Rattle.ft_running.specs.Evaluation.{run_of, value_over, IsValueOf, GoesFurther};
ghost use Rattle.ft_running.specs.Matching.{argument_of, symbol_applied, is_symbol, head_in};
ghost use Rattle.ft_running.specs.Telling.{TellsArgument, TellsApplied};

use crate::literals::stuck;
use crate::state::State;
use ft_calls::form_named;
use ft_grammar::Named;
use ft_judge::{Form, Refusal};
use ft_kernel::{J, Kernel, RuleId};
use ft_parts::argument;
use ft_syntax::{E, Node};
use ft_telling::{Halt, halted};
use ft_values::Value;

// The type or the term of a form.
fn head_of(form: Form) -> Option<E>
    ensures { result ≡ head_in form }
{
    match form {
        Form::Ty(e) => Some(e),
        Form::Tm(e, _) => Some(e),
        _ => None,
    }
}

// The type or the term of a plain thesis, where it is about one.
#[tactic(auto, using(crate::proofs::Applied::head_applied, crate::proofs::Applied::head_below, crate::proofs::Applied::no_head))]
fn head(k: &Kernel, j: J) -> Option<E>
    requires { IsThesisOf k.now j }
    ensures below { IfSome result (λ e. e < length k.now.trees) }
    ensures applied { (r : ℕ) → is_applied r (stated_at k.now j).statement
        ≡ is_symbol r (option_map (tree k.now.trees) result) }
{
    match form_named(k, j) {
        Ok(form) => head_of(form),
        Err(_) => None,
    }
}

// Whether a thesis is a plain type or term that is the symbol of the rule at arguments.
#[tactic(auto, using(crate::proofs::Applied::is_node, crate::proofs::Applied::bound_node, crate::proofs::Applied::free_node, crate::proofs::Applied::meta_node))]
fn is_application(k: &Kernel, rule: RuleId, j: J) -> bool
    requires { IsThesisOf k.now j }
    ensures { result ≡ is_applied rule (stated_at k.now j).statement }
{
    match head(k, j) {
        Some(e) => match k.terms().node(e) {
            Node::Sym(s) => rule.number() == s,
            Node::Bound(_) | Node::Free(_) | Node::Meta(_) => false,
        },
        None => false,
    }
}

impl State {
    /// The judgement that the value is, where it is the symbol of the name at arguments. It takes
    /// no memory.
    pub(crate) fn applied(&self, at: u64, name: &Named, v: Value) -> Result<Option<J>, Halt>
        requires { IsValueOf self.now v }
        ensures thesis { IfOk result (λ found. IfSome found (λ j. IsThesisOf self.now.list j)) }
        ensures tells { TellsApplied
            (symbol_applied name.now (value_over self.now v) (run_of self.now))
            result self.now }
    {
        let j = match self.judgement(v) {
            Some(j) => j,
            None => return Err(stuck(at)),
        };
        let _items = self.kernel.len();
        match self.kernel.rule_named(&name.name) {
            Some(rule) => Ok(is_application(&self.kernel, rule, j).then_some(j)),
            None => Err(stuck(at)),
        }
    }

    /// The argument at a place of an application, counted from 1, as a value.
    pub(crate) fn argument_value(&mut self, at: u64, j: J, i: u64) -> Result<Value, Halt>
        requires { IsThesisOf self.old.list j }
        ensures tells { TellsArgument
            (argument_of at i (stated_at self.old.list j) (run_of self.old))
            result self.new }
        ensures further { GoesFurther self.old self.new }
        ensures units { self.new.units ≡ self.old.units }
    {
        let answer = argument(self.alloc, &mut self.kernel, j, i);
        let _items = self.kernel.len();
        let argument = match halted(at, answer) {
            Ok(argument) => argument,
            Err(halt) => return Err(halt),
        };
        let value = self.keep_judgement(argument)?;
        Ok(value)
    }
}
