//! Expressions that give judgements.

ghost use Rattle.ft_meaning.specs.Trees.{form};
ghost use Rattle.ft_meaning.specs.Forms.{judgement_of};
ghost use Rattle.ft_running.specs.Evaluation.{run_of, environment_of, IsScopeIn, GoesFurther};
ghost use Rattle.ft_running.specs.Asked.{TellsEntry};
ghost use Rattle.ft_eval.specs.Asking.{AsksNothing};

use ft_eval::evaluate;
use ft_grammar::Ast;
use ft_kernel::J;
use ft_running::{End, State};
use ft_telling::Why;
use ft_values::Scope;

/// The judgement that an expression gives in a scope.
#[tactic(auto, using(crate::proofs::Claimed::claim_told, crate::proofs::Claimed::claim_stuck, crate::proofs::Claimed::ends_after))]
pub(crate) fn claim(state: &mut State, e: &Ast, scope: Scope) -> Result<J, End>
    requires scope { IsScopeIn state.old scope }
    requires asks { AsksNothing (form e.now) }
    ensures tells { TellsEntry
        (judgement_of (form e.now) (environment_of state.old scope) (run_of state.old))
        result state.new }
    ensures further { GoesFurther state.old state.new }
{
    let v = match evaluate(state, e, scope) {
        Ok(v) => v,
        Err(end) => return Err(end),
    };
    match state.judgement(v) {
        Some(j) => Ok(j),
        None => Err(End::halts(0, Why::Stuck)),
    }
}
