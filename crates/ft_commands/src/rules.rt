//! Rules that are declared.

ghost use Rattle.std.specs.Prelude.{◌≡◌, map, OnErr};
ghost use Rattle.ft_meaning.specs.Trees.{premise};
ghost use Rattle.ft_meaning.specs.Commands.{declare_rule};
ghost use Rattle.ft_running.specs.Evaluation.{run_of, GoesFurther};
ghost use Rattle.ft_eval.specs.CommandsAsking.{BodyAsksNothing, PremisesAskNothing};
ghost use Rattle.ft_commands.specs.Parts.{conclusion_of, conclusion_place};
ghost use Rattle.ft_commands.specs.Doing.{named_in, TellsAccepted};

use crate::bodies::of_conclusion;
use crate::premises::declare_premises;
use ft_drafting::{Stop, begin, finish};
use ft_grammar::{Conclusion, Named, Premise};
use ft_running::State;
use ft_values::Scope;

// Where a conclusion begins.
fn place_of(conclusion: &Conclusion) -> u64
    ensures { result ≡ conclusion_place conclusion.now }
{
    match conclusion {
        Conclusion::Type(at) => *at,
        Conclusion::Term(at, _) => *at,
        Conclusion::Equation(at, _, _, _) => *at,
    }
}

/// Declares a rule. Where it is not declared, no rule is.
#[tactic(auto, using(crate::proofs::Ruled::rule_accepted, crate::proofs::Ruled::begin_stops, crate::proofs::Ruled::premises_stop, crate::proofs::Ruled::conclusion_ends, crate::proofs::Ruled::finish_stops, ft_drafting::proofs::Staying::draft_further, ft_running::proofs::Further::further_both, ft_running::proofs::Further::further_same))]
pub(crate) fn declare_rule(
    state: &mut State,
    name: &Named,
    premises: &[Premise],
    conclusion: &Conclusion,
) -> Result<(), Stop>
    requires premises { PremisesAskNothing (map premise premises.now) }
    requires conclusion { BodyAsksNothing (conclusion_of conclusion.now) }
    ensures tells { TellsAccepted
        (declare_rule name.now (map premise premises.now) (conclusion_place conclusion.now)
        (conclusion_of conclusion.now) (named_in state.old) (run_of state.old))
        name.now.name state.old result state.new }
    ensures further { OnErr result (GoesFurther state.old state.new) }
{
    state.holds();
    let mut draft = match begin(state, name.at, &name.name) {
        Ok(draft) => draft,
        Err(stop) => return Err(stop),
    };
    let scope = match declare_premises(state, &mut draft, premises, Scope::Top) {
        Ok(scope) => scope,
        Err(stop) => return Err(stop),
    };
    let b = match of_conclusion(state, conclusion, scope) {
        Ok(b) => b,
        Err(end) => return Err(Stop::Ends(end)),
    };
    state.holds();
    match finish(state, &draft, place_of(conclusion), b) {
        Ok(_) => Ok(()),
        Err(stop) => Err(stop),
    }
}
