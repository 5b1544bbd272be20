//! Rules that are drafted premise by premise.

ghost use Rattle.std.specs.Prelude.{◌≡◌, OnOk, OnErr};
ghost use Rattle.ft_reference.specs.Declare.{begin, finish};
ghost use Rattle.ft_meaning.specs.Values.{OfRule, declare};
ghost use Rattle.ft_meaning.specs.Commands.{add_premise};
ghost use Rattle.ft_kernel.specs.State.{IsBoundaryOf};
ghost use Rattle.ft_rules.specs.Drafts.{IsPlainBoundaryOf};
ghost use Rattle.ft_values.specs.Kept.{stated_at};
ghost use Rattle.ft_running.specs.Evaluation.{run_of, GoesFurther};
ghost use Rattle.ft_drafting.specs.Drafting.{TellsDraft, TellsPremise, TellsRule, IsDraftIn};
ghost use Rattle.ft_drafting.specs.Drafting.{draft_over, with_rule};

use crate::stops::{Stop, stopped};
use ft_base::Name;
use ft_kernel::{B, M, RuleId};
use ft_rules::Draft;
use ft_running::State;

/// A rule of the name, without premises. It changes nothing.
#[tactic(auto, using(crate::proofs::Drafted::draft_begun, crate::proofs::Drafted::draft_stops))]
pub fn begin(state: &State, at: u64, name: &Name) -> Result<Draft, Stop>
    ensures tells { TellsDraft (declare OfRule at (λ W. begin W name.now) (run_of state.now)) result
        state.now }
{
    match Draft::begin(state.alloc, &state.kernel, name) {
        Ok(draft) => Ok(draft),
        Err(fault) => Err(stopped(at, fault)),
    }
}

/// A further premise of the draft.
#[tactic(auto, using(crate::proofs::Drafted::premise_added, crate::proofs::Drafted::premise_stops, crate::proofs::Drafted::premise_goes))]
pub fn add_premise(
    state: &mut State,
    draft: &mut Draft,
    at: u64,
    name: &Name,
    b: B,
) -> Result<M, Stop>
    requires draft { IsDraftIn state.old draft.old }
    requires boundary { IsBoundaryOf state.old.list b }
    ensures tells { TellsPremise
        (add_premise at (draft_over state.old draft.old) name.now (stated_at state.old.list b)
        (run_of state.old)) result draft.new state.new }
    ensures further { GoesFurther state.old state.new }
{
    state.holds();
    let answer = draft.premise(&mut state.kernel, name, b);
    let _items = state.kernel.len();
    state.holds();
    match answer {
        Ok(m) => Ok(m),
        Err(fault) => Err(stopped(at, fault)),
    }
}

/// Declares the rule of a draft, with a boundary without domains as its conclusion.
#[tactic(auto, using(crate::proofs::Drafted::rule_told, crate::proofs::Drafted::rule_stops, crate::proofs::Drafted::rule_added, crate::proofs::Drafted::rule_same))]
pub fn finish(state: &mut State, draft: &Draft, at: u64, conclusion: B) -> Result<RuleId, Stop>
    requires draft { IsDraftIn state.old draft.now }
    requires conclusion { IsPlainBoundaryOf state.old.list conclusion }
    ensures tells { TellsRule
        (declare OfRule at (λ W. finish W (draft_over state.old draft.now)
        (stated_at state.old.list conclusion)) (run_of state.old)) result state.new }
    ensures ok { OnOk result (state.new ≡ with_rule draft.now conclusion state.old) }
    ensures err { OnErr result (state.new ≡ state.old) }
{
    state.holds();
    let answer = draft.finish(&mut state.kernel, conclusion);
    let _items = state.kernel.len();
    state.holds();
    match answer {
        Ok(rule) => Ok(rule),
        Err(fault) => Err(stopped(at, fault)),
    }
}
