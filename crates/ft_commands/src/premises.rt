//! The premises of a rule.

ghost use Rattle.std.specs.Prelude.{◌≡◌, map, OnOk};
ghost use Rattle.ft_meaning.specs.Trees.{premise};
ghost use Rattle.ft_meaning.specs.Commands.{declare_premises};
ghost use Rattle.ft_kernel.specs.State.{IsBoundaryOf};
ghost use Rattle.ft_running.specs.Evaluation.{run_of, environment_of, IsScopeIn, GoesFurther};
ghost use Rattle.ft_running.specs.Asked.{TellsGoal};
ghost use Rattle.ft_eval.specs.CommandsAsking.{BindersAskNothing, BodyAsksNothing};
ghost use Rattle.ft_eval.specs.CommandsAsking.{PremisesAskNothing};
ghost use Rattle.ft_drafting.specs.Drafting.{IsDraftIn, draft_over};
ghost use Rattle.ft_commands.specs.Parts.{body_name};
ghost use Rattle.ft_commands.specs.Runs.{premise_boundary, declare_premise};
ghost use Rattle.ft_commands.specs.Telling.{TellsPremises};

use crate::binders::bind_all;
use crate::bodies::of_body;
use ft_drafting::{Stop, abstract_all, add_premise, generic};
use ft_grammar::{Body, Named, Premise};
use ft_kernel::B;
use ft_rules::Draft;
use ft_running::{End, State};
use ft_values::Scope;

// The name of a premise.
fn name_of(body: &Body) -> &Named
    ensures { result.now ≡ body_name body.now }
{
    match body {
        Body::Type(_, name) => name,
        Body::Term(_, name, _) => name,
        Body::Equation(_, _, _, _, name) => name,
    }
}

// The boundary of a premise.
#[tactic(auto, using(crate::proofs::Premised::boundary_bound, crate::proofs::Premised::binders_end, crate::proofs::Premised::body_ends, crate::proofs::Premised::binders_ask, crate::proofs::Premised::body_asks, ft_drafting::proofs::Staying::bound_further, ft_running::proofs::Further::further_both))]
fn boundary_of(state: &mut State, p: &Premise, scope: Scope) -> Result<B, End>
    requires scope { IsScopeIn state.old scope }
    requires binders { BindersAskNothing (premise p.now).binders }
    requires body { BodyAsksNothing (premise p.now).body }
    ensures tells { TellsGoal
        (premise_boundary (premise p.now) (environment_of state.old scope) (run_of state.old))
        result state.new }
    ensures further { GoesFurther state.old state.new }
{
    let bindings = match bind_all(state, p.binders.as_slice(), scope) {
        Ok(bindings) => bindings,
        Err(end) => return Err(end),
    };
    let b = match of_body(state, &p.body, bindings.scope) {
        Ok(b) => b,
        Err(end) => return Err(end),
    };
    abstract_all(state, bindings.bounds.as_slice(), b)
}

// A premise joins the draft, and its name stands for its metavariable.
#[tactic(auto, using(crate::proofs::Premised::premise_declared, crate::proofs::Premised::premise_bound_ends, crate::proofs::Premised::premise_stops, crate::proofs::Premised::generic_ends, crate::proofs::Premised::memory_stops, crate::proofs::Premised::name_added, ft_drafting::proofs::Staying::draft_further, ft_running::proofs::Further::scope_further, ft_running::proofs::Further::further_both))]
fn declare_premise(
    state: &mut State,
    draft: &mut Draft,
    p: &Premise,
    scope: Scope,
) -> Result<Scope, Stop>
    requires draft { IsDraftIn state.old draft.old }
    requires scope { IsScopeIn state.old scope }
    requires binders { BindersAskNothing (premise p.now).binders }
    requires body { BodyAsksNothing (premise p.now).body }
    ensures tells { TellsPremises
        (declare_premise (premise p.now) (draft_over state.old draft.old)
        (environment_of state.old scope) (run_of state.old))
        result draft.new state.new }
    ensures name { OnOk result (draft.new.name ≡ draft.old.name) }
    ensures further { GoesFurther state.old state.new }
{
    state.holds();
    let b = match boundary_of(state, p, scope) {
        Ok(b) => b,
        Err(end) => return Err(Stop::Ends(end)),
    };
    let name = name_of(&p.body);
    let m = match add_premise(state, draft, p.at, &name.name, b) {
        Ok(m) => m,
        Err(stop) => return Err(stop),
    };
    let v = match generic(state, p.at, m) {
        Ok(v) => v,
        Err(end) => return Err(Stop::Ends(end)),
    };
    match state.bind(scope, &name.name, v) {
        Ok(inner) => Ok(inner),
        Err(memory) => Err(Stop::Ends(End::from(memory))),
    }
}

/// The premises in turn: the scope after them.
pub(crate) fn declare_premises(
    state: &mut State,
    draft: &mut Draft,
    premises: &[Premise],
    scope: Scope,
) -> Result<Scope, Stop>
    requires draft { IsDraftIn state.old draft.old }
    requires scope { IsScopeIn state.old scope }
    requires asks { PremisesAskNothing (map premise premises.now) }
    ensures tells { TellsPremises
        (declare_premises (map premise premises.now) (draft_over state.old draft.old)
        (environment_of state.old scope) (run_of state.old))
        result draft.new state.new }
    ensures name { OnOk result (draft.new.name ≡ draft.old.name) }
    ensures further { GoesFurther state.old state.new }
{
    state.holds();
    let mut scope = scope;
    for p in premises {
        match declare_premise(state, draft, p, scope) {
            Ok(inner) => scope = inner,
            Err(stop) => return Err(stop),
        }
    }
    Ok(scope)
}
