//! Rules that a script makes.

ghost use Rattle.std.specs.Prelude.{IfOk, IfErr, IfSome};
ghost use Rattle.ft_rules.specs.Drafts.{IsDraftOver};
ghost use Rattle.ft_tests_nucleus.specs.Drafts.{MayDraft};

use crate::naming::{boundary, plain_boundary};
use crate::script::Call;
use crate::stop::Stop;
use crate::told::name;
use ft_base::{Name, Text};
use ft_kernel::Kernel;
use ft_print::{duplicate_rule_text, open_conclusion_text, open_premise_text, too_many_rules_text};
use ft_rules::{Draft, RuleFault, drafts_stay};
use std::alloc::Global;

// Why no rule is declared.
fn fault_text(alloc: Global, k: &Kernel, name: &Name, fault: RuleFault) -> Result<Text, Stop> {
    match fault {
        RuleFault::Duplicate => Ok(duplicate_rule_text(alloc, name)?),
        RuleFault::TooMany => Ok(too_many_rules_text(alloc)?),
        RuleFault::OpenPremise(place, atom) => Ok(open_premise_text(alloc, k, place, atom)?),
        RuleFault::OpenConclusion(atom) => Ok(open_conclusion_text(alloc, k, atom)?),
        RuleFault::Memory => Err(Stop::Memory),
    }
}

// Begins the draft of a rule.
fn begin(alloc: Global, k: &Kernel, draft: &mut Option<Draft>, text: &str) -> Result<Text, Stop>
    requires { MayDraft k.now.items draft.old }
    ensures { IfOk result (λ t. MayDraft k.now.items draft.new) }
{
    let name = name(alloc, text)?;
    match Draft::begin(alloc, k, &name) {
        Ok(begun) => {
            *draft = Some(begun);
            Ok(Text::new(alloc))
        }
        Err(fault) => fault_text(alloc, k, &name, fault),
    }
}

// A further premise of a draft.
fn premise(
    alloc: Global,
    k: &mut Kernel,
    draft: &mut Draft,
    text: &str,
    place: u64,
) -> Result<Text, Stop>
    requires { IsDraftOver k.old.items draft.old }
    ensures { IfOk result (λ t. IsDraftOver k.new.items draft.new) }
{
    let goal = boundary(k, place).ok_or(Stop::Script)?;
    let name = name(alloc, text)?;
    match draft.premise(k, &name, goal) {
        Ok(_) => Ok(Text::new(alloc)),
        Err(fault) => fault_text(alloc, k, &name, fault),
    }
}

// The same where there is a draft.
fn premise_of(
    alloc: Global,
    k: &mut Kernel,
    draft: &mut Option<Draft>,
    text: &str,
    place: u64,
) -> Result<Text, Stop>
    requires { MayDraft k.old.items draft.old }
    ensures { IfOk result (λ t. MayDraft k.new.items draft.new) }
{
    match draft {
        Some(own) => premise(alloc, k, own, text, place),
        None => Err(Stop::Script),
    }
}

// The rule of a draft.
#[tactic(auto, using(crate::proofs::Growing::finish_grows, crate::proofs::Growing::one_draft_stays))]
fn finish(alloc: Global, k: &mut Kernel, draft: &Draft, place: u64) -> Result<Text, Stop>
    requires { IsDraftOver k.old.items draft.now }
    ensures { IfOk result (λ t. IsDraftOver k.new.items draft.now) }
{
    let goal = plain_boundary(k, place).ok_or(Stop::Script)?;
    drafts_stay();
    match draft.finish(k, goal) {
        Ok(_) => Ok(Text::new(alloc)),
        Err(fault) => fault_text(alloc, k, draft.name(), fault),
    }
}

// The same where there is a draft.
fn finish_of(alloc: Global, k: &mut Kernel, draft: &Option<Draft>, place: u64) -> Result<Text, Stop>
    requires { MayDraft k.old.items draft.now }
    ensures { IfOk result (λ t. MayDraft k.new.items draft.now) }
{
    match draft {
        Some(own) => finish(alloc, k, own, place),
        None => Err(Stop::Script),
    }
}

/// What a call on the draft of a rule answers: nothing, or why no rule is declared.
pub fn drafted(
    alloc: Global,
    k: &mut Kernel,
    draft: &mut Option<Draft>,
    call: Call,
) -> Result<Text, Stop>
    requires { MayDraft k.old.items draft.old }
    ensures { IfOk result (λ t. MayDraft k.new.items draft.new) }
{
    match call {
        Call::Begin(text) => begin(alloc, k, draft, text),
        Call::Premise(text, b) => premise_of(alloc, k, draft, text, b),
        Call::Finish(b) => finish_of(alloc, k, draft, b),
        _ => Err(Stop::Script),
    }
}
