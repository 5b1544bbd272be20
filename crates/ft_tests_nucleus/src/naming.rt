//! What the item at a place of a kernel's list is named by.

ghost use Rattle.std.specs.Prelude.{◌<◌, IfSome, length};
ghost use Rattle.ft_items.specs.Store.{metavariables_in, rules_in};
ghost use Rattle.ft_kernel.specs.State.{IsThesisOf, IsBoundaryOf, IsVariableOf};
ghost use Rattle.ft_rules.specs.Drafts.{IsPlainBoundaryOf};
ghost use Rattle.ft_tests_nucleus.specs.Faults.{IsNamed};

use ft_kernel::{B, Item, J, Kernel, M, RuleId, V};

/// The thesis at a place.
#[tactic(auto, using(crate::proofs::Numbered::shown_named))]
pub fn thesis(k: &Kernel, place: u64) -> Option<J>
    ensures { IfSome result (λ j. IsThesisOf k.now j) }
{
    if place >= k.len() {
        return None;
    }
    match k.item(place) {
        Item::Thesis(j, _step) => Some(j),
        Item::Boundary(_b, _step) => None,
        Item::Var(_v) => None,
        Item::Met(_m) => None,
        Item::Rule(_r) => None,
        Item::Shown(_j) => None,
    }
}

/// The boundary at a place.
#[tactic(auto, using(crate::proofs::Numbered::shown_named))]
pub fn boundary(k: &Kernel, place: u64) -> Option<B>
    ensures { IfSome result (λ b. IsBoundaryOf k.now b) }
{
    if place >= k.len() {
        return None;
    }
    match k.item(place) {
        Item::Boundary(b, _step) => Some(b),
        Item::Thesis(_j, _step) => None,
        Item::Var(_v) => None,
        Item::Met(_m) => None,
        Item::Rule(_r) => None,
        Item::Shown(_j) => None,
    }
}

/// The boundary at a place, where it has no domains.
#[tactic(auto, using(crate::proofs::Numbered::plain_there))]
pub fn plain_boundary(k: &Kernel, place: u64) -> Option<B>
    ensures { IfSome result (λ b. IsPlainBoundaryOf k.now b) }
{
    let b = boundary(k, place)?;
    if k.boundary_at(b).domains.items().is_empty() {
        Some(b)
    } else {
        None
    }
}

/// The variable at a place.
#[tactic(auto, using(crate::proofs::Numbered::shown_named, crate::proofs::Numbered::variable_found))]
pub fn variable(k: &Kernel, place: u64) -> Option<V>
    ensures { IfSome result (λ v. IsVariableOf k.now v) }
{
    if place >= k.len() {
        return None;
    }
    match k.item(place) {
        Item::Var(v) => k.var_numbered(v.number()),
        Item::Thesis(_j, _step) => None,
        Item::Boundary(_b, _step) => None,
        Item::Met(_m) => None,
        Item::Rule(_r) => None,
        Item::Shown(_j) => None,
    }
}

/// The metavariable at a place.
#[tactic(auto, using(crate::proofs::Numbered::shown_named))]
pub fn metavariable(k: &Kernel, place: u64) -> Option<M>
    ensures { IfSome result (λ m. m < length (metavariables_in k.now.items)) }
{
    if place >= k.len() {
        return None;
    }
    match k.item(place) {
        Item::Met(m) => k.met_numbered(m.number()),
        Item::Thesis(_j, _step) => None,
        Item::Boundary(_b, _step) => None,
        Item::Var(_v) => None,
        Item::Rule(_r) => None,
        Item::Shown(_j) => None,
    }
}

/// The rule at a place.
#[tactic(auto, using(crate::proofs::Numbered::shown_named))]
pub fn rule(k: &Kernel, place: u64) -> Option<RuleId>
    ensures { IfSome result (λ r. r < length (rules_in k.now.items)) }
{
    if place >= k.len() {
        return None;
    }
    match k.item(place) {
        Item::Rule(r) => k.rule_numbered(r.number()),
        Item::Thesis(_j, _step) => None,
        Item::Boundary(_b, _step) => None,
        Item::Var(_v) => None,
        Item::Met(_m) => None,
        Item::Shown(_j) => None,
    }
}
