//! Rules that are being made.

ghost use Rattle.std.specs.Prelude.{◌≡◌, ◌<◌, ℕ, None, [], map, length, IfOk};
ghost use Rattle.ft_items.specs.Sets.{met};
ghost use Rattle.ft_theory.specs.Derivability.{FinitaryUpTo};
ghost use Rattle.ft_items.specs.Store.{declared_by, metavariables_in, rules_in};
ghost use Rattle.ft_kernel.specs.State.{IsBoundaryOf};
ghost use Rattle.ft_reference.specs.Declare.{name_fault};
ghost use Rattle.ft_rules.specs.Drafts.{IsDraftOver, IsPlainBoundaryOf, RestsOnOwn};
ghost use Rattle.ft_rules.specs.Answers.{Begins, Premises, Finishes, IsNameFault};

use crate::fault::RuleFault;
use crate::outside::outside;
use ft_base::Name;
use ft_base::limits::MAX_RULES;
use ft_kernel::{B, Kernel, M, MetItem, Metavariables, RuleId, RuleItem};
use std::alloc::Global;
use std::marker::Model;

/// A rule that is being made: its name, and the metavariables of its premises so far.
#[derive(Debug, Drop)]
pub struct Draft {
    name: Name,
    premises: Vec<M>,
}

impl Model for Draft {
    ghost use Rattle.std.specs.Coded.{codes};
    ghost use Rattle.ft_rules.specs.Drafts.{Drafted, InOrder};

    ghost Value = { Drafted };

    ghost view = { λ d. record { name = d.name; premises = d.premises.items } };

    ghost invariant = { λ d. InOrder d.premises.items };
}

// Why no rule of the name can be declared.
fn free_name(k: &Kernel, name: &Name) -> Result<(), RuleFault>
    ensures { IsNameFault (name_fault (declared_by k.now.items) name.now) result }
{
    let _terms = k.terms();
    if k.rule_named(name).is_some() {
        return Err(RuleFault::Duplicate);
    }
    if k.rules() >= MAX_RULES {
        return Err(RuleFault::TooMany);
    }
    Ok(())
}

impl Draft {
    /// A rule of the name, without premises.
    pub fn begin(alloc: Global, k: &Kernel, name: &Name) -> Result<Draft, RuleFault>
        ensures begins { Begins k.now.items name.now result }
        ensures draft { IfOk result (λ d. IsDraftOver k.now.items d) }
    {
        match free_name(k, name) {
            Ok(()) => Ok(Draft::empty(alloc, name.copy()?)),
            Err(fault) => Err(fault),
        }
    }

    // A draft without premises.
    fn empty(alloc: Global, name: Name) -> Draft
        ensures { result ≡ record { name = name; premises = [] } }
    {
        Draft {
            name,
            premises: Vec::new(alloc),
        }
    }

    /// The name. It takes no memory.
    pub fn name(&self) -> &Name
        ensures { result.now ≡ self.now.name }
    {
        &self.name
    }

    /// The metavariables of the premises so far. It takes no memory.
    pub fn premises(&self) -> &[M]
        ensures { result.now ≡ self.now.premises }
    {
        self.premises.as_slice()
    }

    /// A further premise of this name and this boundary, which rests on the draft's metavariables
    /// alone.
    pub fn premise(&mut self, k: &mut Kernel, name: &Name, b: B) -> Result<M, RuleFault>
        requires draft { IsDraftOver k.old.items self.old }
        requires boundary { IsBoundaryOf k.old b }
        ensures premise { Premises k.old self.old name.now b result k.new self.new }
        ensures draft { IsDraftOver k.new.items self.new }
        ensures metavariable { IfOk result (λ m. m < length (metavariables_in k.new.items)) }
    {
        let place = self.premises.len() as u64 + 1;
        match outside(k.set_of(b).atoms(), &self.premises) {
            Some(atom) => Err(RuleFault::OpenPremise(place, atom)),
            None => self.add(k, name, b),
        }
    }

    // A further premise of this name, whose boundary rests on the draft's metavariables alone.
    fn add(&mut self, k: &mut Kernel, name: &Name, b: B) -> Result<M, RuleFault>
        requires draft { IsDraftOver k.old.items self.old }
        requires boundary { IsBoundaryOf k.old b }
        requires own { RestsOnOwn k.old b (map met self.old.premises) }
        ensures premise { Premises k.old self.old name.now b result k.new self.new }
        ensures draft { IsDraftOver k.new.items self.new }
        ensures metavariable { IfOk result (λ m. m < length (metavariables_in k.new.items)) }
    {
        let _terms = k.terms();
        let name = name.copy()?;
        self.premises.reserve(1)?;
        let met = k.push_met(MetItem { name, boundary: b })?;
        if self.premises.push(met).is_err() {
            unreachable!();
        }
        Ok(met)
    }

    /// Declares the rule, with a boundary without domains as its conclusion, which rests on the draft's
    /// metavariables alone.
    pub fn finish(&self, k: &mut Kernel, conclusion: B) -> Result<RuleId, RuleFault>
        requires draft { IsDraftOver k.old.items self.now }
        requires conclusion { IsPlainBoundaryOf k.old conclusion }
        ensures finishes { Finishes k.old self.now conclusion result k.new }
        ensures finitary { (n : ℕ) → FinitaryUpTo n (declared_by k.new.items).rules }
        ensures rule { IfOk result (λ r. r < length (rules_in k.new.items)) }
    {
        let _terms = k.terms();
        match free_name(k, &self.name) {
            Ok(()) => self.declare(k, conclusion),
            Err(fault) => Err(fault),
        }
    }

    // Declares the rule, whose name can be declared.
    fn declare(&self, k: &mut Kernel, conclusion: B) -> Result<RuleId, RuleFault>
        requires draft { IsDraftOver k.old.items self.now }
        requires conclusion { IsPlainBoundaryOf k.old conclusion }
        requires name { name_fault (declared_by k.old.items) self.now.name ≡ None }
        ensures finishes { Finishes k.old self.now conclusion result k.new }
        ensures finitary { (n : ℕ) → FinitaryUpTo n (declared_by k.new.items).rules }
        ensures rule { IfOk result (λ r. r < length (rules_in k.new.items)) }
    {
        let _terms = k.terms();
        match outside(k.set_of(conclusion).atoms(), &self.premises) {
            Some(atom) => Err(RuleFault::OpenConclusion(atom)),
            None => self.push(k, conclusion),
        }
    }

    // Adds the rule, whose name can be declared, and whose conclusion rests on the draft's metavariables
    // alone.
    fn push(&self, k: &mut Kernel, conclusion: B) -> Result<RuleId, RuleFault>
        requires draft { IsDraftOver k.old.items self.now }
        requires conclusion { IsPlainBoundaryOf k.old conclusion }
        requires name { name_fault (declared_by k.old.items) self.now.name ≡ None }
        requires own { RestsOnOwn k.old conclusion (map met self.now.premises) }
        ensures finishes { Finishes k.old self.now conclusion result k.new }
        ensures finitary { (n : ℕ) → FinitaryUpTo n (declared_by k.new.items).rules }
        ensures rule { IfOk result (λ r. r < length (rules_in k.new.items)) }
    {
        let _terms = k.terms();
        let alloc = *self.premises.allocator();
        let name = self.name.copy()?;
        let premises = Metavariables::of(alloc, &self.premises)?;
        let item = RuleItem {
            name,
            premises,
            conclusion,
        };
        Ok(k.push_rule(item)?)
    }
}
