//! The items of a file over their table of expressions.

ghost use Rattle.std.specs.Prelude.{◌≡◌, ◌<◌, ◌≤◌, length, take, Some, IfOk, IfSome, IfNone};
ghost use Rattle.ft_items.specs.Store.{nth, entries_in, variables_in, metavariables_in, rules_in};
ghost use Rattle.ft_stated.specs.Lines.{item_in, items_in, StatedBelow, AllStatedBelow};
ghost use Rattle.ft_stated.specs.Places.{EntryStands, MetavariableStands, RuleStands};
ghost use Rattle.ft_stated.specs.First.{first_place, greatest_number, is_rule_of, is_variable_of};

use crate::firsts::{Firsts, number_after};
use crate::index::Index;
use crate::stated::Stated;
use ft_base::{Memory, Name};
use ft_syntax::Terms;
use std::marker::Model;

/// The items that a file states, with the table of their expressions. Contracts see the trees of the table and the list of
/// items, of which nothing is known but that their expressions are in the table.
#[derive(Drop)]
pub struct StatedItems {
    terms: Terms,
    stated: Vec<Stated>,
    index: Index,
    firsts: Firsts,
}

impl Model for StatedItems {
    ghost use Rattle.std.specs.Coded.{codes};
    ghost use Rattle.ft_syntax.specs.Code.{coded_expression};
    ghost use Rattle.ft_judge.specs.Code.{coded_statement};
    ghost use Rattle.ft_stated.specs.Lines.{Listing};

    ghost Value = { Listing };

    ghost coded = { Prim.hlevel (codes, coded_expression, coded_statement) };

    ghost use Rattle.std.specs.Prelude.{length};
    ghost use Rattle.ft_stated.specs.Lines.{items_in, AllStatedBelow};
    ghost use Rattle.ft_stated.specs.Places.{AreIndexes};
    ghost use Rattle.ft_stated.specs.First.{AreFirsts};

    ghost view = { λ x. record { trees = x.terms; items = items_in x.terms x.stated.items } };

    ghost invariant = { λ x. AllStatedBelow (length x.terms) x.stated.items × AreIndexes (items_in x.terms x.stated.items) x.index.entries.items x.index.metavariables.items x.index.rules.items × AreFirsts (items_in x.terms x.stated.items) x.firsts.variables.entries x.firsts.rules.entries x.firsts.greatest.items };
}

impl StatedItems {
    /// The items that are stated over the table.
    pub fn new(terms: Terms, stated: Vec<Stated>) -> Result<StatedItems, Memory>
        requires { AllStatedBelow (length terms) stated.items }
        ensures { IfOk result (λ x. x ≡ record { trees = terms; items = items_in terms stated.items }) }
    {
        let index = Index::of(*stated.allocator(), &stated)?;
        let firsts = Firsts::of(*stated.allocator(), &stated)?;
        Ok(StatedItems {
            terms,
            stated,
            index,
            firsts,
        })
    }

    /// How many items there are. It takes no memory.
    pub fn len(&self) -> u64
        ensures { result ≡ length self.now.items }
    {
        self.stated.len() as u64
    }

    /// The table. It takes no memory.
    pub fn terms(&self) -> &Terms
        ensures { result.now ≡ self.now.trees }
    {
        &self.terms
    }

    /// The item at a place, from 0. It takes no memory.
    pub fn item(&self, i: u64) -> &Stated
        requires { i < length self.now.items }
        ensures item { nth self.now.items i ≡ Some (item_in self.now.trees result.now) }
        ensures below { StatedBelow (length self.now.trees) result.now }
    {
        &self.stated[i as usize]
    }

    /// The place of the entry of a number, or None where there is none. It takes no memory.
    pub fn entry_place(&self, n: u64) -> Option<u64>
        ensures some { IfSome result (λ k. EntryStands self.now.items n k) }
        ensures none { IfNone result (length (entries_in self.now.items) ≤ n) }
    {
        place_at(&self.index.entries, n)
    }

    /// The place of the metavariable of a number, or None where there is none. It takes no memory.
    pub fn met_place(&self, n: u64) -> Option<u64>
        ensures some { IfSome result (λ k. MetavariableStands self.now.items n k) }
        ensures none { IfNone result (length (metavariables_in self.now.items) ≤ n) }
    {
        place_at(&self.index.metavariables, n)
    }

    /// The place of the rule of a number, or None where there is none. It takes no memory.
    pub fn rule_place(&self, n: u64) -> Option<u64>
        ensures some { IfSome result (λ k. RuleStands self.now.items n k) }
        ensures none { IfNone result (length (rules_in self.now.items) ≤ n) }
    {
        place_at(&self.index.rules, n)
    }

    /// The place of the first variable of a number, or None where there is none. It takes no memory.
    pub fn var_place(&self, number: u64) -> Option<u64>
        ensures { result ≡ first_place (is_variable_of number) self.now.items }
    {
        self.firsts.variables.get(&number).copied()
    }

    /// The place of the first rule of a name, or None where there is none. It takes no memory.
    pub fn name_place(&self, name: &Name) -> Option<u64>
        ensures { result ≡ first_place (is_rule_of name.now) self.now.items }
    {
        self.firsts.rules.get(name).copied()
    }

    /// The greatest number of a variable before place `i`, or None where no variable stands before it. It takes no memory.
    pub fn greatest_before(&self, i: u64) -> Option<u64>
        ensures { result ≡ greatest_number (variables_in (take i self.now.items)) }
    {
        let n = self.firsts.greatest.partition_point(|g| g.place < i);
        number_after(&self.firsts.greatest, n)
    }
}

// The place of the item of a number in an index.
#[tactic(auto, using(crate::proofs::Indexes::nth_read, ft_items::proofs::Lists::nth_past))]
fn place_at(places: &[u64], n: u64) -> Option<u64>
    ensures { result ≡ nth places.now n }
{
    if n < places.len() as u64 {
        Some(places[n as usize])
    } else {
        None
    }
}
