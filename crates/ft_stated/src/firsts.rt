//! Where a number or a name stands first, and how great the numbers are up to a place.

ghost use Rattle.std.specs.Prelude.{◌≡◌, ◌≤◌, ◌++◌, ◌∷◌, [], ℕ, None, List, length, take, nat_eq, IfOk, OnOk};
ghost use Rattle.std.specs.Str.{bytes_eq};
ghost use Rattle.std.specs.Map.{lookup};
ghost use Rattle.ft_theory.specs.Expressions.{Expression};
ghost use Rattle.ft_items.specs.Item.{Name as Characters};
ghost use Rattle.ft_items.specs.Good.{equal_names};
ghost use Rattle.ft_stated.specs.Lines.{item_in, items_in};
ghost use Rattle.ft_stated.specs.First.{greatest_up_to, is_variable_of, is_rule_of, number_after_all, or_place, AreFirsts};

use crate::stated::Stated;
use ft_base::{Memory, Name};
use std::alloc::Global;
use std::collections::HashMap;

/// The place of a variable, and the greatest number of a variable up to it.
#[derive(Clone, Copy, Debug)]
pub struct Greatest {
    pub place: u64,
    pub number: u64,
}

/// The place of the first variable of each number and of the first rule of each name, and the greatest numbers.
#[derive(Drop)]
pub struct Firsts {
    pub variables: HashMap<u64, u64>,
    pub rules: HashMap<Name, u64>,
    pub greatest: Vec<Greatest>,
}

// The greater of a number and another, where there is one.
fn at_least(number: u64, other: Option<u64>) -> u64
    ensures { result ≡ Rattle.ft_stated.specs.First.at_least number other }
{
    match other {
        Some(other) => number.max(other),
        None => number,
    }
}

/// The greatest number up to the first `n` of these places, or None before all.
#[tactic(auto, using(crate::proofs::GreatestNumbers::read_at))]
pub fn number_after(greatest: &[Greatest], n: usize) -> Option<u64>
    requires { n ≤ length greatest.now }
    ensures { result ≡ Rattle.ft_stated.specs.First.number_after n greatest.now None }
{
    match n.checked_sub(1) {
        Some(last) => Some(greatest[last].number),
        None => None,
    }
}

impl Firsts {
    // Keeps the place of a variable where none of its number was before, and the greatest number up to it.
    fn note_variable(&mut self, place: u64, number: u64) -> Result<(), Memory>
        ensures variables { (w : ℕ) → OnOk result (lookup (nat_eq w) self.new.variables.entries ≡ or_place (lookup (nat_eq w) self.old.variables.entries) (nat_eq number w) place) }
        ensures rules { self.new.rules ≡ self.old.rules }
        ensures greatest { OnOk result (self.new.greatest.items ≡ self.old.greatest.items ++ record { place = place; number = Rattle.ft_stated.specs.First.at_least number (number_after_all self.old.greatest.items) } ∷ []) }
    {
        if !self.variables.contains_key(&number) {
            self.variables.insert(number, place)?;
        }
        let before = number_after(&self.greatest, self.greatest.len());
        let greatest = Greatest {
            place,
            number: at_least(number, before),
        };
        self.greatest.push(greatest)?;
        Ok(())
    }

    // Keeps the place of a rule where none of its name was before.
    fn note_rule(&mut self, place: u64, name: &Name) -> Result<(), Memory>
        ensures variables { self.new.variables ≡ self.old.variables }
        ensures rules { (n : Characters) → OnOk result (lookup (bytes_eq n) self.new.rules.entries ≡ or_place (lookup (bytes_eq n) self.old.rules.entries) (equal_names name.now n) place) }
        ensures greatest { self.new.greatest ≡ self.old.greatest }
    {
        if !self.rules.contains_key(name) {
            self.rules.insert(name.copy()?, place)?;
        }
        Ok(())
    }

    // Keeps the place of an item.
    fn note(&mut self, place: u64, x: &Stated) -> Result<(), Memory>
        ensures variables { (ts : List Expression) (w : ℕ) → OnOk result (lookup (nat_eq w) self.new.variables.entries ≡ or_place (lookup (nat_eq w) self.old.variables.entries) (is_variable_of w (item_in ts x.now)) place) }
        ensures rules { (ts : List Expression) (n : Characters) → OnOk result (lookup (bytes_eq n) self.new.rules.entries ≡ or_place (lookup (bytes_eq n) self.old.rules.entries) (is_rule_of n (item_in ts x.now)) place) }
        ensures greatest { (ts : List Expression) → OnOk result (self.new.greatest.items ≡ self.old.greatest.items ++ greatest_up_to place (number_after_all self.old.greatest.items) (item_in ts x.now ∷ [])) }
    {
        match x {
            Stated::Var(number, _, _) => self.note_variable(place, *number),
            Stated::Rule(name, _, _) => self.note_rule(place, name),
            Stated::Met(..) | Stated::Thesis(..) | Stated::Boundary(..) | Stated::Shown(_) => Ok(
                (),
            ),
        }
    }

    // What is kept of what is stated.
    pub fn of(alloc: Global, stated: &[Stated]) -> Result<Firsts, Memory>
        ensures { (ts : List Expression) → IfOk result (λ x. AreFirsts (items_in ts stated.now) x.variables.entries x.rules.entries x.greatest.items) }
    {
        let mut firsts = Firsts {
            variables: HashMap::new(alloc),
            rules: HashMap::new(alloc),
            greatest: Vec::new(alloc),
        };
        'noting: for k in 0..stated.len() {
            firsts.note(k as u64, &stated[k])?;
        }
        Ok(firsts)
    }
}
