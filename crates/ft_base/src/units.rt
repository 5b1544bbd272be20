//! Units of budget.

ghost use Rattle.std.specs.Prelude.{◌≡◌, ◌+◌, ◌≤◌, ◌<◌, ◌↔◌, IsTrue, if◌then◌else◌};

use std::marker::Model;

/// A budget of units, and how many of them are used.
#[derive(Debug, Drop)]
pub struct Units {
    budget: u64,
    used: u64,
}

impl Model for Units {
    ghost use Rattle.std.specs.Prelude.{◌≤◌};
    ghost use Rattle.ft_base.specs.Budget.{Budget};

    ghost Value = { Budget };

    ghost view = { λ u. record { total = u.budget; used = u.used } };

    ghost invariant = { λ u. u.used ≤ u.budget };
}

impl Units {
    /// So many units, and none used.
    pub fn new(budget: u64) -> Units
        ensures total { result.total ≡ budget }
        ensures used { result.used ≡ 0 }
    {
        Units { budget, used: 0 }
    }

    /// How many units are used.
    pub fn used(&self) -> u64
        ensures value { result ≡ self.now.used }
        ensures within { result ≤ self.now.total }
    {
        self.used
    }

    /// Uses one more unit, and answers true. Where all are used, it answers false and changes nothing.
    pub fn spend(&mut self) -> bool
        ensures spent { IsTrue result ↔ (self.old.used < self.old.total) }
        ensures used { self.new.used ≡ (if result then self.old.used + 1 else self.old.used) }
        ensures total { self.new.total ≡ self.old.total }
    {
        if self.used == self.budget {
            return false;
        }
        self.used += 1;
        true
    }
}
