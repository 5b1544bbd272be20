//! Units that are spent.

ghost use Rattle.std.specs.Prelude.{◌≡◌, ◌≤◌, ◌+◌, OnOk};
ghost use Rattle.ft_meaning.specs.Values.{spend as spend_unit};
ghost use Rattle.ft_telling.specs.Telling.{state_of, TellsUnit};

use crate::halt::{Halt, Why};
use ft_base::Units;
use ft_kernel::Kernel;

/// A unit is spent at a place. It takes no memory.
#[tactic(auto, using(crate::proofs::UnitSpent::unit_spent, crate::proofs::UnitSpent::unit_missing))]
pub fn spend(k: &Kernel, at: u64, units: &mut Units) -> Result<(), Halt>
    ensures means { TellsUnit (spend_unit at (state_of k.now units.old)) result k.now units.new }
    ensures used { OnOk result (units.new.used ≡ units.old.used + 1) }
    ensures more { units.old.used ≤ units.new.used }
    ensures total { units.new.total ≡ units.old.total }
{
    let _items = k.len();
    if units.spend() {
        return Ok(());
    }
    Err(Halt {
        at,
        why: Why::Spent,
    })
}
