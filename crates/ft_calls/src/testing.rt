//! Tests that calls share.

ghost use Rattle.std.specs.Prelude.{◌≡◌, ◌<◌, zero, length, true, false, OnOk, IfErr};
ghost use Rattle.ft_calls.specs.Forming.{equal_in, differ_at};
ghost use Rattle.ft_judge.specs.declared.fault.Refusal.TheVariants.{TypeDiffers, SidesDiffer};

use ft_judge::{Differ, Refusal};
use ft_syntax::{E, Terms};

/// Whether two expressions are one. It takes no memory.
pub fn same(t: &Terms, a: E, b: E) -> bool
    requires { (a < length t.now) × (b < length t.now) }
    ensures equal { result ≡ equal_in t.now a b }
    ensures back { result ≡ equal_in t.now b a }
{
    t.equal_expr(a, b)
}

/// Whether the type found is the one wanted, where no domains are around.
pub fn same_type(t: &Terms, found: E, wanted: E) -> Result<(), Refusal>
    requires { (found < length t.now) × (wanted < length t.now) }
    ensures equal { OnOk result (equal_in t.now found wanted ≡ true) }
    ensures back { OnOk result (equal_in t.now wanted found ≡ true) }
    ensures other { IfErr result (λ q. equal_in t.now found wanted ≡ false) }
    ensures refused { IfErr result (λ q. q ≡ TypeDiffers (differ_at zero found wanted)) }
{
    if same(t, found, wanted) {
        return Ok(());
    }
    Err(Refusal::TypeDiffers(Differ {
        found,
        wanted,
        under: 0,
    }))
}

/// Whether the side found is the one wanted, where no domains are around.
pub fn same_side(t: &Terms, found: E, wanted: E) -> Result<(), Refusal>
    requires { (found < length t.now) × (wanted < length t.now) }
    ensures equal { OnOk result (equal_in t.now found wanted ≡ true) }
    ensures back { OnOk result (equal_in t.now wanted found ≡ true) }
    ensures other { IfErr result (λ q. equal_in t.now found wanted ≡ false) }
    ensures refused { IfErr result (λ q. q ≡ SidesDiffer (differ_at zero found wanted)) }
{
    if same(t, found, wanted) {
        return Ok(());
    }
    Err(Refusal::SidesDiffer(Differ {
        found,
        wanted,
        under: 0,
    }))
}
