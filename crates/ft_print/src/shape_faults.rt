//! Why a rule is none for the equality checker.

ghost use Rattle.std.specs.Prelude.{◌≡◌, IfOk};
ghost use Rattle.ft_items.specs.Item.{Name as AnyName};
ghost use Rattle.ft_items.specs.Store.{Declarations};
ghost use Rattle.ft_equality.specs.Shapes.{NotEquation, EquationPremise, BadLeft, Undetermined};
ghost use Rattle.ft_meaning.specs.Values.{OfShape};
ghost use Rattle.ft_meaning.specs.Faults.{fault_text};

use crate::fixed::fixed_text;
use ft_base::{Memory, Text};
use std::alloc::Global;

/// Why a run ends at an equality rule that is no equation, or not one of terms.
pub fn not_equation_text(alloc: Global) -> Result<Text, Memory>
    ensures { IfOk result
        (λ t. (W : Declarations) (n : AnyName) → t ≡ fault_text W n (OfShape NotEquation)) }
{
    fixed_text(alloc, "shape: not an equation")
}

/// Why a run ends at an equality rule whose premise, counted from 1, is an equation.
pub fn equation_premise_text(alloc: Global, premise: u64) -> Result<Text, Memory>
    ensures { IfOk result
        (λ t. (W : Declarations) (n : AnyName) →
        t ≡ fault_text W n (OfShape (EquationPremise premise))) }
{
    let mut out = Text::new(alloc);
    out.push_str("shape: equation premise ")?;
    out.push_number(premise)?;
    Ok(out)
}

/// Why a run ends at an equality rule whose left side, or whose last two premises, have not the form that is asked.
pub fn bad_left_text(alloc: Global) -> Result<Text, Memory>
    ensures { IfOk result (λ t. (W : Declarations) (n : AnyName) → t ≡ fault_text W n (OfShape BadLeft)) }
{
    fixed_text(alloc, "shape: bad left side")
}

/// Why a run ends at an equality rule whose pattern does not determine a premise, counted from 1.
pub fn undetermined_text(alloc: Global, premise: u64) -> Result<Text, Memory>
    ensures { IfOk result
        (λ t. (W : Declarations) (n : AnyName) → t ≡ fault_text W n (OfShape (Undetermined premise))) }
{
    let mut out = Text::new(alloc);
    out.push_str("shape: premise ")?;
    out.push_number(premise)?;
    out.push_str(" undetermined")?;
    Ok(out)
}
