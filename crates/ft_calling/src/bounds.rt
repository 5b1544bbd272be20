//! Judgements against boundaries.

ghost use Rattle.std.specs.Prelude.{◌≡◌};
ghost use Rattle.ft_reference.specs.Nucleus.{fits_boundary};
ghost use Rattle.ft_kernel.specs.State.{IsThesisOf, IsBoundaryOf};
ghost use Rattle.ft_values.specs.Kept.{stated_at};

use ft_judge::fits as thesis_fits;
use ft_kernel::{B, J, Kernel};

/// Whether the judgement fits the boundary. It takes no memory.
#[tactic(auto, using(crate::proofs::Fitting::fits_boundary_is))]
pub fn fits(k: &Kernel, j: J, b: B) -> bool
    requires judgement { IsThesisOf k.now j }
    requires boundary { IsBoundaryOf k.now b }
    ensures { result ≡ fits_boundary (stated_at k.now j) (stated_at k.now b) }
{
    thesis_fits(k.terms(), k.thesis_of(j), k.boundary_at(b)).is_ok()
}
