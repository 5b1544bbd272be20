//! A metavariable at its bound variables.

ghost use Rattle.std.specs.Prelude.{◌≡◌, length};
ghost use Rattle.ft_theory.specs.Expressions.{meta};
ghost use Rattle.ft_theory.specs.Statements.{domain_count, fill};
ghost use Rattle.ft_items.specs.Equal.{equal_statements};
ghost use Rattle.ft_items.specs.Rows.{bounds};
ghost use Rattle.ft_judge.specs.Meaning.{boundary_in, BoundaryBelow};
ghost use Rattle.ft_steps.specs.Parts.{claim_in, statement_in, ClaimBelow, PartsBelow};
ghost use Rattle.ft_placing.specs.Applied.{has_head_as};

use crate::expressions::is_generic;
use ft_judge::Boundary;
use ft_steps::{Claim, FromOne, Parts, boundary_parts, from_one, is_same};
use ft_syntax::Terms;

// Whether the claim is that of a thesis, whose head, where it has one, is the metavariable at the bound variables of `n` domains.
fn has_generic_head(terms: &Terms, m: u64, n: u64, c: Claim) -> bool
    requires { ClaimBelow (length terms.now) c }
    ensures { result ≡ has_head_as (meta m (bounds n)) (claim_in terms.now c) }
{
    match c {
        Claim::IsType(a) => is_generic(terms, m, n, a),
        Claim::HasType(t, _) => is_generic(terms, m, n, t),
        Claim::EqualTypes(..) => true,
        Claim::EqualTerms(..) => true,
        _ => false,
    }
}

/// Whether the statement is the boundary filled with the metavariable at the bound variables of its domains.
#[tactic(auto, using(crate::proofs::GenericFilled::whole_there, crate::proofs::GenericFilled::other_boundary, crate::proofs::GenericFilled::generic_filled))]
pub fn is_generic_thesis(terms: &Terms, m: u64, b: &Boundary, y: &Parts<'_>) -> bool
    requires b { BoundaryBelow (length terms.now) b.now }
    requires y { PartsBelow (length terms.now) y.now }
    ensures { result ≡ equal_statements (fill (boundary_in terms.now b.now)
        (meta m (bounds (domain_count (boundary_in terms.now b.now)))))
        (statement_in terms.now y.now) }
{
    let asked = boundary_parts(b);
    let stated = Parts {
        domains: y.domains,
        claim: y.claim,
    };
    let Some(whole) = from_one(FromOne::Boundary, stated) else {
        return false;
    };
    if !is_same(terms, &asked, &whole) {
        return false;
    }
    has_generic_head(terms, m, b.domains.items().len() as u64, y.claim)
}
