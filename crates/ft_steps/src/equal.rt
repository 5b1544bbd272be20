//! Whether two statements are the same.

ghost use Rattle.std.specs.Prelude.{◌≡◌, ◌<◌, ◌&&◌, length};
ghost use Rattle.ft_items.specs.Equal.{equal_claims, equal_expressions, equal_statements};
ghost use Rattle.ft_syntax.specs.Table.{tree, AllBelow};
ghost use Rattle.ft_steps.specs.Parts.{claim_in, equal_domains, statement_in, ClaimBelow, PartsBelow};

use crate::parts::{Claim, Parts};
use ft_syntax::{E, Terms};

/// Whether two expressions are the same.
#[tactic(auto, using(ft_sound::proofs::EqualLemmas::by_equal))]
pub fn same(terms: &Terms, a: E, b: E) -> bool
    requires { (a < length terms.now) × (b < length terms.now) }
    ensures { result ≡ equal_expressions (tree terms.now a) (tree terms.now b) }
{
    terms.equal_expr(a, b)
}

fn same_two(terms: &Terms, x: (E, E), y: (E, E)) -> bool
    requires x { (x.0 < length terms.now) × (x.1 < length terms.now) }
    requires y { (y.0 < length terms.now) × (y.1 < length terms.now) }
    ensures { result ≡ (equal_expressions (tree terms.now x.0) (tree terms.now y.0) && equal_expressions (tree terms.now x.1) (tree terms.now y.1)) }
{
    same(terms, x.0, y.0) && same(terms, x.1, y.1)
}

fn same_three(terms: &Terms, x: (E, E, E), y: (E, E, E)) -> bool
    requires x { (x.0 < length terms.now) × (x.1 < length terms.now) × (x.2 < length terms.now) }
    requires y { (y.0 < length terms.now) × (y.1 < length terms.now) × (y.2 < length terms.now) }
    ensures { result ≡ (equal_expressions (tree terms.now x.0) (tree terms.now y.0) && equal_expressions (tree terms.now x.1) (tree terms.now y.1) && equal_expressions (tree terms.now x.2) (tree terms.now y.2)) }
{
    same_two(terms, (x.0, x.1), (y.0, y.1)) && same(terms, x.2, y.2)
}

fn same_claims(terms: &Terms, c: Claim, d: Claim) -> bool
    requires c { ClaimBelow (length terms.now) c }
    requires d { ClaimBelow (length terms.now) d }
    ensures { result ≡ equal_claims (claim_in terms.now c) (claim_in terms.now d) }
{
    match c {
        Claim::IsType(a) => match d {
            Claim::IsType(b) => same(terms, a, b),
            _ => false,
        },
        Claim::HasType(t, a) => match d {
            Claim::HasType(u, b) => same_two(terms, (t, a), (u, b)),
            _ => false,
        },
        Claim::EqualTypes(a, b) => match d {
            Claim::EqualTypes(e, f) => same_two(terms, (a, b), (e, f)),
            _ => false,
        },
        Claim::EqualTerms(s, t, a) => match d {
            Claim::EqualTerms(u, v, b) => same_three(terms, (s, t, a), (u, v, b)),
            _ => false,
        },
        Claim::TypeGoal => match d {
            Claim::TypeGoal => true,
            _ => false,
        },
        Claim::TermGoal(a) => match d {
            Claim::TermGoal(b) => same(terms, a, b),
            _ => false,
        },
        Claim::TypeEquationGoal(a, b) => match d {
            Claim::TypeEquationGoal(e, f) => same_two(terms, (a, b), (e, f)),
            _ => false,
        },
        Claim::TermEquationGoal(s, t, a) => match d {
            Claim::TermEquationGoal(u, v, b) => same_three(terms, (s, t, a), (u, v, b)),
            _ => false,
        },
    }
}

#[tactic(auto, using(crate::proofs::Equals::domains_next, crate::proofs::Equals::domains_not, crate::proofs::Equals::domains_end, ft_syntax::specs::Laws::one_below))]
fn same_domains(terms: &Terms, xs: &[E], ys: &[E]) -> bool
    requires xs { AllBelow (length terms.now) xs.now }
    requires ys { AllBelow (length terms.now) ys.now }
    requires as_many { length xs.now ≡ length ys.now }
    ensures { result ≡ equal_domains terms.now xs.now ys.now }
{
    for k in 0..xs.len() {
        if !same(terms, xs[k], ys[k]) {
            return false;
        }
    }
    true
}

/// Whether two statements have the same domains and the same claim or goal.
#[tactic(auto, using(crate::proofs::Equals::other_statements, crate::proofs::Equals::other_domains, crate::proofs::Equals::same_under))]
pub fn is_same(terms: &Terms, x: &Parts<'_>, y: &Parts<'_>) -> bool
    requires x { PartsBelow (length terms.now) x.now }
    requires y { PartsBelow (length terms.now) y.now }
    ensures { result ≡ equal_statements (statement_in terms.now x.now) (statement_in terms.now y.now) }
{
    if x.domains.len() != y.domains.len() {
        return false;
    }
    if !same_domains(terms, x.domains, y.domains) {
        return false;
    }
    same_claims(terms, x.claim, y.claim)
}
