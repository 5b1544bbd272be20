//! Statements of which each expression is moved: opened or closed.

ghost use Rattle.std.specs.Prelude.{◌≡◌, ◌<◌, ◌&&◌, length, IfOk, IfErr};
ghost use Rattle.ft_theory.specs.Statements.{map_claim};
ghost use Rattle.ft_theory.specs.Small.{IsSmall};
ghost use Rattle.ft_items.specs.Equal.{equal_claims, equal_expressions, equal_statements};
ghost use Rattle.ft_syntax.specs.Table.{tree, AllBelow};
ghost use Rattle.ft_syntax.specs.declared.syntax.SynFault.TheVariants.{TooBig};
ghost use Rattle.ft_judge.specs.Meaning.{under};
ghost use Rattle.ft_steps.specs.Parts.{claim_in, plain_in, ClaimBelow};
ghost use Rattle.ft_steps.specs.Moving.{domains_moved, moved, moved_statement, MoveBelow};

use crate::parts::Claim;
use ft_base::Memory;
use ft_syntax::{E, SynFault, Terms};

/// What is done to each expression of a statement: a term is put for the variable of a domain that stood first, or a free
/// variable is bound as that of a new first domain.
#[derive(Clone, Copy)]
pub enum Move {
    Open(E),
    Close(u64),
}

// The expression moved, in a table of its own.
#[tactic(auto, using(crate::proofs::Moves::opened_is, crate::proofs::Moves::closed_is, crate::proofs::Moves::opened_big, crate::proofs::Moves::closed_big, ft_syntax::specs::Laws::below_extends))]
fn form(own: &mut Terms, terms: &Terms, work: &Move, under: u64, e: E) -> Result<E, SynFault>
    requires e { e < length terms.now }
    requires work { MoveBelow (length terms.now) work.now }
    ensures within { IfOk result (λ r. r < length own.new) }
    ensures tree { IfOk result (λ r. tree own.new r ≡ moved terms.now work.now under (tree terms.now e)) }
    ensures too_big { IfErr result (λ f. f ≡ TooBig → IsSmall (moved terms.now work.now under (tree terms.now e)) → ⊥) }
{
    let copied = own.copy_from(terms, e)?;
    match work {
        Move::Open(by) => {
            let put = own.copy_from(terms, *by)?;
            own.open_bound(copied, under, put)
        }
        Move::Close(v) => own.close_free(copied, under, *v),
    }
}

/// Whether the second expression is the first one moved below so many domains. The table `own` serves to form it.
#[tactic(auto, using(crate::proofs::Moves::big_differs, crate::proofs::Moves::formed_same))]
pub fn is_moved(
    own: &mut Terms,
    terms: &Terms,
    work: &Move,
    under: u64,
    e: E,
    found: E,
) -> Result<bool, Memory>
    requires e { (e < length terms.now) × (found < length terms.now) }
    requires work { MoveBelow (length terms.now) work.now }
    ensures { IfOk result (λ yes. yes ≡ equal_expressions (moved terms.now work.now under (tree terms.now e)) (tree terms.now found)) }
{
    // what is found is small, so that what is not small is another
    let _ = terms.depth(found);
    match form(own, terms, work, under, e) {
        Err(SynFault::TooBig) => Ok(false),
        Err(SynFault::Memory) => Err(Memory),
        Ok(formed) => {
            let copied = own.copy_from(terms, found)?;
            Ok(own.equal_expr(formed, copied))
        }
    }
}

fn are_moved(
    own: &mut Terms,
    terms: &Terms,
    work: &Move,
    under: u64,
    es: (E, E),
    found: (E, E),
) -> Result<bool, Memory>
    requires es { (es.0 < length terms.now) × (es.1 < length terms.now) }
    requires found { (found.0 < length terms.now) × (found.1 < length terms.now) }
    requires work { MoveBelow (length terms.now) work.now }
    ensures { IfOk result (λ yes. yes ≡ (equal_expressions (moved terms.now work.now under (tree terms.now es.0)) (tree terms.now found.0) && equal_expressions (moved terms.now work.now under (tree terms.now es.1)) (tree terms.now found.1))) }
{
    if is_moved(own, terms, work, under, es.0, found.0)? {
        is_moved(own, terms, work, under, es.1, found.1)
    } else {
        Ok(false)
    }
}

fn three_moved(
    own: &mut Terms,
    terms: &Terms,
    work: &Move,
    under: u64,
    es: (E, E, E),
    found: (E, E, E),
) -> Result<bool, Memory>
    requires es { (es.0 < length terms.now) × (es.1 < length terms.now) × (es.2 < length terms.now) }
    requires found { (found.0 < length terms.now) × (found.1 < length terms.now) × (found.2 < length terms.now) }
    requires work { MoveBelow (length terms.now) work.now }
    ensures { IfOk result (λ yes. yes ≡ (equal_expressions (moved terms.now work.now under (tree terms.now es.0)) (tree terms.now found.0) && equal_expressions (moved terms.now work.now under (tree terms.now es.1)) (tree terms.now found.1) && equal_expressions (moved terms.now work.now under (tree terms.now es.2)) (tree terms.now found.2))) }
{
    let first = (es.0, es.1);
    let second = (found.0, found.1);
    if are_moved(own, terms, work, under, first, second)? {
        is_moved(own, terms, work, under, es.2, found.2)
    } else {
        Ok(false)
    }
}

// Whether the second claim or goal is the first one moved.
fn is_claim_moved(
    own: &mut Terms,
    terms: &Terms,
    work: &Move,
    under: u64,
    c: Claim,
    d: Claim,
) -> Result<bool, Memory>
    requires c { ClaimBelow (length terms.now) c }
    requires d { ClaimBelow (length terms.now) d }
    requires work { MoveBelow (length terms.now) work.now }
    ensures { IfOk result (λ yes. yes ≡ equal_claims (map_claim (moved terms.now work.now under) (claim_in terms.now c)) (claim_in terms.now d)) }
{
    match c {
        Claim::IsType(a) => match d {
            Claim::IsType(b) => is_moved(own, terms, work, under, a, b),
            _ => Ok(false),
        },
        Claim::HasType(t, a) => match d {
            Claim::HasType(u, b) => are_moved(own, terms, work, under, (t, a), (u, b)),
            _ => Ok(false),
        },
        Claim::EqualTypes(a, b) => match d {
            Claim::EqualTypes(e, f) => are_moved(own, terms, work, under, (a, b), (e, f)),
            _ => Ok(false),
        },
        Claim::EqualTerms(s, t, a) => match d {
            Claim::EqualTerms(u, v, b) => {
                three_moved(own, terms, work, under, (s, t, a), (u, v, b))
            }
            _ => Ok(false),
        },
        Claim::TypeGoal => match d {
            Claim::TypeGoal => Ok(true),
            _ => Ok(false),
        },
        Claim::TermGoal(a) => match d {
            Claim::TermGoal(b) => is_moved(own, terms, work, under, a, b),
            _ => Ok(false),
        },
        Claim::TypeEquationGoal(a, b) => match d {
            Claim::TypeEquationGoal(e, f) => are_moved(own, terms, work, under, (a, b), (e, f)),
            _ => Ok(false),
        },
        Claim::TermEquationGoal(s, t, a) => match d {
            Claim::TermEquationGoal(u, v, b) => {
                three_moved(own, terms, work, under, (s, t, a), (u, v, b))
            }
            _ => Ok(false),
        },
    }
}

/// Whether the second domains are the first ones moved, each below those before it.
#[tactic(auto, using(crate::proofs::Moves::domains_next, crate::proofs::Moves::domains_not, crate::proofs::Moves::domains_end, ft_syntax::specs::Laws::one_below))]
pub fn are_domains_moved(
    own: &mut Terms,
    terms: &Terms,
    work: &Move,
    xs: &[E],
    ys: &[E],
) -> Result<bool, Memory>
    requires xs { AllBelow (length terms.now) xs.now }
    requires ys { AllBelow (length terms.now) ys.now }
    requires work { MoveBelow (length terms.now) work.now }
    requires as_many { length xs.now ≡ length ys.now }
    ensures { IfOk result (λ yes. yes ≡ domains_moved terms.now work.now 0 xs.now ys.now) }
{
    for k in 0..xs.len() {
        if !is_moved(own, terms, work, k as u64, xs[k], ys[k])? {
            return Ok(false);
        }
    }
    Ok(true)
}

/// Whether the second statement, of these domains and this claim, is the first one with each expression moved.
#[tactic(auto, using(crate::proofs::Moves::other_number, crate::proofs::Moves::other_domains, crate::proofs::Moves::moved_under))]
pub fn is_statement_moved(
    own: &mut Terms,
    terms: &Terms,
    work: &Move,
    xs: &[E],
    c: Claim,
    ys: &[E],
    d: Claim,
) -> Result<bool, Memory>
    requires xs { AllBelow (length terms.now) xs.now }
    requires ys { AllBelow (length terms.now) ys.now }
    requires c { ClaimBelow (length terms.now) c }
    requires d { ClaimBelow (length terms.now) d }
    requires work { MoveBelow (length terms.now) work.now }
    ensures { IfOk result (λ yes. yes ≡ equal_statements (moved_statement terms.now work.now (under terms.now xs.now (plain_in terms.now c))) (under terms.now ys.now (plain_in terms.now d))) }
{
    if xs.len() != ys.len() {
        return Ok(false);
    }
    if are_domains_moved(own, terms, work, xs, ys)? {
        is_claim_moved(own, terms, work, xs.len() as u64, c, d)
    } else {
        Ok(false)
    }
}
