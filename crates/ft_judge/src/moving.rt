//! Opening and closing of theses and boundaries.

ghost use Rattle.std.specs.Prelude.{◌≡◌, ℕ, ◌+◌, ◌<◌, List, [], ◌∷◌, ◌++◌, length, map, drop, IfOk, IfErr};
ghost use Rattle.ft_theory.specs.Statements.{opened, abstracted, close_statement, map_claim, AllOfClaim};
ghost use Rattle.ft_theory.specs.Small.{IsSmall};
ghost use Rattle.ft_syntax.specs.Table.{tree, Extends, AllBelow};
ghost use Rattle.ft_syntax.specs.declared.syntax.SynFault.TheVariants.{TooBig};
ghost use Rattle.ft_judge.specs.Meaning.{claim_in, goal_in, thesis_in, boundary_in, FormBelow, GoalBelow, ThesisBelow, BoundaryBelow};
ghost use Rattle.ft_judge.specs.Moving.{moved, moved_list, MoveBelow, IsSmallStatement, AreSmall};

use crate::judgement::{Boundary, Domains, Form, Goal, Thesis};
use ft_syntax::{E, SynFault, Terms};
use std::alloc::Global;

// What is done to each expression: the variable of the first domain is opened, or a free variable closed.
#[derive(Clone, Copy)]
pub enum Move {
    Open(E),
    Close(u64),
}

/// The thesis without its first domain, with `by` for that domain's variable. `TooBig` comes exactly where an expression of
/// the outcome is not small. The table's earlier expressions are as before, also after a fault.
pub fn open_first(alloc: Global, t: &mut Terms, x: &Thesis, by: E) -> Result<Thesis, SynFault>
    requires thesis { ThesisBelow (length t.old) x.now }
    requires by { by < length t.old }
    requires domain { 0 < length x.now.domains }
    ensures within { IfOk result (λ r. ThesisBelow (length t.new) r) }
    ensures thesis { IfOk result (λ r. thesis_in t.new r ≡ opened (tree t.old by) (thesis_in t.old x.now)) }
    ensures goes_on { Extends t.old t.new }
    ensures too_big { IfErr result (λ f. f ≡ TooBig → IsSmallStatement (opened (tree t.old by) (thesis_in t.old x.now)) → ⊥) }
{
    let work = Move::Open(by);
    let domains = match open_domains(alloc, t, x.domains.items(), &work) {
        Ok(domains) => domains,
        Err(fault) => return Err(fault),
    };
    match move_form(t, &x.form, domains.items().len() as u64, &work) {
        Ok(form) => Ok(Thesis { domains, form }),
        Err(fault) => Err(fault),
    }
}

/// The boundary without its first domain, with `by` for that domain's variable; the faults as for `open_first`.
pub fn open_first_boundary(
    alloc: Global,
    t: &mut Terms,
    x: &Boundary,
    by: E,
) -> Result<Boundary, SynFault>
    requires boundary { BoundaryBelow (length t.old) x.now }
    requires by { by < length t.old }
    requires domain { 0 < length x.now.domains }
    ensures within { IfOk result (λ r. BoundaryBelow (length t.new) r) }
    ensures boundary { IfOk result (λ r. boundary_in t.new r ≡ opened (tree t.old by) (boundary_in t.old x.now)) }
    ensures goes_on { Extends t.old t.new }
    ensures too_big { IfErr result (λ f. f ≡ TooBig → IsSmallStatement (opened (tree t.old by) (boundary_in t.old x.now)) → ⊥) }
{
    let work = Move::Open(by);
    let domains = match open_domains(alloc, t, x.domains.items(), &work) {
        Ok(domains) => domains,
        Err(fault) => return Err(fault),
    };
    match move_goal(t, &x.goal, domains.items().len() as u64, &work) {
        Ok(goal) => Ok(Boundary { domains, goal }),
        Err(fault) => Err(fault),
    }
}

/// The thesis with the free variable `v`, of the type `ty`, bound as the variable of a new first domain; the faults as for
/// `open_first`.
pub fn close_over(
    alloc: Global,
    t: &mut Terms,
    x: &Thesis,
    v: u64,
    ty: E,
) -> Result<Thesis, SynFault>
    requires thesis { ThesisBelow (length t.old) x.now }
    requires ty { ty < length t.old }
    ensures within { IfOk result (λ r. ThesisBelow (length t.new) r) }
    ensures thesis { IfOk result (λ r. thesis_in t.new r ≡ abstracted (tree t.old ty) (close_statement v (thesis_in t.old x.now))) }
    ensures goes_on { Extends t.old t.new }
    ensures too_big { IfErr result (λ f. f ≡ TooBig → IsSmallStatement (close_statement v (thesis_in t.old x.now)) → ⊥) }
{
    let work = Move::Close(v);
    let domains = match close_domains(alloc, t, x.domains.items(), &work, ty) {
        Ok(domains) => domains,
        Err(fault) => return Err(fault),
    };
    match move_form(t, &x.form, x.domains.items().len() as u64, &work) {
        Ok(form) => Ok(Thesis { domains, form }),
        Err(fault) => Err(fault),
    }
}

/// The boundary with the free variable `v`, of the type `ty`, bound as the variable of a new first domain; the faults as for
/// `open_first`.
pub fn close_over_boundary(
    alloc: Global,
    t: &mut Terms,
    x: &Boundary,
    v: u64,
    ty: E,
) -> Result<Boundary, SynFault>
    requires boundary { BoundaryBelow (length t.old) x.now }
    requires ty { ty < length t.old }
    ensures within { IfOk result (λ r. BoundaryBelow (length t.new) r) }
    ensures boundary { IfOk result (λ r. boundary_in t.new r ≡ abstracted (tree t.old ty) (close_statement v (boundary_in t.old x.now))) }
    ensures goes_on { Extends t.old t.new }
    ensures too_big { IfErr result (λ f. f ≡ TooBig → IsSmallStatement (close_statement v (boundary_in t.old x.now)) → ⊥) }
{
    let work = Move::Close(v);
    let domains = match close_domains(alloc, t, x.domains.items(), &work, ty) {
        Ok(domains) => domains,
        Err(fault) => return Err(fault),
    };
    match move_goal(t, &x.goal, x.domains.items().len() as u64, &work) {
        Ok(goal) => Ok(Boundary { domains, goal }),
        Err(fault) => Err(fault),
    }
}

// The domains after the first, opened.
#[tactic(auto, using(crate::proofs::Moves::rest_below, crate::proofs::Moves::rest_is, crate::proofs::Moves::rest_count))]
fn open_domains(alloc: Global, t: &mut Terms, xs: &[E], work: &Move) -> Result<Domains, SynFault>
    requires domains { AllBelow (length t.old) xs.now }
    requires work { MoveBelow (length t.old) work.now }
    requires first { 0 < length xs.now }
    ensures within { IfOk result (λ r. AllBelow (length t.new) r) }
    ensures domains { IfOk result (λ r. map (tree t.new) r ≡ moved_list t.old work.now 0 (map (tree t.old) (drop 1 xs.now))) }
    ensures count { IfOk result (λ r. length r + 1 ≡ length xs.now) }
    ensures goes_on { Extends t.old t.new }
    ensures too_big { IfErr result (λ f. f ≡ TooBig → AreSmall (moved_list t.old work.now 0 (map (tree t.old) (drop 1 xs.now))) → ⊥) }
{
    move_domains(t, &xs[1..], work, Domains::new(alloc))
}

// The type, and then the domains, closed.
fn close_domains(
    alloc: Global,
    t: &mut Terms,
    xs: &[E],
    work: &Move,
    ty: E,
) -> Result<Domains, SynFault>
    requires domains { AllBelow (length t.old) xs.now }
    requires work { MoveBelow (length t.old) work.now }
    requires ty { ty < length t.old }
    ensures within { IfOk result (λ r. AllBelow (length t.new) r) }
    ensures domains { IfOk result (λ r. map (tree t.new) r ≡ tree t.old ty ∷ moved_list t.old work.now 0 (map (tree t.old) xs.now)) }
    ensures goes_on { Extends t.old t.new }
    ensures too_big { IfErr result (λ f. f ≡ TooBig → AreSmall (moved_list t.old work.now 0 (map (tree t.old) xs.now)) → ⊥) }
{
    let mut first = Domains::new(alloc);
    first.push(ty)?;
    move_domains(t, xs, work, first)
}

// The list with the domains after it, each moved below those before it.
#[tactic(auto, using(crate::proofs::Moves::moving_start, crate::proofs::Moves::moving_more, crate::proofs::Moves::moving_refused, crate::proofs::Moves::moving_end, crate::proofs::Moves::moving_below, crate::proofs::Moves::moving_work))]
fn move_domains(
    t: &mut Terms,
    xs: &[E],
    work: &Move,
    mut list: Domains,
) -> Result<Domains, SynFault>
    requires domains { AllBelow (length t.old) xs.now }
    requires work { MoveBelow (length t.old) work.now }
    requires list { AllBelow (length t.old) list }
    ensures within { IfOk result (λ r. AllBelow (length t.new) r) }
    ensures domains { IfOk result (λ r. map (tree t.new) r ≡ map (tree t.old) list ++ moved_list t.old work.now 0 (map (tree t.old) xs.now)) }
    ensures goes_on { Extends t.old t.new }
    ensures too_big { IfErr result (λ f. f ≡ TooBig → AreSmall (moved_list t.old work.now 0 (map (tree t.old) xs.now)) → ⊥) }
{
    for i in 0..xs.len() {
        let e = move_one(t, xs[i], i as u64, work)?;
        list.push(e)?;
    }
    Ok(list)
}

// The form with its expressions moved.
#[tactic(auto, using(crate::proofs::Moves::form_ty, crate::proofs::Moves::form_tm, crate::proofs::Moves::form_eqty, crate::proofs::Moves::form_eqtm, crate::proofs::Moves::form_ty_big, crate::proofs::Moves::form_tm_big, crate::proofs::Moves::form_eqty_big, crate::proofs::Moves::form_eqtm_big))]
fn move_form(t: &mut Terms, form: &Form, under: u64, work: &Move) -> Result<Form, SynFault>
    requires form { FormBelow (length t.old) form.now }
    requires work { MoveBelow (length t.old) work.now }
    ensures within { IfOk result (λ r. FormBelow (length t.new) r) }
    ensures claim { IfOk result (λ r. claim_in t.new r ≡ map_claim (moved t.old work.now under) (claim_in t.old form.now)) }
    ensures goes_on { Extends t.old t.new }
    ensures too_big { IfErr result (λ f. f ≡ TooBig → AllOfClaim IsSmall (map_claim (moved t.old work.now under) (claim_in t.old form.now)) → ⊥) }
{
    match *form {
        Form::Ty(a) => match move_one(t, a, under, work) {
            Ok(a) => Ok(Form::Ty(a)),
            Err(fault) => Err(fault),
        },
        Form::Tm(e, a) => match move_two(t, e, a, under, work) {
            Ok((e, a)) => Ok(Form::Tm(e, a)),
            Err(fault) => Err(fault),
        },
        Form::EqTy(a, b) => match move_two(t, a, b, under, work) {
            Ok((a, b)) => Ok(Form::EqTy(a, b)),
            Err(fault) => Err(fault),
        },
        Form::EqTm(l, r, a) => match move_three(t, l, r, a, under, work) {
            Ok((l, r, a)) => Ok(Form::EqTm(l, r, a)),
            Err(fault) => Err(fault),
        },
    }
}

// The goal with its expressions moved.
#[tactic(auto, using(crate::proofs::Moves::goal_ty, crate::proofs::Moves::goal_tm, crate::proofs::Moves::goal_eqty, crate::proofs::Moves::goal_eqtm, crate::proofs::Moves::goal_tm_big, crate::proofs::Moves::goal_eqty_big, crate::proofs::Moves::goal_eqtm_big, ft_syntax::specs::Laws::extends_same))]
fn move_goal(t: &mut Terms, goal: &Goal, under: u64, work: &Move) -> Result<Goal, SynFault>
    requires goal { GoalBelow (length t.old) goal.now }
    requires work { MoveBelow (length t.old) work.now }
    ensures within { IfOk result (λ r. GoalBelow (length t.new) r) }
    ensures claim { IfOk result (λ r. goal_in t.new r ≡ map_claim (moved t.old work.now under) (goal_in t.old goal.now)) }
    ensures goes_on { Extends t.old t.new }
    ensures too_big { IfErr result (λ f. f ≡ TooBig → AllOfClaim IsSmall (map_claim (moved t.old work.now under) (goal_in t.old goal.now)) → ⊥) }
{
    match *goal {
        Goal::Ty => Ok(Goal::Ty),
        Goal::Tm(a) => match move_one(t, a, under, work) {
            Ok(a) => Ok(Goal::Tm(a)),
            Err(fault) => Err(fault),
        },
        Goal::EqTy(a, b) => match move_two(t, a, b, under, work) {
            Ok((a, b)) => Ok(Goal::EqTy(a, b)),
            Err(fault) => Err(fault),
        },
        Goal::EqTm(l, r, a) => match move_three(t, l, r, a, under, work) {
            Ok((l, r, a)) => Ok(Goal::EqTm(l, r, a)),
            Err(fault) => Err(fault),
        },
    }
}

// The expression moved.
#[tactic(auto, using(crate::proofs::Moves::moved_open, crate::proofs::Moves::moved_close, crate::proofs::Moves::moved_open_big, crate::proofs::Moves::moved_close_big, crate::proofs::Moves::put_below))]
fn move_one(t: &mut Terms, e: E, under: u64, work: &Move) -> Result<E, SynFault>
    requires { (e < length t.old) × MoveBelow (length t.old) work.now }
    ensures within { IfOk result (λ r. r < length t.new) }
    ensures tree { IfOk result (λ r. tree t.new r ≡ moved t.old work.now under (tree t.old e)) }
    ensures goes_on { Extends t.old t.new }
    ensures too_big { IfErr result (λ f. f ≡ TooBig → IsSmall (moved t.old work.now under (tree t.old e)) → ⊥) }
{
    match *work {
        Move::Open(by) => match t.open_bound(e, under, by) {
            Ok(r) => Ok(r),
            Err(fault) => Err(fault),
        },
        Move::Close(v) => match t.close_free(e, under, v) {
            Ok(r) => Ok(r),
            Err(fault) => Err(fault),
        },
    }
}

// Two expressions moved.
#[tactic(auto, using(crate::proofs::Moves::next_moved, crate::proofs::Moves::next_work, ft_syntax::specs::Laws::below_extends, ft_syntax::specs::Laws::tree_extends, ft_syntax::specs::Laws::extends_trans, crate::proofs::Moves::two_big))]
fn move_two(t: &mut Terms, a: E, b: E, under: u64, work: &Move) -> Result<(E, E), SynFault>
    requires { (a < length t.old) × (b < length t.old) × MoveBelow (length t.old) work.now }
    ensures within { IfOk result (λ r. (r.0 < length t.new) × (r.1 < length t.new)) }
    ensures first { IfOk result (λ r. tree t.new r.0 ≡ moved t.old work.now under (tree t.old a)) }
    ensures second { IfOk result (λ r. tree t.new r.1 ≡ moved t.old work.now under (tree t.old b)) }
    ensures goes_on { Extends t.old t.new }
    ensures too_big { IfErr result (λ f. f ≡ TooBig → IsSmall (moved t.old work.now under (tree t.old a)) → IsSmall (moved t.old work.now under (tree t.old b)) → ⊥) }
{
    let first = move_one(t, a, under, work)?;
    let second = move_one(t, b, under, work)?;
    Ok((first, second))
}

// Three expressions moved.
#[tactic(auto, using(crate::proofs::Moves::next_moved, crate::proofs::Moves::next_work, ft_syntax::specs::Laws::below_extends, ft_syntax::specs::Laws::tree_extends, ft_syntax::specs::Laws::extends_trans, crate::proofs::Moves::two_big))]
fn move_three(
    t: &mut Terms,
    a: E,
    b: E,
    c: E,
    under: u64,
    work: &Move,
) -> Result<(E, E, E), SynFault>
    requires { (a < length t.old) × (b < length t.old) × (c < length t.old) × MoveBelow (length t.old) work.now }
    ensures within { IfOk result (λ r. (r.0 < length t.new) × (r.1 < length t.new) × (r.2 < length t.new)) }
    ensures first { IfOk result (λ r. tree t.new r.0 ≡ moved t.old work.now under (tree t.old a)) }
    ensures second { IfOk result (λ r. tree t.new r.1 ≡ moved t.old work.now under (tree t.old b)) }
    ensures third { IfOk result (λ r. tree t.new r.2 ≡ moved t.old work.now under (tree t.old c)) }
    ensures goes_on { Extends t.old t.new }
    ensures too_big { IfErr result (λ f. f ≡ TooBig → IsSmall (moved t.old work.now under (tree t.old a)) → IsSmall (moved t.old work.now under (tree t.old b)) → IsSmall (moved t.old work.now under (tree t.old c)) → ⊥) }
{
    let first = move_one(t, a, under, work)?;
    let second = move_one(t, b, under, work)?;
    let third = move_one(t, c, under, work)?;
    Ok((first, second, third))
}
