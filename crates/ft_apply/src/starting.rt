//! Equations that start at the heads of theses, and the arguments at their right sides.

ghost use Rattle.std.specs.Prelude.{◌≡◌, ◌<◌, true, Some, length, IfOk};
ghost use Rattle.ft_theory.specs.Statements.{domain_count};
ghost use Rattle.ft_items.specs.Equal.{has_head as has_head_of, right_head, right_heads as right_heads_of};
ghost use Rattle.ft_reference.specs.Compare.{head_count, start_checks, equation_checks};
ghost use Rattle.ft_syntax.specs.Table.{argument_in, arguments_in, BodyBelow, ArgumentsBelow};
ghost use Rattle.ft_kernel.specs.State.{IsThesisOf};
ghost use Rattle.ft_apply.specs.Named.{entry_of, statements_of, AreThesesOf};
ghost use Rattle.ft_apply.specs.Outcomes.{Asks};
ghost use Rattle.ft_apply.specs.Starting.{start_of, statements_from, next_checks, next_right, later_equations};
ghost use Rattle.ft_apply.specs.Equations.{equation_checks_in};

use crate::fitting::{compare, counts};
use crate::named::head;
use ft_base::Sequence;
use ft_judge::{Boundary, Fault, Form, Goal, Refusal};
use ft_kernel::{J, Kernel};
use ft_syntax::{Arg, E};
use std::alloc::Global;

// Whether the thesis is that of a type or a term, which have a head.
fn has_head(k: &Kernel, j: J) -> bool
    requires { IsThesisOf k.now j }
    ensures { result ≡ has_head_of (entry_of k.now.items j).statement }
{
    head(k, j).body.is_some()
}

// How many of the theses have a head.
#[tactic(auto, using(crate::proofs::Starts::counting_start, crate::proofs::Starts::counting_end, crate::proofs::Naming::thesis_named))]
fn count_heads(k: &Kernel, args: &[J]) -> usize
    requires { AreThesesOf k.now args.now }
    ensures { result ≡ head_count (statements_of k.now.items args.now) }
{
    let mut count = 0;
    for i in 0..args.len() {
        if has_head(k, args[i]) {
            count += 1;
        }
    }
    count
}

// For a type or a term and an equation of its kind: the goal of the equation from the one to the right side, and this side.
fn start(form: &Form, equation: &Form) -> Option<(Goal, E)>
    ensures { result ≡ start_of form.now equation.now }
{
    match (form, equation) {
        (Form::Ty(a), Form::EqTy(_, c)) => Some((Goal::EqTy(*a, *c), *c)),
        (Form::Tm(t, a), Form::EqTm(_, u, _)) => Some((Goal::EqTm(*t, *u, *a), *u)),
        _ => None,
    }
}

// The right side of the equation as an argument, where the equation starts at the thesis: it fits the boundary of the
// equation from the head of the thesis to that side.
fn right_of(k: &Kernel, j: J, e: J) -> Result<Arg, Fault>
    requires thesis { IsThesisOf k.now j }
    requires equation { IsThesisOf k.now e }
    ensures right { IfOk result (λ a. argument_in k.now.trees a ≡ (
      domain_count (entry_of k.now.items j).statement,
      Some (right_head (entry_of k.now.items e).statement),
    )) }
    ensures below { IfOk result (λ a. BodyBelow (length k.now.trees) a.body) }
    ensures checks { Asks k.now.trees (start_checks (entry_of k.now.items j).statement
        (entry_of k.now.items e).statement) result }
{
    let x = k.thesis_of(j);
    let y = k.thesis_of(e);
    let (goal, right) = match start(&x.form, &y.form) {
        Some(start) => start,
        None => return Err(Fault::Refused(Refusal::WrongForm)),
    };
    let binders = x.domains.items().len() as u64;
    let domains = x.domains.copy()?;
    match compare(k.terms(), y, &Boundary { domains, goal }) {
        Ok(()) => Ok(Arg {
            binders,
            body: Some(right),
        }),
        Err(refusal) => Err(Fault::Refused(refusal)),
    }
}

// The argument at the right sides in the place of the thesis, and the place of the equation that is next after it.
fn right_at(k: &Kernel, j: J, equations: &[J], next: usize) -> Result<(Arg, usize), Fault>
    requires thesis { IsThesisOf k.now j }
    requires equations { AreThesesOf k.now equations.now }
    requires there { has_head_of (entry_of k.now.items j).statement ≡ true →
        next < length equations.now }
    ensures right { IfOk result (λ r. argument_in k.now.trees r.0 ≡
        next_right (entry_of k.now.items j).statement
        (statements_from k.now.items next equations.now)) }
    ensures below { IfOk result (λ r. BodyBelow (length k.now.trees) r.0.body) }
    ensures later { IfOk result (λ r. statements_from k.now.items r.1 equations.now ≡
        later_equations (entry_of k.now.items j).statement
        (statements_from k.now.items next equations.now)) }
    ensures checks { Asks k.now.trees (next_checks (entry_of k.now.items j).statement
        (statements_from k.now.items next equations.now)) result }
{
    if !has_head(k, j) {
        return Ok((head(k, j), next));
    }
    match right_of(k, j, equations[next]) {
        Ok(right) => Ok((right, next + 1)),
        Err(fault) => Err(fault),
    }
}

// The right sides as arguments in the places of the theses, where each equation starts at its thesis.
#[tactic(auto, using(crate::proofs::Starts::starting_start, crate::proofs::Starts::starting_heads, crate::proofs::Starts::starting_there, crate::proofs::Starts::starting_end, crate::proofs::Naming::thesis_named))]
fn all_right(alloc: Global, k: &Kernel, args: &[J], equations: &[J]) -> Result<Sequence<Arg>, Fault>
    requires arguments { AreThesesOf k.now args.now }
    requires equations { AreThesesOf k.now equations.now }
    requires count { length equations.now ≡ head_count (statements_of k.now.items args.now) }
    ensures heads { IfOk result (λ r. arguments_in k.now.trees r ≡
        right_heads_of (statements_of k.now.items args.now)
        (statements_of k.now.items equations.now)) }
    ensures below { IfOk result (λ r. ArgumentsBelow (length k.now.trees) r) }
    ensures count { IfOk result (λ r. length r ≡ length args.now) }
    ensures checks { Asks k.now.trees (equation_checks (statements_of k.now.items args.now)
        (statements_of k.now.items equations.now)) result }
{
    let mut found = Sequence::new(alloc);
    let mut next = 0;
    for i in 0..args.len() {
        let (right, later) = match right_at(k, args[i], equations, next) {
            Ok(both) => both,
            Err(fault) => return Err(fault),
        };
        found.push(right)?;
        next = later;
    }
    Ok(found)
}

/// The right sides of the equations as arguments, in the places of the theses with a head, at which they start.
pub(crate) fn right_heads(
    alloc: Global,
    k: &Kernel,
    args: &[J],
    equations: &[J],
) -> Result<Sequence<Arg>, Fault>
    requires arguments { AreThesesOf k.now args.now }
    requires equations { AreThesesOf k.now equations.now }
    ensures heads { IfOk result (λ r. arguments_in k.now.trees r ≡
        right_heads_of (statements_of k.now.items args.now)
        (statements_of k.now.items equations.now)) }
    ensures below { IfOk result (λ r. ArgumentsBelow (length k.now.trees) r) }
    ensures count { IfOk result (λ r. length r ≡ length args.now) }
    ensures checks { Asks k.now.trees
        (equation_checks_in k.now.items args.now equations.now) result }
{
    let wanted = count_heads(k, args);
    if equations.len() != wanted {
        return Err(counts(equations.len(), wanted));
    }
    all_right(alloc, k, args, equations)
}
