//! An argument for the next premise that is moved between arguments and the right sides of equations.

ghost use Rattle.std.specs.Prelude.{◌≡◌, ◌<◌, true, false, length, IfOk};
ghost use Rattle.ft_theory.specs.Statements.{fill as filled_with};
ghost use Rattle.ft_items.specs.Equal.{head as head_within};
ghost use Rattle.ft_items.specs.Store.{rules_in};
ghost use Rattle.ft_syntax.specs.Instances.{instance_in, PairsBelow};
ghost use Rattle.ft_judge.specs.Meaning.{thesis_in, boundary_in, ThesisBelow, BoundaryBelow};
ghost use Rattle.ft_kernel.specs.State.{IsThesisOf};
ghost use Rattle.ft_kernel.specs.Steps.{step_of};
ghost use Rattle.ft_calls.specs.Answers.{Answers, Stays};
ghost use Rattle.ft_apply.specs.Named.{entry_of, AreThesesOf};
ghost use Rattle.ft_apply.specs.Outcomes.{Asks, Formed, moved_between};
ghost use Rattle.ft_apply.specs.Instances.{boundary_at};
ghost use Rattle.ft_apply.specs.Equations.{conversion_step, conversion_checks_in, conversion_in, equal_argument_checks_in, side_instance};

use crate::applying::boundary_after;
use crate::fitting::{Given, arguments, counts, fit_at};
use crate::named::{instance, sets};
use crate::putting::put_boundary;
use crate::starting::right_heads;
use ft_calls::conclude;
use ft_judge::{Boundary, Fault, Thesis, fill, head_of};
use ft_kernel::{J, Judgements, Kernel, RuleId, Step};
use ft_syntax::Instance;
use std::alloc::Global;

// The instances that the heads of theses and the right sides of equations are.
#[derive(Debug, Drop)]
struct Sides {
    left: Instance,
    right: Instance,
}

/// The argument for the premise after `args`, moved from the boundary at these to that at the right sides of the equations,
/// which start at their heads; with `back`, from the right sides to the arguments.
pub fn convert_premise(
    alloc: Global,
    k: &mut Kernel,
    r: RuleId,
    args: &[J],
    equations: &[J],
    arg: J,
    back: bool,
) -> Result<J, Fault>
    requires rule { r < length (rules_in k.old.items) }
    requires arguments { AreThesesOf k.old args.now }
    requires equations { AreThesesOf k.old equations.now }
    requires argument { IsThesisOf k.old arg }
    ensures answers { Answers k.old (conversion_step back r args.now equations.now arg)
        result k.new }
    ensures thesis { IfOk result (λ j. IsThesisOf k.new j) }
{
    let _terms = k.terms();
    let thesis = match converted(alloc, k, r, args, equations, arg, back) {
        Ok(thesis) => thesis,
        Err(fault) => return Err(fault),
    };
    let left = sets(alloc, k, args)?;
    let right = sets(alloc, k, equations)?;
    let joined = right.union(k.asm_of(arg))?;
    let set = left.union(&joined)?;
    let lefts = Judgements::of(alloc, args)?;
    let rights = Judgements::of(alloc, equations)?;
    conclude(k, thesis, set, conversion(r, lefts, rights, arg, back))
}

// The step of such an argument.
fn conversion(r: RuleId, args: Judgements, equations: Judgements, arg: J, back: bool) -> Step
    ensures { step_of result ≡ conversion_step back r args equations arg }
{
    if back {
        return Step::Convback(r, args, equations, arg);
    }
    Step::Convprem(r, args, equations, arg)
}

// The argument at the boundary that it is moved to.
fn converted(
    alloc: Global,
    k: &mut Kernel,
    r: RuleId,
    args: &[J],
    equations: &[J],
    arg: J,
    back: bool,
) -> Result<Thesis, Fault>
    requires rule { r < length (rules_in k.old.items) }
    requires arguments { AreThesesOf k.old args.now }
    requires equations { AreThesesOf k.old equations.now }
    requires argument { IsThesisOf k.old arg }
    ensures within { IfOk result (λ x. ThesisBelow (length k.new.trees) x) }
    ensures formed { Formed (thesis_in k.new.trees) k.new.trees
        (conversion_checks_in back k.old.items r args.now equations.now arg)
        (conversion_in back k.old.items r args.now equations.now arg) result }
    ensures stays { Stays k.old k.new }
{
    let sides = match equal_arguments(alloc, k, r, args, equations) {
        Ok(sides) => sides,
        Err(fault) => return Err(fault),
    };
    let next = boundary_after(k, r, args.len())?;
    if back {
        return moved(alloc, k, arg, &next, &sides.right, &sides.left);
    }
    moved(alloc, k, arg, &next, &sides.left, &sides.right)
}

// The instances of the first premises, where the theses are arguments for these and the equations start at their heads.
fn equal_arguments(
    alloc: Global,
    k: &mut Kernel,
    r: RuleId,
    args: &[J],
    equations: &[J],
) -> Result<Sides, Fault>
    requires rule { r < length (rules_in k.old.items) }
    requires arguments { AreThesesOf k.old args.now }
    requires equations { AreThesesOf k.old equations.now }
    ensures left { IfOk result (λ s. instance_in k.new.trees s.left.pairs ≡
        side_instance false k.old.items r args.now equations.now) }
    ensures right { IfOk result (λ s. instance_in k.new.trees s.right.pairs ≡
        side_instance true k.old.items r args.now equations.now) }
    ensures left_pairs { IfOk result (λ s. PairsBelow (length k.new.trees) s.left.pairs) }
    ensures right_pairs { IfOk result (λ s. PairsBelow (length k.new.trees) s.right.pairs) }
    ensures checks { Asks k.new.trees
        (equal_argument_checks_in k.old.items r args.now equations.now) result }
    ensures stays { Stays k.old k.new }
{
    let premises = k.rule(r).premises.copy()?;
    let count = args.len();
    let wanted = premises.items().len();
    if count >= wanted {
        return Err(counts(count, wanted));
    }
    let firsts = &premises.items()[..count];
    let given = match arguments(alloc, k, firsts, args) {
        Ok(given) => given,
        Err(fault) => return Err(fault),
    };
    let rights = match right_heads(alloc, k, args, equations) {
        Ok(rights) => rights,
        Err(fault) => return Err(fault),
    };
    let right = instance(alloc, firsts, rights.items())?;
    let Given {
        heads: _,
        instance: left,
    } = given;
    Ok(Sides { left, right })
}

// The thesis, which fits the boundary at the first instance, with its head at the boundary at the second.
fn moved(
    alloc: Global,
    k: &mut Kernel,
    j: J,
    next: &Boundary,
    from: &Instance,
    to: &Instance,
) -> Result<Thesis, Fault>
    requires thesis { IsThesisOf k.old j }
    requires next { BoundaryBelow (length k.old.trees) next.now }
    requires from { PairsBelow (length k.old.trees) from.now.pairs }
    requires to { PairsBelow (length k.old.trees) to.now.pairs }
    ensures within { IfOk result (λ x. ThesisBelow (length k.new.trees) x) }
    ensures thesis { IfOk result (λ x. thesis_in k.new.trees x ≡ filled_with
        (boundary_at k.old.trees to.now.pairs (boundary_in k.old.trees next.now))
        (head_within (entry_of k.old.items j).statement)) }
    ensures checks { Asks k.new.trees (moved_between
        (boundary_at k.old.trees from.now.pairs (boundary_in k.old.trees next.now))
        (boundary_at k.old.trees to.now.pairs (boundary_in k.old.trees next.now))
        (entry_of k.old.items j).statement) result }
    ensures stays { Stays k.old k.new }
{
    match fit_at(alloc, k, j, next, from) {
        Ok(()) => {}
        Err(fault) => return Err(fault),
    }
    let boundary = match put_boundary(alloc, k, next, to) {
        Ok(boundary) => boundary,
        Err(fault) => return Err(Fault::from(fault)),
    };
    let head = head_of(k.thesis_of(j));
    Ok(fill(alloc, k.terms(), &boundary, &head)?)
}
