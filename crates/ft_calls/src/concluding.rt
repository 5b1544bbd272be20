//! The last part of a call: what was formed is added to the list, with its set and its step.

ghost use Rattle.std.specs.Prelude.{◌≡◌, [], length, Ok, IfOk};
ghost use Rattle.ft_judge.specs.Meaning.{thesis_in, boundary_in, ThesisBelow, BoundaryBelow};
ghost use Rattle.ft_kernel.specs.State.{IsThesisOf, IsBoundaryOf};
ghost use Rattle.ft_kernel.specs.Steps.{step_of};
ghost use Rattle.ft_calls.specs.Answers.{IsAnswer, Answers};

use ft_assume::Assume;
use ft_judge::{Boundary, Domains, Fault, Form, Goal, Thesis};
use ft_kernel::{B, J, Kernel, Step};
use std::alloc::Global;

/// Adds the thesis that the call of a step answers.
pub fn conclude(k: &mut Kernel, x: Thesis, set: Assume, step: Step) -> Result<J, Fault>
    requires below { ThesisBelow (length k.old.trees) x }
    requires answer { IsAnswer k.old (step_of step)
        (Ok (record { statement = thesis_in k.old.trees x; set = set })) }
    ensures answers { Answers k.old (step_of step) result k.new }
    ensures thesis { IfOk result (λ j. IsThesisOf k.new j) }
{
    let _terms = k.terms();
    Ok(k.push_judgement(x, set, step)?)
}

/// Adds the boundary that the call of a step answers.
pub fn conclude_boundary(k: &mut Kernel, x: Boundary, set: Assume, step: Step) -> Result<B, Fault>
    requires below { BoundaryBelow (length k.old.trees) x }
    requires answer { IsAnswer k.old (step_of step)
        (Ok (record { statement = boundary_in k.old.trees x; set = set })) }
    ensures answers { Answers k.old (step_of step) result k.new }
    ensures boundary { IfOk result (λ b. IsBoundaryOf k.new b) }
{
    let _terms = k.terms();
    Ok(k.push_boundary(x, set, step)?)
}

/// The thesis of a form without domains. It takes no memory.
pub fn plain(alloc: Global, form: Form) -> Thesis
    ensures { result ≡ record { domains = []; form = form } }
{
    Thesis {
        domains: Domains::new(alloc),
        form,
    }
}

/// The boundary of a goal without domains. It takes no memory.
pub fn plain_boundary(alloc: Global, goal: Goal) -> Boundary
    ensures { result ≡ record { domains = []; goal = goal } }
{
    Boundary {
        domains: Domains::new(alloc),
        goal,
    }
}
