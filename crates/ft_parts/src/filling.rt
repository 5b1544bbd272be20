//! Boundaries filled with arguments.

ghost use Rattle.std.specs.Prelude.{◌≡◌, ◌<◌, ℕ, List, length, IfOk, IfErr};
ghost use Rattle.ft_theory.specs.Expressions.{Expression};
ghost use Rattle.ft_theory.specs.Statements.{fill_goal};
ghost use Rattle.ft_syntax.specs.Table.{tree, BodyBelow};
ghost use Rattle.ft_syntax.specs.declared.syntax.SynFault.TheVariants.{Memory};
ghost use Rattle.ft_judge.specs.Meaning.{claim_in, goal_in, FormBelow, GoalBelow, head_in};
ghost use Rattle.ft_calls.specs.Answers.{Stays};

use ft_judge::{Form, Goal};
use ft_kernel::Kernel;
use ft_syntax::{Arg, E, SynFault};

/// The body of the argument. For a dummy the innermost bound variable stands.
#[tactic(auto, using(crate::proofs::Places::only_memory, crate::proofs::Places::stays_here))]
pub(crate) fn head_of(k: &mut Kernel, argument: &Arg) -> Result<E, SynFault>
    requires { BodyBelow (length k.old.trees) argument.now.body }
    ensures within { IfOk result (λ e. e < length k.new.trees) }
    ensures head { IfOk result (λ e. tree k.new.trees e ≡ head_in k.old.trees argument.now.body) }
    ensures memory { IfErr result (λ f. f ≡ Memory) }
    ensures stays { Stays k.old k.new }
{
    match argument.body {
        Some(e) => Ok(e),
        None => k.bound(0),
    }
}

/// The goal filled with the head, which an equation has not.
pub(crate) fn filled(goal: &Goal, head: E) -> Form
    ensures claim { (ts : List Expression) →
        claim_in ts result ≡ fill_goal (goal_in ts goal.now) (tree ts head) }
    ensures below { (n : ℕ) → GoalBelow n goal.now → head < n → FormBelow n result }
{
    match *goal {
        Goal::Ty => Form::Ty(head),
        Goal::Tm(a) => Form::Tm(head, a),
        Goal::EqTy(a, b) => Form::EqTy(a, b),
        Goal::EqTm(s, t, a) => Form::EqTm(s, t, a),
    }
}
