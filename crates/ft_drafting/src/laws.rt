//! What holds as a state goes further.

ghost use Rattle.std.specs.Prelude.{◌≡◌, List};
ghost use Rattle.ft_rules.specs.Drafts.{Drafted};
ghost use Rattle.ft_running.specs.Evaluation.{Evaluation, IsEvaluation, GoesFurther};
ghost use Rattle.ft_drafting.specs.Drafting.{IsDraftIn, draft_over, AreBoundIn, bounds_over};
ghost use Rattle.ft_drafting.specs.declared.binding.Bound.{Bound};

/// A draft stays one of the state, and stands for the same draft.
pub fn drafts_stay_further()
    ensures draft { (e f : Evaluation) (d : Drafted) → GoesFurther e f → IsDraftIn e d
        → IsDraftIn f d }
    ensures same { (e f : Evaluation) (d : Drafted) → GoesFurther e f → IsDraftIn e d
        → draft_over f d ≡ draft_over e d }
{}

/// Variables that were bound stay those of the state, with what is declared of them.
pub fn bound_stay_further()
    ensures bound { (e f : Evaluation) (xs : List Bound) → GoesFurther e f → AreBoundIn e xs
        → AreBoundIn f xs }
    ensures same { (e f : Evaluation) (xs : List Bound) → GoesFurther e f → AreBoundIn e xs
        → bounds_over f xs ≡ bounds_over e xs }
{}
