//! What the calls of the nucleus over a kernel tell of a run.

ghost use Rattle.std.specs.Prelude.{true, false};
ghost use Rattle.ft_telling.specs.Laws.{JudgementsAreTold, BoundariesAreTold, StatementsAreTold};
ghost use Rattle.ft_telling.specs.Laws.{CallsOfOneAreTold, CallsOfTwoAreTold};
ghost use Rattle.ft_telling.specs.Laws.{VariablesAreTold, BoundJudgementsAreTold};
ghost use Rattle.ft_telling.specs.Laws.{BoundBoundariesAreTold, CallsGoOn, DeclarationsGoOn};
ghost use Rattle.ft_items.specs.Item.{by_refl, by_sym, by_left, by_right, by_typeof, by_domain};
ghost use Rattle.ft_items.specs.Item.{by_trans, by_widen, by_conv, by_conveq};
ghost use Rattle.ft_grammar.specs.declared.form.OneForm.TheVariants as one;
ghost use Rattle.ft_grammar.specs.declared.form.TwoForm.TheVariants as two;
ghost use Rattle.ft_telling.specs.Words.{WordIsTold, BoundaryWordIsTold, BoundaryofIsTold};
ghost use Rattle.ft_telling.specs.Words.{PairWordIsTold, ConvertIsTold};
ghost use Rattle.ft_telling.specs.Words.{ConclusionsAreTold, PremisesAreTold};

/// Where a call over a list answers as the reference nucleus does, the meaning of that call over
/// the list gives the same, with the list afterwards and no unit spent.
pub fn calls_tell()
    ensures judgement { JudgementsAreTold }
    ensures boundary { BoundariesAreTold }
    ensures statement { StatementsAreTold }
    ensures one { CallsOfOneAreTold }
    ensures two { CallsOfTwoAreTold }
{}

/// So it is where a new variable is declared after a unit was spent, and where a variable of the
/// list is bound.
pub fn variables_tell()
    ensures new { VariablesAreTold }
    ensures bound { BoundJudgementsAreTold }
    ensures bound_boundary { BoundBoundariesAreTold }
{}

/// A word at a judgement is told so by the call of its step.
pub fn words_tell()
    ensures refl { WordIsTold one.Refl by_refl }
    ensures sym { WordIsTold one.Sym by_sym }
    ensures left { WordIsTold one.Left by_left }
    ensures right { WordIsTold one.Right by_right }
    ensures type_of { WordIsTold one.Typeof by_typeof }
    ensures domain { WordIsTold one.Domain by_domain }
    ensures boundaryof { BoundaryofIsTold }
{}

/// A word for a part, at a boundary, is told so by the call of its step.
pub fn boundary_words_tell()
    ensures left { BoundaryWordIsTold one.Left by_left }
    ensures right { BoundaryWordIsTold one.Right by_right }
    ensures type_of { BoundaryWordIsTold one.Typeof by_typeof }
    ensures domain { BoundaryWordIsTold one.Domain by_domain }
{}

/// A word at two judgements is told so by the call of its step; `convert` by one of two calls.
pub fn pair_words_tell()
    ensures trans { PairWordIsTold two.Trans by_trans }
    ensures widen { PairWordIsTold two.Widen by_widen }
    ensures convert_equation { ConvertIsTold true by_conveq }
    ensures convert { ConvertIsTold false by_conv }
{}

/// A rule at arguments is told so: its conclusion, and the boundary of the premise after them.
pub fn rules_tell()
    ensures conclusion { ConclusionsAreTold }
    ensures premise { PremisesAreTold }
{}

/// After a call, and after a declaration, the list goes on from the one before.
pub fn list_goes_on()
    ensures calls { CallsGoOn }
    ensures declarations { DeclarationsGoOn }
{}
