// Laws of the nucleus. Each function states one fact on its calls, over the definitions alone.
#![tactic(auto)]

ghost use Rattle.ft_nucleus_laws.specs.Laws.{AnswersItsRow, RefusesFirst, AnswersDerivable, AnswersAllowed, FitsIsFilling, RefusalsChangeNothing, VariablesAllowed, MetavariablesAllowed, DraftsGrow, DraftsStay, FinishesAllowed, FinishedIsFinitary, VariableIsThere, MetavariableIsThere, PremiseIsThere, RuleIsThere, FirstOutsideIsLeast, FirstVariableIsLeast, FirstDependentIsLeast, NamesRefused, OpenRefused, WideRefused};
ghost use Rattle.ft_nucleus_laws.specs.SmallAnswers.{AnswersSmall, ClosingKeepsSize, ClosingKeepsSmall, AbstractionsSmall};
ghost use Rattle.ft_nucleus_laws.specs.Rows.{VariableRows, SubstitutionRows, EqualityRows, SideRows, RuleRows, DeepRows, CongruenceRows, ApplicationRows, NaturalRows, DraftRows, NewRows};

/// A call answers a statement and its set exactly where its row gives these over the declarations and all that it forms is small.
pub fn answers_its_row()
    ensures law { AnswersItsRow }
{}

/// A call that may be made refuses exactly where one of its checks fails and those before it hold, with that check's refusal.
pub fn refuses_first()
    ensures law { RefusesFirst }
{}

/// Over the declarations of a good list, what a call answers is derivable by primitive steps over the rules, in the context of its set.
pub fn answers_derivable()
    ensures law { AnswersDerivable }
{}

/// What a call answers over a good list may be added to the list.
pub fn answers_allowed()
    ensures law { AnswersAllowed }
{}

/// A thesis fits a boundary exactly where the boundary filled with the thesis's head is the thesis.
pub fn fits_is_filling()
    ensures law { FitsIsFilling }
{}

/// A refusal leaves the declarations, and the draft of a rule, as they are.
pub fn refusals_change_nothing()
    ensures law { RefusalsChangeNothing }
{}

/// A variable is made exactly where its item is allowed; the declarations are then those of the longer list.
pub fn variables_allowed()
    ensures law { VariablesAllowed }
{}

/// A metavariable is made exactly where its item is allowed; the declarations are then those of the longer list.
pub fn metavariables_allowed()
    ensures law { MetavariablesAllowed }
{}

/// What is begun is a draft, and stays one with each premise that is made.
pub fn drafts_grow()
    ensures law { DraftsGrow }
{}

/// A draft stays one as the list goes on, by whatever items.
pub fn drafts_stay()
    ensures law { DraftsStay }
{}

/// A draft finishes exactly where its rule is allowed; the declarations are then those of the longer list.
pub fn finishes_allowed()
    ensures law { FinishesAllowed }
{}

/// Over a good list a draft finishes only so that the rules stay a finitary theory.
pub fn finished_is_finitary()
    ensures law { FinishedIsFinitary }
{}

/// What a declaration answers is what stands under the number in the declarations that it leaves.
pub fn answers_what_is_declared()
    ensures variable { VariableIsThere }
    ensures metavariable { MetavariableIsThere }
    ensures premise { PremiseIsThere }
    ensures rule { RuleIsThere }
{}

/// The atom or variable that a refusal names is the least that is refused.
pub fn names_the_least()
    ensures outside { FirstOutsideIsLeast }
    ensures variable { FirstVariableIsLeast }
    ensures dependent { FirstDependentIsLeast }
{}

/// Where all that a call has is small, all that it answers is; but for abstraction.
pub fn answers_small()
    ensures law { AnswersSmall }
{}

/// Closing over a variable changes neither depth nor size, and keeps what is small so, under at most so many domains.
pub fn closing_keeps_small()
    ensures size { ClosingKeepsSize }
    ensures small { ClosingKeepsSmall }
{}

/// So abstraction is never too big: where all that it has is small, all that it answers is.
pub fn abstractions_small()
    ensures law { AbstractionsSmall }
{}

/// Rules, premises and conclusions are refused in their order, each exactly where its reason holds.
pub fn refuses_declarations()
    ensures names { NamesRefused }
    ensures opened { OpenRefused }
{}

/// A metavariable's generic application with 65,536 domains or more is too big.
pub fn refuses_wide_metavariables()
    ensures law { WideRefused }
{}

/// Worked answers of each call, with a row for each of its refusals.
pub fn worked_calls()
    ensures variables { VariableRows }
    ensures substitution { SubstitutionRows }
    ensures equality { EqualityRows }
    ensures sides { SideRows }
    ensures rules { RuleRows }
    ensures deep { DeepRows }
    ensures congruence { CongruenceRows }
    ensures applications { ApplicationRows }
    ensures natural { NaturalRows }
{}

/// Worked declarations, with a row for each refusal.
pub fn worked_declarations()
    ensures drafts { DraftRows }
    ensures new { NewRows }
{}
