//! Worked transcripts: sources with what they write, from their bytes. Proved by computation.
#![tactic(auto)]

ghost use Rattle.ft_meaning.specs.Stages.{no_equality, no_operations, applications_alone};
ghost use Rattle.ft_meaning_rows.specs.Written.{AllHold, HoldsAt, HoldsWith};
ghost use Rattle.ft_meaning_rows.specs.Syntax.{syntax, TooLong};
ghost use Rattle.ft_meaning_rows.specs.Applications.{applications};
ghost use Rattle.ft_meaning_rows.specs.Programs.{programs};
ghost use Rattle.ft_meaning_rows.specs.Words.{words};
ghost use Rattle.ft_meaning_rows.specs.Operations.{operations};
ghost use Rattle.ft_meaning_rows.specs.Equality.{equality};
ghost use Rattle.ft_meaning_rows.specs.Shapes.{shapes};
ghost use Rattle.ft_meaning_rows.specs.Deep.{depth, ShowsDeepest};
ghost use Rattle.ft_meaning_rows.specs.Counted.{one_numeral, two_numerals, seven_numerals, one_sum, two_sums};
ghost use Rattle.ft_meaning_rows.specs.Unbuilt.{value_unbuilt, binder_unbuilt, premise_unbuilt, operation_unbuilt, equality_unbuilt};

/// Sources that are no text or not in the grammar, and two that are in it.
pub fn worked_syntax()
    ensures rows { AllHold syntax }
    ensures too_long { TooLong }
{}

/// Rules without binders, and applications of rules that are shown.
pub fn worked_applications()
    ensures rows { AllHold applications }
{}

/// Binders, substitution, matching, and what is shown.
pub fn worked_programs()
    ensures rows { AllHold programs }
{}

/// Words before judgements, local values, conditions and patterns.
pub fn worked_words()
    ensures rows { AllHold words }
{}

/// Operations and their handlers.
pub fn worked_operations()
    ensures rows { AllHold operations }
{}

/// The equality checker.
pub fn worked_equality()
    ensures rows { AllHold equality }
{}

/// Rules that the equality checker does not take.
pub fn worked_shapes()
    ensures rows { AllHold shapes }
{}

/// Many applications, up to the limit of depth and past it.
pub fn worked_depth()
    ensures rows { AllHold depth }
    ensures deepest { ShowsDeepest }
{}

/// Runs with the units that they use.
pub fn worked_units()
    ensures one_numeral { HoldsWith one_numeral 5 }
    ensures two_numerals { HoldsWith two_numerals 8 }
    ensures seven_numerals { HoldsWith seven_numerals 31 }
    ensures one_sum { HoldsWith one_sum 47 }
    ensures two_sums { HoldsWith two_sums 82 }
{}

/// Parts that are not built at a stage.
pub fn worked_stages()
    ensures value { HoldsAt applications_alone value_unbuilt }
    ensures binder { HoldsAt applications_alone binder_unbuilt }
    ensures earlier_premise { HoldsAt applications_alone premise_unbuilt }
    ensures operation { HoldsAt no_operations operation_unbuilt }
    ensures question { HoldsAt no_equality equality_unbuilt }
{}
