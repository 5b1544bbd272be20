//! What holds of rules as the list goes on.

ghost use Rattle.ft_calling.specs.Laws.{RulesStay};

/// A rule stays, with its number, as the list goes on.
pub fn rules_stay()
    ensures law { RulesStay }
{}
