//! Laws of the texts of sequents.

ghost use Rattle.ft_meaning_laws.specs.Texts.{VariablesMentioned, TextsStay};

/// A sequent's text mentions each variable of its set that is declared, whether the thesis mentions it or not.
pub fn variables_mentioned()
    ensures law { VariablesMentioned }
{}

/// The same assertion over a longer list has the same text, where the shorter one declares all that its sequent names.
pub fn texts_stay()
    ensures law { TextsStay }
{}
