// What is shown is derivable, and what is done has a derivation.

ghost use Rattle.ft_meaning_laws.specs.Derivability.{ShownDerivable, ShownOverAccepted, AcceptedIsFinitary, StageHasDerivation, SourceHasDerivation};

/// Each judgement that a transcript shows is derivable by primitive steps, in the context of its set, which is well formed, over the rules
/// accepted before its line.
pub fn shown_derivable()
    ensures law { ShownDerivable }
    ensures over { ShownOverAccepted }
{}

/// The rules that a transcript accepts are, in their order, a finitary theory.
pub fn accepted_is_finitary()
    ensures law { AcceptedIsFinitary }
{}

/// Where the equality checker is not built, or no part of the source is one of it, what a transcript does has a derivation.
pub fn derivation_exists()
    ensures stages { StageHasDerivation }
    ensures sources { SourceHasDerivation }
{}
