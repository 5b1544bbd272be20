//! What holds of states that go further.

ghost use Rattle.ft_running.specs.Laws.{StaysItself, GoesOverBoth, ValuesStay, ScopesStay};
ghost use Rattle.ft_running.specs.Laws.{ThesesStay, BoundariesStay, CallsGoFurther};
ghost use Rattle.ft_running.specs.Laws.{ListsGoFurther, ListsMayGrow, JudgementsAreRead};

/// A state goes further than itself, and what goes further than one that goes further does.
pub fn goes_further()
    ensures same { StaysItself }
    ensures both { GoesOverBoth }
{}

/// Values stay, and so do theses and boundaries, where a state goes further.
pub fn values_stay_further()
    ensures values { ValuesStay }
    ensures theses { ThesesStay }
    ensures boundaries { BoundariesStay }
{}

/// Scopes stay where a state goes further.
pub fn scopes_stay_further()
    ensures { ScopesStay }
{}

/// A call of the nucleus on the kernel of a state leaves one that goes further.
pub fn calls_go_further()
    ensures { CallsGoFurther }
{}

/// So does what adds items to the list, with units for its variables.
pub fn lists_go_further()
    ensures { ListsGoFurther }
{}

/// Where items are added to the kernel of a state, a state is left.
pub fn lists_may_grow()
    ensures { ListsMayGrow }
{}

/// The judgement that a value is, where it is one, is what the meaning reads.
pub fn judgements_are_read()
    ensures { JudgementsAreRead }
{}
