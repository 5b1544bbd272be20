//! Laws of the readers.

ghost use Rattle.ft_lines.specs.Laws.{NameIsRead, NameIsText, NamesAreVisible, NamesHaveScalars, NumberIsRead, NumberIsText, SetIsRead, SetIsText, ExpressionIsRead, ExpressionIsText, ThesisIsRead, ThesisIsText, BoundaryIsRead, BoundaryIsText, PartsAreRead, PartsAreText, StepIsRead, StepIsText, ThesisEntryIsRead, ThesisEntryIsText, BoundaryEntryIsRead, BoundaryEntryIsText};

/// A number's text is read as the number, where no digit follows; and what is read is a number's text.
pub fn numbers()
    ensures complete { NumberIsRead }
    ensures sound { NumberIsText }
{}

/// A name's UTF-8 is read as the name, where a space or nothing follows; and what is read is the UTF-8 of a name token.
pub fn names()
    ensures complete { NameIsRead }
    ensures sound { NameIsText }
{}

/// A set's text is read as the set, where it is ascending; and what is read is an ascending set's text.
pub fn sets()
    ensures complete { SetIsRead }
    ensures sound { SetIsText }
{}

/// A small expression's text is read as the expression, where no digit follows; and what is read is a small expression's text.
pub fn expressions()
    ensures complete { ExpressionIsRead }
    ensures sound { ExpressionIsText }
{}

/// A thesis's text is read as the thesis, where no digit follows; and what is read is a thesis's text.
pub fn theses()
    ensures complete { ThesisIsRead }
    ensures sound { ThesisIsText }
{}

/// A boundary's text is read as the boundary, where no digit follows; and what is read is a boundary's text.
pub fn boundaries()
    ensures complete { BoundaryIsRead }
    ensures sound { BoundaryIsText }
{}

/// The text of a step's parts is read as these parts, where no digit and no space follows; and what is read is the text of parts.
pub fn step_parts()
    ensures complete { PartsAreRead }
    ensures sound { PartsAreText }
{}

/// A step's text is read as the word and the parts that it is written with; and what is read is the text of a word and parts.
pub fn steps()
    ensures complete { StepIsRead }
    ensures sound { StepIsText }
{}

/// The line of an entry with a thesis is read as this entry; and what is read is the text of one.
pub fn thesis_entries()
    ensures complete { ThesisEntryIsRead }
    ensures sound { ThesisEntryIsText }
{}

/// The line of an entry with a boundary is read as this entry; and what is read is the text of one.
pub fn boundary_entries()
    ensures complete { BoundaryEntryIsRead }
    ensures sound { BoundaryEntryIsText }
{}

/// A name's characters stand after the space in Unicode.
pub fn names_are_visible()
    ensures { NamesAreVisible }
{}

/// A name has characters of Unicode alone.
pub fn names_have_scalars()
    ensures { NamesHaveScalars }
{}
