// The text of an item list: each list has at most one, and each text is of at most one list.
#![tactic(auto)]

ghost use Rattle.ft_texts.specs.Laws.{AtMostOneText, AtMostOneList, HasText, TextByLines, TextIsUtf8, LineIsUtf8, WorkedText, WorkedLines, AtMostOneFault, TextHasNoFault, TextOrFault, WorkedFaults};

/// A list of items has at most one text.
pub fn at_most_one_text()
    ensures law { AtMostOneText }
{}

/// A text is of at most one list of items, so what was written is read back as the same items.
pub fn at_most_one_list()
    ensures law { AtMostOneList }
{}

/// A list of items has a text, where its expressions are small, its numbers fit and its sets are ascending.
pub fn has_text()
    ensures law { HasText }
{}

/// The bytes are the text of a list exactly where their lines are: the first line, one for each item, `end`, and nothing after it.
pub fn text_by_lines()
    ensures law { TextByLines }
{}

/// A text is UTF-8, and so is each item's line, where the names have characters alone.
pub fn text_is_utf8()
    ensures text { TextIsUtf8 }
    ensures line { LineIsUtf8 }
{}

/// The text of a worked list, and worked lines of each kind.
pub fn worked_text()
    ensures law { WorkedText }
    ensures lines { WorkedLines }
{}

/// A file has at most one fault.
pub fn at_most_one_fault()
    ensures law { AtMostOneFault }
{}

/// The text of a list of items has no fault.
pub fn text_has_no_fault()
    ensures law { TextHasNoFault }
{}

/// Each file is a text or has a fault, where it can be told of each line whether it is an item's, or another version's.
pub fn text_or_fault()
    ensures law { TextOrFault }
{}

/// The faults of four worked files.
pub fn worked_faults()
    ensures law { WorkedFaults }
{}
