//! Statuses.

/// How a call ended.
#[derive(Clone, Copy, Debug, PartialEq, Eq)]
pub enum Status {
    /// The input was read to its end, and all that it asks for was written.
    Done,
    /// The words are others than the program takes.
    Usage,
    /// A read failed.
    ReadFault,
    /// A write failed.
    WriteFault,
    /// The input is longer than it may be.
    TooLong,
    /// The source is not in the language, or a command of it is not built over the rules before it.
    Syntax,
    /// A rule has the name of an earlier one, and ended the run.
    Rule,
    /// An item of the derivation file is rejected.
    Rejected,
    /// The input is no derivation file.
    File,
    /// Memory was refused.
    Memory,
}
