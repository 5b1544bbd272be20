//! Statuses.

/// How a call ended.
#[derive(Clone, Copy, Debug, PartialEq, Eq)]
pub enum Status {
    /// The input was read to its end, and all that it asks for was written.
    Done,
    /// The words are others than the program takes.
    Usage,
    /// A read failed.
    ReadFault,
    /// A write failed.
    WriteFault,
    /// The input is longer than it may be.
    TooLong,
    /// The source is not UTF-8.
    NotUtf8,
    /// The source is not in the grammar, or a part of it is not built.
    Syntax,
    /// A command has no type, or a name that has no meaning or one too many.
    NameOrType,
    /// A rule is not declared.
    Rule,
    /// An operation has no handler.
    Unhandled,
    /// The nucleus refuses a call.
    Refused,
    /// A value fits no case.
    NoMatch,
    /// A unit of the budget is needed, and none is left.
    Spent,
    /// A rule is none for the equality checker.
    Shape,
    /// An item of the derivation file is rejected.
    Rejected,
    /// The input is no derivation file.
    File,
    /// Memory was refused.
    Memory,
}
