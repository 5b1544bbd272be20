//! Why an item is rejected.

/// The reason to reject an item.
#[derive(Clone, Copy, Debug, PartialEq, Eq)]
pub enum Reject {
    /// A number names nothing.
    Reference,
    /// A boundary stands where a thesis belongs, or the other way round.
    Kind,
    /// A condition of the step fails.
    Premise,
    /// The stated conclusion is another.
    Conclusion,
    /// The stated set is another.
    Set,
    /// The name of a rule is taken.
    Name,
    /// The number of a variable is not greater than the earlier ones.
    Number,
    /// There are too many rules.
    Many,
    /// Something rests on more than it may.
    Loose,
}
