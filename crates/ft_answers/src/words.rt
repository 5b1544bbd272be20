//! Jobs.

/// What the program is asked for.
#[derive(Clone, Copy, Debug, PartialEq, Eq)]
pub enum Job {
    /// A source is run, and its transcript is written.
    Run,
    /// A source is run, and the derivation of what was done is written.
    Export,
    /// A derivation file is read, and the verdict on it is written.
    Check,
}
