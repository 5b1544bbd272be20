//! What the words of the command line ask for, with its options.

/// What the program is asked for.
#[derive(Clone, Copy, Debug, PartialEq, Eq)]
pub enum Wanted {
    /// A source is run within so many units, and its transcript is written.
    Run { budget: u64 },
    /// A source is run within so many units, and the derivation of what was done is written.
    Export { budget: u64 },
    /// A derivation file is read, and the verdict on it is written: by one thread, where that is asked for.
    Check { one_thread: bool },
}
