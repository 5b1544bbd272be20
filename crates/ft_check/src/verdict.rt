//! The verdict on a list.

use crate::reject::Reject;

/// The verdict on a list of items: accepted, with the numbers of its rules, entries and shown marks and the greatest level of
/// its steps; or rejected, with the place of the first item against which there is a reason, and its first reason.
#[derive(Clone, Copy, Debug, PartialEq, Eq)]
pub enum Verdict {
    Accepted {
        rules: u64,
        entries: u64,
        shown: u64,
        level: u64,
    },
    Rejected {
        item: u64,
        why: Reject,
    },
}
