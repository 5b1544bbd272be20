//! The result of a step: its conclusion and its set.

ghost use Rattle.std.specs.Prelude.{◌≡◌, None, option_map};
ghost use Rattle.ft_items.specs.Sets.{same_set};
ghost use Rattle.ft_items.specs.Good.{Conclusion, Set, unless};
ghost use Rattle.ft_check.specs.Rejects.{reason_of};

use crate::reject::Reject;
use ft_assume::Assume;

/// Whether two sets have the same atoms.
#[tactic(auto, using(crate::proofs::Results::other_length, crate::proofs::Results::same_members))]
pub fn is_same_set(left: &Assume, right: &Assume) -> bool
    ensures { result ≡ same_set left.now right.now }
{
    if left.atoms().len() != right.atoms().len() {
        return false;
    }
    left.is_subset(right) && right.is_subset(left)
}

/// The reason against an entry whose step has a conclusion: whether this is the stated one, and whether the set is.
pub fn against_result(is_concluded: bool, has_set: bool) -> Option<Reject>
    ensures { option_map reason_of result ≡ unless is_concluded Conclusion (unless has_set Set None) }
{
    if !is_concluded {
        Some(Reject::Conclusion)
    } else if has_set {
        None
    } else {
        Some(Reject::Set)
    }
}
