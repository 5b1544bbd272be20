//! The boundary of a type.

ghost use Rattle.std.specs.Prelude.{◌≡◌, List, [], Some, option_map};
ghost use Rattle.ft_theory.specs.Expressions.{Expression};
ghost use Rattle.ft_theory.specs.Statements.{plain, type_goal};
ghost use Rattle.ft_items.specs.Item.{Stated as StatedNumbers};
ghost use Rattle.ft_items.specs.Equal.{equal_statements};
ghost use Rattle.ft_items.specs.Good.{reason_of_result};
ghost use Rattle.ft_judge.specs.Meaning.{boundary_in};
ghost use Rattle.ft_check.specs.Entries.{entry_in, with_step};
ghost use Rattle.ft_check.specs.Rejects.{reason_of};

use crate::entry::Entry;
use crate::entry_contents::is_empty;
use crate::reject::Reject;
use crate::result::against_result;
use ft_judge::{Boundary, Goal};

// Whether the boundary is that of a type.
#[tactic(auto, using(crate::proofs::Results::type_goal_is, crate::proofs::Results::no_type_goal))]
fn is_type_goal(b: &Boundary) -> bool
    ensures { (ts : List Expression) → result ≡ equal_statements (plain type_goal)
        (boundary_in ts b.now) }
{
    match b.goal {
        Goal::Ty => is_empty(&b.domains),
        _ => false,
    }
}

#[tactic(auto, using(crate::proofs::Results::thesis_no_type_goal))]
fn states_type_goal(found: Entry<'_>) -> bool
    ensures { (ts : List Expression) → result ≡ equal_statements (plain type_goal)
        (entry_in ts found.entry).statement }
{
    match found {
        Entry::Thesis(..) => false,
        Entry::Boundary(b, _) => is_type_goal(b),
    }
}

/// The reason against an entry as the boundary of a type.
pub fn check_btype(found: Entry<'_>) -> Option<Reject>
    ensures { (ts : List Expression) (t : StatedNumbers)
        → option_map reason_of result ≡ reason_of_result (Some (plain type_goal)) []
        (with_step (entry_in ts found.entry) t) }
{
    against_result(states_type_goal(found), found.set().atoms().is_empty())
}
