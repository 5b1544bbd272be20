//! What an entry contains: the kind of its statement, its type or goal, and its set.

ghost use Rattle.std.specs.Prelude.{◌≡◌, ℕ, List, Some, true, false, IfSome, option_map};
ghost use Rattle.ft_theory.specs.Expressions.{Expression};
ghost use Rattle.ft_items.specs.Equal.{is_thesis, is_plain};
ghost use Rattle.ft_items.specs.Store.{claim_in as claim_of_plain};
ghost use Rattle.ft_items.specs.Good.{is_plain_type};
ghost use Rattle.ft_judge.specs.Meaning.{thesis_in, goal_in, GoalBelow};
ghost use Rattle.ft_steps.specs.Parts.{statement_in, PartsBelow};
ghost use Rattle.ft_check.specs.Entries.{entry_in, is_nil, EntryBelow};

use crate::entry::Entry;
use ft_assume::Assume;
use ft_judge::{Domains, Form, Goal, Thesis};
use ft_steps::{Parts, boundary_parts, thesis_parts};

/// Whether there are no domains.
pub fn is_empty(domains: &Domains) -> bool
    ensures { result ≡ is_nil domains.now }
{
    match domains.items() {
        [] => true,
        [_, ..] => false,
    }
}

// Whether the thesis is a plain type.
#[tactic(auto, using(crate::proofs::OfKind::plain_type, crate::proofs::OfKind::no_plain_type))]
fn states_type(x: &Thesis) -> bool
    ensures { (ts : List Expression) → result ≡ is_plain_type (thesis_in ts x.now) }
{
    match x.form {
        Form::Ty(_) => is_empty(&x.domains),
        _ => false,
    }
}

impl<'a> Entry<'a> {
    /// Whether the entry is a thesis.
    #[tactic(auto, using(crate::proofs::OfKind::thesis_is, crate::proofs::OfKind::boundary_is))]
    pub fn is_thesis(self) -> bool
        ensures { (ts : List Expression) → result ≡ is_thesis (entry_in ts self.entry).statement }
    {
        match self {
            Entry::Thesis(..) => true,
            Entry::Boundary(..) => false,
        }
    }

    /// Whether the entry has no domains.
    #[tactic(auto, using(crate::proofs::OfKind::thesis_plain, crate::proofs::OfKind::boundary_plain))]
    pub fn is_plain(self) -> bool
        ensures { (ts : List Expression) → result ≡ is_plain (entry_in ts self.entry).statement }
    {
        match self {
            Entry::Thesis(x, _) => is_empty(&x.domains),
            Entry::Boundary(x, _) => is_empty(&x.domains),
        }
    }

    /// Whether the entry is a type without domains.
    #[tactic(auto, using(crate::proofs::OfKind::boundary_no_type))]
    pub fn is_plain_type(self) -> bool
        ensures { (ts : List Expression) → result ≡
            is_plain_type (entry_in ts self.entry).statement }
    {
        match self {
            Entry::Thesis(x, _) => states_type(x),
            Entry::Boundary(..) => false,
        }
    }

    /// The parts of the entry's statement.
    pub fn parts(self) -> Parts<'a>
        ensures is { (ts : List Expression) → statement_in ts result ≡
            (entry_in ts self.entry).statement }
        ensures below { (n : ℕ) → EntryBelow n self.entry → PartsBelow n result }
    {
        match self {
            Entry::Thesis(x, _) => thesis_parts(x),
            Entry::Boundary(x, _) => boundary_parts(x),
        }
    }

    /// The goal of the entry, where it is a boundary.
    #[tactic(auto, using(crate::proofs::GoalsTaken::no_thesis, crate::proofs::GoalsTaken::goal_taken))]
    pub fn goal(self) -> Option<Goal>
        ensures is { (ts : List Expression) → is_thesis (entry_in ts self.entry).statement ≡ false
            → is_plain (entry_in ts self.entry).statement ≡ true
            → option_map (goal_in ts) result ≡ Some (claim_of_plain
            (entry_in ts self.entry).statement) }
        ensures below { (n : ℕ) → EntryBelow n self.entry → IfSome result (λ g. GoalBelow n g) }
    {
        match self {
            Entry::Thesis(..) => None,
            Entry::Boundary(x, _) => Some(x.goal),
        }
    }

    /// What the entry rests on.
    pub fn set(self) -> &'a Assume
        ensures { (ts : List Expression) → result.now ≡ (entry_in ts self.entry).set }
    {
        match self {
            Entry::Thesis(_, set) => set,
            Entry::Boundary(_, set) => set,
        }
    }
}
