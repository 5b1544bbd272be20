//! Reading the lines of entries.

ghost use Rattle.std.specs.Prelude.{◌≡◌};
ghost use Rattle.ft_syntax.specs.Table.{Extends};
ghost use Rattle.ft_lines.specs.Entries as spec;
ghost use Rattle.ft_lines.specs.Entries.{ReadsThesisEntry, ReadsBoundaryEntry};
ghost use Rattle.ft_lines.specs.Reading.{Reads};

use crate::cursor::Cursor;
use crate::fault::Fault;
use crate::sets::set;
use crate::statements::{boundary, thesis};
use crate::steps::{Part, step};
use crate::words::Word;
use ft_assume::Assume;
use ft_judge::{Boundary, Thesis};
use ft_syntax::Terms;
use sqlite_items::Items;
use std::alloc::Global;

/// An entry with a thesis, as its line states it.
#[derive(Drop)]
pub struct ThesisEntry {
    pub thesis: Thesis,
    pub set: Assume,
    pub word: Word,
    pub parts: Items<Part>,
}

/// An entry with a boundary, as its line states it.
#[derive(Drop)]
pub struct BoundaryEntry {
    pub boundary: Boundary,
    pub set: Assume,
    pub word: Word,
    pub parts: Items<Part>,
}

/// The entry with a thesis that is next.
#[tactic(auto, unfolding(crate::specs::Entries::entry))]
pub fn thesis_entry(
    alloc: Global,
    terms: &mut Terms,
    text: &mut Cursor<'_>,
) -> Result<ThesisEntry, Fault>
    ensures reads { ReadsThesisEntry (spec.thesis_entry text.old) terms.new result text.new }
    ensures goes_on { Extends terms.old terms.new }
{
    text.expect(b'J')?;
    text.expect(b' ')?;
    let thesis = thesis(alloc, terms, text)?;
    let (set, word, parts) = grounds(alloc, text)?;
    Ok(ThesisEntry {
        thesis,
        set,
        word,
        parts,
    })
}

/// The entry with a boundary that is next.
#[tactic(auto, unfolding(crate::specs::Entries::entry))]
pub fn boundary_entry(
    alloc: Global,
    terms: &mut Terms,
    text: &mut Cursor<'_>,
) -> Result<BoundaryEntry, Fault>
    ensures reads { ReadsBoundaryEntry (spec.boundary_entry text.old) terms.new result text.new }
    ensures goes_on { Extends terms.old terms.new }
{
    text.expect(b'B')?;
    text.expect(b' ')?;
    let boundary = boundary(alloc, terms, text)?;
    let (set, word, parts) = grounds(alloc, text)?;
    Ok(BoundaryEntry {
        boundary,
        set,
        word,
        parts,
    })
}

// What a statement stands on: a set and a step.
#[tactic(auto, unfolding(crate::specs::Entries::grounds))]
fn grounds(alloc: Global, text: &mut Cursor<'_>) -> Result<(Assume, Word, Items<Part>), Fault>
    ensures { Reads (spec.grounds text.old) result text.new }
{
    text.expect(b' ')?;
    let set = set(alloc, text)?;
    text.expect(b' ')?;
    let (word, parts) = step(alloc, text)?;
    Ok((set, word, parts))
}
