//! Reading a step: its word, and its parts.

ghost use Rattle.std.specs.Prelude.{◌≡◌, [], length};
ghost use Rattle.ft_lines.specs.Steps as spec;
ghost use Rattle.ft_lines.specs.Reading.{Reads};

use crate::cursor::Cursor;
use crate::fault::Fault;
use crate::words::Word;
use sqlite_items::Items;
use std::alloc::Global;

/// What stands in a step after its word: a number, or the slash between two lists of numbers.
#[derive(Clone, Copy, Debug, PartialEq, Eq, Drop)]
pub enum Part {
    Number(u64),
    Slash,
}

/// The step that is next: its word and its parts.
#[tactic(auto, unfolding(crate::specs::Steps::step))]
pub fn step(alloc: Global, text: &mut Cursor<'_>) -> Result<(Word, Items<Part>), Fault>
    ensures { Reads (spec.step text.old) result text.new }
{
    let word = step_word(text)?;
    let parts = parts(alloc, text)?;
    Ok((word, parts))
}

// The word of a step.
#[tactic(auto, unfolding(crate::specs::Steps::step_word))]
fn step_word(text: &mut Cursor<'_>) -> Result<Word, Fault>
    ensures { Reads (spec.step_word text.old) result text.new }
{
    match Word::of(text.letters()) {
        Some(word) => Ok(word),
        None => Err(Fault::Form),
    }
}

/// The parts of a step that are next, with a space before each.
#[tactic(auto, unfolding(crate::specs::Steps::parts_from))]
pub fn parts(alloc: Global, text: &mut Cursor<'_>) -> Result<Items<Part>, Fault>
    ensures { Reads (spec.parts text.old) result text.new }
{
    let mut found = Items::new(alloc);
    for _turn in 0..text.left() {
        if !text.passes(b' ') {
            return Ok(found);
        }
        found.push(one_part(text)?)?;
    }
    Ok(found)
}

#[tactic(auto, unfolding(crate::specs::Steps::part))]
fn one_part(text: &mut Cursor<'_>) -> Result<Part, Fault>
    ensures { Reads (spec.part text.old) result text.new }
{
    if text.passes(b'/') {
        return Ok(Part::Slash);
    }
    let number = text.number()?;
    Ok(Part::Number(number))
}
