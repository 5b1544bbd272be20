//! Reading a whole file.

ghost use Rattle.std.specs.Prelude.{◌≡◌, List, length, IfOk, IfErr};
ghost use Rattle.ft_base.specs.Names.{is_name_token};
ghost use Rattle.ft_items.specs.Item.{Item};
ghost use Rattle.ft_items.specs.Lines.{lines_in, IsLineOf, AreLinesAfterFirst, AreLinesOf};
ghost use Rattle.ft_items.specs.Texts.{IsTextOf};
ghost use Rattle.ft_syntax.specs.Table.{Extends};
ghost use Rattle.ft_stated.specs.Lines.{item_in, items_in, StatedBelow, AllStatedBelow};
ghost use Rattle.ft_read.specs.Files.{IsFault, IsItemFault, IsLaterFault};
ghost use Rattle.ft_read.specs.declared.fault.FileFault.TheVariants.{Memory};

use crate::fault::FileFault;
use crate::lines::split_line;
use crate::version::check_first;
use ft_lines::laws::names_are_visible;
use ft_lines::{Fault, line};
use ft_stated::{Stated, StatedItems};
use ft_syntax::Terms;
use std::alloc::Global;

/// The items of a derivation file, or its fault.
pub fn read_items(alloc: Global, bytes: &[u8]) -> Result<StatedItems, FileFault>
    // The file is the text of the items.
    ensures items { IfOk result (λ x. IsTextOf is_name_token bytes.now x.items) }
    // It has the fault.
    ensures form { IfErr result (λ f. IsFault bytes.now f) }
    // A text of items is read as these items, unless memory is refused.
    ensures same { (items : List Item) → IsTextOf is_name_token bytes.now items → IfOk result (λ x. x.items ≡ items) }
    ensures read { (items : List Item) → IsTextOf is_name_token bytes.now items → IfErr result (λ f. f ≡ Memory) }
{
    names_are_visible();
    items_of(alloc, bytes)
}

// The items of the lines of a file, or its fault.
#[tactic(auto, using(crate::proofs::Whole::no_line, crate::proofs::Whole::first_fault, crate::proofs::Whole::later_fault, crate::proofs::Whole::lines_of))]
fn items_of(alloc: Global, bytes: &[u8]) -> Result<StatedItems, FileFault>
    ensures items { IfOk result (λ x. AreLinesOf is_name_token (lines_in bytes.now) x.items) }
    ensures fault { IfErr result (λ f. IsFault bytes.now f) }
{
    match split_line(bytes) {
        Some((first, rest)) => {
            check_first(first)?;
            let mut terms = Terms::new(alloc);
            let stated = after_first(alloc, &mut terms, rest)?;
            Ok(StatedItems::new(terms, stated)?)
        }
        None => Err(FileFault::Form(1)),
    }
}

// The items that the lines after the first state, over the table.
fn after_first(alloc: Global, terms: &mut Terms, bytes: &[u8]) -> Result<Vec<Stated>, FileFault>
    ensures items { IfOk result (λ x. AllStatedBelow (length terms.new) x.items × AreLinesAfterFirst is_name_token (lines_in bytes.now) (items_in terms.new x.items)) }
    ensures fault { IfErr result (λ f. IsLaterFault (lines_in bytes.now) f) }
{
    let mut stated = Vec::new(alloc);
    let mut rest = bytes;
    let mut number = 2;
    'reading: while let Some((text, after)) = split_line(rest) {
        if text == b"end".as_slice() {
            if after.is_empty() {
                return Ok(stated);
            }
            return Err(FileFault::Form(number + 1));
        }
        stated.push(item_of(alloc, terms, text, number)?)?;
        rest = after;
        number += 1;
    }
    Err(FileFault::Form(number))
}

// The item that the line of this number states, over the table.
fn item_of(alloc: Global, terms: &mut Terms, text: &[u8], number: u64) -> Result<Stated, FileFault>
    ensures item { IfOk result (λ x. StatedBelow (length terms.new) x × IsLineOf is_name_token text.now (item_in terms.new x)) }
    ensures fault { IfErr result (λ f. IsItemFault text.now number f) }
    ensures goes_on { Extends terms.old terms.new }
{
    match line(alloc, terms, text) {
        Ok(x) => Ok(x),
        Err(Fault::Form) => Err(FileFault::Form(number)),
        Err(Fault::Memory) => Err(FileFault::Memory),
    }
}
