//! The whole file.

ghost use Rattle.std.specs.Prelude.{◌≡◌, IfOk, OnOk, OnErr, IsErrOf, encode_utf8_all};
ghost use Rattle.ft_base.specs.Names.{is_name_token};
ghost use Rattle.ft_items.specs.Texts.{text_of, IsTextOf};
ghost use Rattle.ft_streams.specs.Streams.{Rose, FailsOnce, Appends, AppendsPrefix};
ghost use Rattle.ft_export.specs.Written.{WritesUpTo};

use crate::lines::push_item;
use ft_base::Text;
use ft_kernel::Kernel;
use ft_outside::{Sink, WriteErr, write_all};
use std::alloc::Global;

// The bytes from which on a page is written.
const PAGE: usize = 65_536;

/// Writes the derivation file of the list, page by page. After an error a prefix of it was written. Where a write fails
/// no other is tried.
pub fn write_derivation<O: Sink>(alloc: Global, k: &Kernel, sink: &mut O) -> Result<(), WriteErr>
    ensures ok { OnOk result (Appends (O.written sink.old) (encode_utf8_all (text_of k.now.items)) (O.written sink.new)) }
    ensures text { OnOk result (IsTextOf is_name_token (encode_utf8_all (text_of k.now.items)) k.now.items) }
    ensures front { OnErr result (AppendsPrefix (O.written sink.old) (encode_utf8_all (text_of k.now.items)) (O.written sink.new)) }
    ensures fault { IsErrOf result WriteErr.Fault → Rose (O.faults sink.old) (O.faults sink.new) }
    ensures calm { (IsErrOf result WriteErr.Fault → ⊥) → O.faults sink.new ≡ O.faults sink.old }
    ensures once { IsErrOf result WriteErr.Fault → FailsOnce (O.faults sink.old) (O.faults sink.new) (O.failed sink.new) }
{
    let mut page = Text::new(alloc);
    page.push_str("andromeda derivation 1\n")?;
    for i in 0..k.len() {
        push_item(k, i, &mut page)?;
        page.push_str("\n")?;
        page = write_full(alloc, page, sink)?;
    }
    page.push_str("end\n")?;
    write_all(sink, page.bytes())?;
    Ok(())
}

// Writes the text where it fills a page, and answers what is still to be written.
fn write_full<O: Sink>(alloc: Global, text: Text, sink: &mut O) -> Result<Text, WriteErr>
    ensures ok { IfOk result (λ rest. WritesUpTo (O.written sink.old) text rest (O.written sink.new)) }
    ensures front { OnErr result (AppendsPrefix (O.written sink.old) text (O.written sink.new)) }
    ensures fault { IsErrOf result WriteErr.Fault → Rose (O.faults sink.old) (O.faults sink.new) }
    ensures calm { (IsErrOf result WriteErr.Fault → ⊥) → O.faults sink.new ≡ O.faults sink.old }
    ensures once { IsErrOf result WriteErr.Fault → FailsOnce (O.faults sink.old) (O.faults sink.new) (O.failed sink.new) }
{
    if text.bytes().len() < PAGE {
        return Ok(text);
    }
    write_all(sink, text.bytes())?;
    Ok(Text::new(alloc))
}
