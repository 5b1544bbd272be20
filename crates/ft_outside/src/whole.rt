//! Whole texts in and out.
ghost use Rattle.std.specs.Prelude.{◌≡◌, ◌≤◌, ◌<◌, ◌+◌, ◌⊎◌, length, IfOk, OnOk, IfSome, OnErr, IsErrOf};
ghost use Rattle.ft_streams.specs.Streams.{Rose, CountsOn, FailsOnce, Gives, GivesAtMost, Appends, AppendsPrefix, IsAtEnd, greatest_count};

use crate::{Failed, ReadErr, Sink, Source};
use std::alloc::Global;

/// All the bytes up to the end of the input, at most `max`. After an error the source has given some of its bytes, at most
/// one more than that. Where a read fails no other is tried.
#[tactic(auto, using(crate::proofs::Pieces::gives_none, crate::proofs::Pieces::counts_none, crate::proofs::Pieces::gives_next, crate::proofs::Pieces::counts_next))]
pub fn read_source<I: Source>(alloc: Global, src: &mut I, max: usize) -> Result<Vec<u8>, ReadErr>
    requires { max < usize.MAX }

    ensures bytes { IfOk result (λ v. Gives (I.left src.old) v.items (I.left src.new)) }
    ensures end { OnOk result (IsAtEnd (I.left src.new)) }
    ensures short { IfOk result (λ v. length v.items ≤ max) }
    ensures taken { IfOk result (λ v. CountsOn (I.taken src.old) (length v.items) (I.taken src.new)) }

    ensures fault { IsErrOf result ReadErr.Fault → Rose (I.faults src.old) (I.faults src.new) }
    ensures too_long { IsErrOf result ReadErr.TooLong → (I.taken src.old + max < I.taken src.new) ⊎ (I.taken src.new ≡ greatest_count) }
    ensures longer { IsErrOf result ReadErr.TooLong → IfSome (I.left src.old) (λ xs. max < length xs) }
    ensures within { OnOk result (IfSome (I.left src.old) (λ xs. length xs ≤ max)) }
    ensures front { OnErr result (GivesAtMost (max + 1) (I.left src.old) (I.left src.new)) }
    ensures most { I.taken src.new ≤ I.taken src.old + max + 1 }

    ensures calm { (IsErrOf result ReadErr.Fault → ⊥) → I.faults src.new ≡ I.faults src.old }
    ensures once { IsErrOf result ReadErr.Fault → FailsOnce (I.faults src.old) (I.faults src.new) (I.failed src.new) }
{
    let mut out = Vec::new(alloc);
    let mut buf = [0u8; 4096];
    'reading: loop {
        let want = (max - out.len() + 1).min(4096);
        let n = src.read(&mut buf[..want])?;
        if n == 0 {
            return Ok(out);
        }
        if n > max - out.len() {
            return Err(ReadErr::TooLong);
        }
        out.extend_from_slice(&buf[..n])?;
    }
}

/// Writes all the bytes. Where a write fails no other is tried.
pub fn write_all<O: Sink>(sink: &mut O, bytes: &[u8]) -> Result<(), Failed>
    ensures ok { OnOk result (Appends (O.written sink.old) bytes.now (O.written sink.new)) }
    ensures rose { OnErr result (Rose (O.faults sink.old) (O.faults sink.new)) }
    ensures front { OnErr result (AppendsPrefix (O.written sink.old) bytes.now (O.written sink.new)) }
    ensures calm { OnOk result (O.faults sink.new ≡ O.faults sink.old) }
    ensures once { OnErr result (FailsOnce (O.faults sink.old) (O.faults sink.new) (O.failed sink.new)) }
{
    let mut at = 0;
    while at < bytes.len() {
        at += sink.write(&bytes[at..])?;
    }
    Ok(())
}
