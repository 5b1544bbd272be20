//! A sink in memory, whose calls fail where that is asked for.
ghost use Rattle.std.specs.Prelude.{◌≡◌, ◌≤◌, ◌<◌, ◌+◌, ◌-◌, ◌++◌, ◌↔◌, ◌⊎◌, [], IfOk, OnOk, OnErr, IsErr, is_err, Some, true, false, length, min, take, vec_capacity};
ghost use Rattle.ft_outside.specs.InMemory.{SinkState, IsListed, IsFull};
ghost use Rattle.ft_streams.specs.Streams.{Appends, raised_count};

use crate::{Failed, Sink};
use ft_base::Memory;
use std::alloc::Global;
use std::marker::Model;

/// A sink that holds so many bytes and takes them in pieces. Its calls have numbers from 1, and those whose numbers are
/// listed fail. The number 18,446,744,073,709,551,615 is that of all later calls too.
#[derive(Drop)]
pub struct MemSink {
    bytes: Vec<u8>,
    room: usize,
    piece: usize,
    fail_at: Vec<u64>,
    calls: u64,
    faults: u64,
    failed: bool,
}

impl Model for MemSink {
    ghost use Rattle.std.specs.Prelude.{◌≡◌, ◌≤◌, ◌<◌, [], length, vec_capacity};
    ghost use Rattle.ft_outside.specs.InMemory.{SinkState};

    ghost Value = { SinkState };

    ghost view = { λ s. record {
      written = s.bytes.items;
      room = s.room;
      piece = s.piece;
      fail_at = s.fail_at.items;
      calls = s.calls;
      faults = s.faults;
      failed = s.failed;
    } };

    ghost invariant = { λ s. (length s.bytes.items ≤ s.room) × (s.room ≤ vec_capacity s.bytes) × (0 < s.piece) };
}

impl MemSink {
    /// A sink for `room` bytes, of which a call takes at most `piece`. The calls whose numbers are in `fail_at` fail. All
    /// the memory is taken here.
    pub fn new(
        alloc: Global,
        room: usize,
        piece: usize,
        fail_at: Vec<u64>,
    ) -> Result<MemSink, Memory>
        requires { 0 < piece }
        ensures { IfOk result (λ sink. sink ≡ record {
          written = [];
          room = room;
          piece = piece;
          fail_at = fail_at.items;
          calls = 0;
          faults = 0;
          failed = false;
        }) }
    {
        Ok(MemSink {
            bytes: Vec::with_capacity(alloc, room)?,
            room,
            piece,
            fail_at,
            calls: 0,
            faults: 0,
            failed: false,
        })
    }

    /// What was written.
    pub fn bytes(&self) -> &[u8]
        ensures { result.now ≡ self.now.written }
    {
        self.bytes.as_slice()
    }
}

// Appends bytes for which there is room.
fn put(out: &mut Vec<u8>, bytes: &[u8])
    requires { length out.old.items + length bytes.now ≤ vec_capacity out.old }
    ensures bytes { out.new.items ≡ out.old.items ++ bytes.now }
    ensures room { vec_capacity out.old ≤ vec_capacity out.new }
{
    for b in bytes {
        out.push(*b).unwrap();
    }
}

impl Sink for MemSink {
    ghost written = { λ s. Some s.written };

    ghost faults = { λ s. s.faults };

    ghost failed = { λ s. s.failed };

    fn write(&mut self, bytes: &[u8]) -> Result<usize, Failed>
        ensures bound { IfOk result (λ n. n ≤ length bytes.now) }
        ensures some { IfOk result (λ n. 0 < length bytes.now → 0 < n) }
        ensures bytes { IfOk result (λ n. Appends (Some self.old.written) (take n bytes.now) (Some self.new.written)) }

        ensures same { OnErr result (Some self.new.written ≡ Some self.old.written) }

        ensures calm { OnOk result (self.new.faults ≡ self.old.faults) }
        ensures once { OnErr result (self.new.faults ≡ raised_count self.old.faults 1) }
        ensures last { self.new.failed ≡ is_err result }

        // Beyond what each sink promises:
        ensures exactly { IsErr result ↔ (IsListed self.old.fail_at self.old.calls ⊎ IsFull self.old bytes.now) }
        ensures count { IfOk result (λ n. n ≡ min (min (length bytes.now) self.old.piece)
            (self.old.room - length self.old.written)) }
        ensures ok { IfOk result (λ n. self.new ≡ record self.old {
          written = self.old.written ++ take n bytes.now;
          calls = raised_count self.old.calls 1;
          failed = false;
        }) }
        ensures err { OnErr result (self.new ≡ record self.old {
          calls = raised_count self.old.calls 1;
          faults = raised_count self.old.faults 1;
          failed = true;
        }) }
        ensures room { length self.new.written ≤ self.new.room }
    {
        self.calls = self.calls.saturating_add(1);
        let full = !bytes.is_empty() && self.bytes.len() == self.room;
        self.failed = full || self.fail_at.contains(&self.calls);
        if self.failed {
            self.faults = self.faults.saturating_add(1);
            return Err(Failed);
        }
        let n = bytes
            .len()
            .min(self.piece)
            .min(self.room - self.bytes.len());
        put(&mut self.bytes, &bytes[..n]);
        Ok(n)
    }
}
