//! Adapters over real streams. They count, and tell nothing of the bytes.
ghost use Rattle.std.specs.Prelude.{◌≡◌, ◌≤◌, ◌<◌, IfOk, OnOk, OnErr, is_err, false, length, take};
ghost use Rattle.ft_outside.specs.InMemory.{untold_bytes};
ghost use Rattle.ft_streams.specs.Streams.{Gives, Appends, IsAtEnd, raised_count};

use crate::{Failed, Sink, Source};
use std::io::{Read, Write};
use std::marker::Model;

/// The source over a reader. Each call that the reader refuses counts as a fault.
#[derive(Drop)]
pub struct StdSource<R> {
    inner: R,
    taken: u64,
    faults: u64,
    failed: bool,
}

impl<R> Model for StdSource<R> {
    ghost use Rattle.ft_outside.specs.InMemory.{SourceCounts};

    ghost Value = { SourceCounts };

    ghost view = { λ s. record { taken = s.taken; faults = s.faults; failed = s.failed } };
}

impl<R: Read> StdSource<R> {
    pub fn new(inner: R) -> StdSource<R>
        ensures { result ≡ record { taken = 0; faults = 0; failed = false } }
    {
        StdSource {
            inner,
            taken: 0,
            faults: 0,
            failed: false,
        }
    }
}

impl<R: Read> Source for StdSource<R> {
    ghost left = { λ _. untold_bytes };

    ghost taken = { λ s. s.taken };

    ghost faults = { λ s. s.faults };

    ghost failed = { λ s. s.failed };

    fn read(&mut self, buf: &mut [u8]) -> Result<usize, Failed>
        ensures bound { IfOk result (λ n. n ≤ length buf.new) }
        ensures bytes { IfOk result (λ n. Gives untold_bytes (take n buf.new) untold_bytes) }
        ensures taken { IfOk result (λ n. self.new.taken ≡ raised_count self.old.taken n) }
        ensures end { IfOk result (λ n. n ≡ 0 → 0 < length buf.old → IsAtEnd untold_bytes) }

        ensures kept { OnErr result (buf.new ≡ buf.old) }
        ensures left { OnErr result (untold_bytes ≡ untold_bytes) }
        ensures same { OnErr result (self.new.taken ≡ self.old.taken) }

        ensures calm { OnOk result (self.new.faults ≡ self.old.faults) }
        ensures once { OnErr result (self.new.faults ≡ raised_count self.old.faults 1) }
        ensures last { self.new.failed ≡ is_err result }
    {
        let mut piece = [0u8; 4096];
        let want = buf.len().min(4096);
        let read = self.inner.read(&mut piece[..want]);
        self.failed = read.is_err();
        let Ok(n) = read else {
            self.faults = self.faults.saturating_add(1);
            return Err(Failed);
        };
        buf[..n].copy_from_slice(&piece[..n]);
        self.taken = self.taken.saturating_add(n as u64);
        Ok(n)
    }
}

/// The sink over a writer, which is flushed after each write. A call that the writer refuses, or that takes no byte,
/// counts as a fault.
#[derive(Drop)]
pub struct StdSink<W> {
    inner: W,
    faults: u64,
    failed: bool,
}

impl<W> Model for StdSink<W> {
    ghost use Rattle.ft_outside.specs.InMemory.{SinkCounts};

    ghost Value = { SinkCounts };

    ghost view = { λ s. record { faults = s.faults; failed = s.failed } };
}

impl<W: Write> StdSink<W> {
    pub fn new(inner: W) -> StdSink<W>
        ensures { result ≡ record { faults = 0; failed = false } }
    {
        StdSink {
            inner,
            faults: 0,
            failed: false,
        }
    }
}

impl<W: Write> Sink for StdSink<W> {
    ghost written = { λ _. untold_bytes };

    ghost faults = { λ s. s.faults };

    ghost failed = { λ s. s.failed };

    fn write(&mut self, bytes: &[u8]) -> Result<usize, Failed>
        ensures bound { IfOk result (λ n. n ≤ length bytes.now) }
        ensures some { IfOk result (λ n. 0 < length bytes.now → 0 < n) }
        ensures bytes { IfOk result (λ n. Appends untold_bytes (take n bytes.now) untold_bytes) }

        ensures same { OnErr result (untold_bytes ≡ untold_bytes) }

        ensures calm { OnOk result (self.new.faults ≡ self.old.faults) }
        ensures once { OnErr result (self.new.faults ≡ raised_count self.old.faults 1) }
        ensures last { self.new.failed ≡ is_err result }

        // Beyond what each sink promises:
        ensures taken { IfOk result (λ n. 0 < n) }
    {
        self.failed = false;
        if let Ok(n) = self.inner.write(bytes)
            && self.inner.flush().is_ok()
            && n > 0
        {
            return Ok(n);
        }
        self.failed = true;
        self.faults = self.faults.saturating_add(1);
        Err(Failed)
    }
}
