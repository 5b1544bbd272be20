//! A source in memory, whose calls fail where that is asked for.
ghost use Rattle.std.specs.Prelude.{◌≡◌, ◌≤◌, ◌<◌, ◌-◌, ◌↔◌, [], IfOk, OnOk, OnErr, IsErr, is_err, Some, true, false, drop, length, min, take};
ghost use Rattle.ft_outside.specs.InMemory.{SourceState, IsListed};
ghost use Rattle.ft_streams.specs.Streams.{Gives, IsAtEnd, raised_count};

use crate::{Failed, Source};
use std::marker::Model;

/// A source that gives bytes in pieces. Its calls have numbers from 1, and those whose numbers are listed fail. The
/// number 18,446,744,073,709,551,615 is that of all later calls too.
#[derive(Drop)]
pub struct MemSource {
    bytes: Vec<u8>,
    at: usize,
    piece: usize,
    fail_at: Vec<u64>,
    calls: u64,
    taken: u64,
    faults: u64,
    failed: bool,
}

impl Model for MemSource {
    ghost use Rattle.std.specs.Prelude.{◌≡◌, ◌≤◌, ◌<◌, [], drop, length};
    ghost use Rattle.ft_outside.specs.InMemory.{SourceState};

    ghost Value = { SourceState };

    ghost view = { λ s. record {
      rest = drop s.at s.bytes.items;
      piece = s.piece;
      fail_at = s.fail_at.items;
      calls = s.calls;
      taken = s.taken;
      faults = s.faults;
      failed = s.failed;
    } };

    ghost invariant = { λ s. (s.at ≤ length s.bytes.items) × (0 < s.piece) × (s.fail_at.items ≡ [] → s.faults ≡ 0) };
}

impl MemSource {
    /// A source of `bytes`, at most `piece` in a call. The calls whose numbers are in `fail_at` fail.
    pub fn new(bytes: Vec<u8>, piece: usize, fail_at: Vec<u64>) -> MemSource
        requires { 0 < piece }
        ensures { result ≡ record {
          rest = bytes.items;
          piece = piece;
          fail_at = fail_at.items;
          calls = 0;
          taken = 0;
          faults = 0;
          failed = false;
        } }
    {
        MemSource {
            bytes,
            at: 0,
            piece,
            fail_at,
            calls: 0,
            taken: 0,
            faults: 0,
            failed: false,
        }
    }
}

// Fills the front of `buf`, and answers how many bytes that took.
#[tactic(auto, using(ft_common::proofs::Lists::range_from))]
fn give(from: &[u8], at: usize, buf: &mut [u8], most: usize) -> usize
    requires { at ≤ length from.now }
    ensures count { result ≡ min (min (length buf.old) most) (length from.now - at) }
    ensures bytes { take result buf.new ≡ take result (drop at from.now) }
{
    let n = buf.len().min(most).min(from.len() - at);
    buf[..n].copy_from_slice(&from[at..at + n]);
    n
}

impl Source for MemSource {
    ghost left = { λ s. Some s.rest };

    ghost taken = { λ s. s.taken };

    ghost faults = { λ s. s.faults };

    ghost failed = { λ s. s.failed };

    #[tactic(auto, using(crate::proofs::Pieces::gives_front))]
    fn read(&mut self, buf: &mut [u8]) -> Result<usize, Failed>
        ensures bound { IfOk result (λ n. n ≤ length buf.new) }
        ensures bytes { IfOk result (λ n. Gives (Some self.old.rest) (take n buf.new) (Some self.new.rest)) }
        ensures taken { IfOk result (λ n. self.new.taken ≡ raised_count self.old.taken n) }
        ensures end { IfOk result (λ n. n ≡ 0 → 0 < length buf.old → IsAtEnd (Some self.new.rest)) }

        ensures kept { OnErr result (buf.new ≡ buf.old) }
        ensures left { OnErr result (Some self.new.rest ≡ Some self.old.rest) }
        ensures same { OnErr result (self.new.taken ≡ self.old.taken) }

        ensures calm { OnOk result (self.new.faults ≡ self.old.faults) }
        ensures once { OnErr result (self.new.faults ≡ raised_count self.old.faults 1) }
        ensures last { self.new.failed ≡ is_err result }

        // Beyond what each source promises:
        ensures exactly { IsErr result ↔ IsListed self.old.fail_at self.old.calls }
        ensures count { IfOk result (λ n. n ≡ min (min (length buf.old) self.old.piece) (length self.old.rest)) }
        ensures ok { IfOk result (λ n. self.new ≡ record self.old {
          rest = drop n self.old.rest;
          calls = raised_count self.old.calls 1;
          taken = raised_count self.old.taken n;
          failed = false;
        }) }
        ensures err { OnErr result (self.new ≡ record self.old {
          calls = raised_count self.old.calls 1;
          faults = raised_count self.old.faults 1;
          failed = true;
        }) }
        ensures quiet { self.new.fail_at ≡ [] → self.new.faults ≡ 0 }
    {
        self.calls = self.calls.saturating_add(1);
        self.failed = self.fail_at.contains(&self.calls);
        if self.failed {
            self.faults = self.faults.saturating_add(1);
            return Err(Failed);
        }
        let n = give(&self.bytes, self.at, buf, self.piece);
        self.at += n;
        self.taken = self.taken.saturating_add(n as u64);
        Ok(n)
    }
}
