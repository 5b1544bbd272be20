//! Sources and sinks: bytes that come in, and bytes that go out.
ghost use Rattle.std.specs.Prelude.{◌≡◌, ◌≤◌, ◌<◌, ℕ, Bool, List, Option, length, take, is_err, IfOk, OnOk, OnErr};
ghost use Rattle.ft_streams.specs.Streams.{Gives, Appends, raised_count, IsAtEnd};

/// A call of a source or a sink failed.
#[derive(Clone, Copy, Debug, Drop, PartialEq, Eq)]
pub struct Failed;

/// Bytes that come in.
pub trait Source {
    /// The bytes still to come, where they are told.
    ghost left: { Self → Option (List ℕ) };

    /// How many bytes were given, up to 18,446,744,073,709,551,615, where the count stands still.
    ghost taken: { Self → ℕ };

    /// How many calls failed, up to 18,446,744,073,709,551,615, where the count stands still.
    ghost faults: { Self → ℕ };

    /// Whether the last call failed.
    ghost failed: { Self → Bool };

    /// Puts the next bytes to the front of `buf`, and answers how many. No byte for a buffer that is not empty: the
    /// end of the input. A call that fails gives nothing and leaves `buf` as it was.
    fn read(&mut self, buf: &mut [u8]) -> Result<usize, Failed>
        ensures bound { IfOk result (λ n. n ≤ length buf.new) }
        ensures bytes { IfOk result (λ n. Gives (left self.old) (take n buf.new) (left self.new)) }
        ensures taken { IfOk result (λ n. taken self.new ≡ raised_count (taken self.old) n) }
        ensures end { IfOk result (λ n. n ≡ 0 → 0 < length buf.old → IsAtEnd (left self.new)) }

        ensures kept { OnErr result (buf.new ≡ buf.old) }
        ensures left { OnErr result (left self.new ≡ left self.old) }
        ensures same { OnErr result (taken self.new ≡ taken self.old) }

        ensures calm { OnOk result (faults self.new ≡ faults self.old) }
        ensures once { OnErr result (faults self.new ≡ raised_count (faults self.old) 1) }
        ensures last { failed self.new ≡ is_err result };
}

/// Bytes that go out.
pub trait Sink {
    /// The bytes that were written, where they are told.
    ghost written: { Self → Option (List ℕ) };

    /// How many calls failed, up to 18,446,744,073,709,551,615, where the count stands still.
    ghost faults: { Self → ℕ };

    /// Whether the last call failed.
    ghost failed: { Self → Bool };

    /// Writes bytes from the front of `bytes`, and answers how many: at least one, unless there is none.
    fn write(&mut self, bytes: &[u8]) -> Result<usize, Failed>
        ensures bound { IfOk result (λ n. n ≤ length bytes.now) }
        ensures some { IfOk result (λ n. 0 < length bytes.now → 0 < n) }
        ensures bytes { IfOk result (λ n. Appends (written self.old) (take n bytes.now) (written self.new)) }

        ensures same { OnErr result (written self.new ≡ written self.old) }

        ensures calm { OnOk result (faults self.new ≡ faults self.old) }
        ensures once { OnErr result (faults self.new ≡ raised_count (faults self.old) 1) }
        ensures last { failed self.new ≡ is_err result };
}
