//! The traits of sources and sinks, and the call that hands a whole piece over.
ghost use Rattle.std.specs.Prelude.{◌≡◌, ℕ, ◌<◌, ◌≤◌, List, [], length, take, Option, IfSome, IfOk};
ghost use Rattle.std.specs.Prelude.{OnOk, OnErr};
ghost use Rattle.dp_io.specs.Streams.{Rose, Gave, Grew, one_more};

/// A read or a write failed. The object counted it.
#[derive(Clone, Copy, Debug, PartialEq, Eq)]
pub struct Failed;

/// Counts a fault. The count stays at 2^64 - 1.
pub(crate) fn fault(faults: &mut u64) -> Failed
    ensures one_more { faults.new ≡ one_more faults.old }
    ensures counted { faults.old ≤ faults.new }
{
    *faults = faults.saturating_add(1);
    Failed
}

/// Where bytes come from. Its count of faults is greater after a call only where the call answers
/// `Failed`.
pub trait Source {
    /// The bytes left, where the source tells them.
    ghost left: { Self → Option (List ℕ) };

    /// How many reads failed so far. It stays at 2^64 - 1.
    ghost faults: { Self → ℕ };

    /// Moves bytes from the front of what is left to the front of `into`, and answers how many.
    /// `Ok(0)` into a buffer that isn't empty is the end of input. `Failed` moves nothing.
    fn read(&mut self, into: &mut [u8]) -> Result<usize, Failed>
        ensures within { IfOk result (λ n. n ≤ length into.old) }
        ensures moved { IfOk result (λ n. Gave (left self.old) (left self.new) (take n into.new)) }
        ensures end { result ≡ Ok 0 → 0 < length into.old
            → IfSome (left self.old) (λ bytes. bytes ≡ []) }
        ensures kept { OnErr result (left self.new ≡ left self.old) }
        ensures failed { OnErr result (Rose (faults self.old) (faults self.new)) }
        ensures same { OnOk result (faults self.new ≡ faults self.old) }
        ensures counted { faults self.old ≤ faults self.new };
}

/// Where bytes go. Its count of faults is greater after a call only where the call answers `Failed`.
pub trait Sink {
    /// The bytes taken so far, where the sink tells them.
    ghost taken: { Self → Option (List ℕ) };

    /// How many writes failed so far. It stays at 2^64 - 1.
    ghost faults: { Self → ℕ };

    /// Takes bytes from the front of a piece that isn't empty, and answers how many: at least one.
    /// `Failed` takes nothing.
    fn write(&mut self, piece: &[u8]) -> Result<usize, Failed>
        requires { 0 < length piece.now }
        ensures some { IfOk result (λ n. 0 < n) }
        ensures within { IfOk result (λ n. n ≤ length piece.now) }
        ensures grew { IfOk result
            (λ n. Grew (taken self.old) (taken self.new) (take n piece.now)) }
        ensures kept { OnErr result (taken self.new ≡ taken self.old) }
        ensures failed { OnErr result (Rose (faults self.old) (faults self.new)) }
        ensures same { OnOk result (faults self.new ≡ faults self.old) }
        ensures counted { faults self.old ≤ faults self.new };
}

/// Hands the piece over until all of it is taken. At `Failed` a prefix of it was taken that isn't the whole.
pub fn send_all<S: Sink>(sink: &mut S, piece: &[u8]) -> Result<(), Failed>
    ensures whole { OnOk result (Grew (S.taken sink.old) (S.taken sink.new) piece.now) }
    ensures part { OnErr result ((n : ℕ) × (n < length piece.now)
        × Grew (S.taken sink.old) (S.taken sink.new) (take n piece.now)) }
    ensures failed { OnErr result (Rose (S.faults sink.old) (S.faults sink.new)) }
    ensures same { OnOk result (S.faults sink.new ≡ S.faults sink.old) }
    ensures counted { S.faults sink.old ≤ S.faults sink.new }
{
    let mut sent = 0;
    while sent < piece.len() {
        sent += sink.write(&piece[sent..])?;
    }
    Ok(())
}
