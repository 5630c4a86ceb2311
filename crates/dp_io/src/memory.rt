//! A source and a sink in memory, which fail at the calls that they are told to.
ghost use Rattle.std.specs.Prelude.{◌≡◌, ◌-◌, ◌<◌, ◌≤◌, ◌↔◌, ◌⊎◌, [], length, take, Contains};
ghost use Rattle.std.specs.Prelude.{IsTrue, IsErr, IfOk, OnOk, OnErr, Some};
ghost use Rattle.std.proofs.Common.{min};
ghost use Rattle.dp_io.specs.Streams.{Rose, Gave, Grew, one_more};

use crate::stream::{Failed, Sink, Source, fault};
use no_memory::NoMemory;
use std::alloc::Global;
use std::marker::Model;

/// The calls of a source or a sink: which fail, the number of the next, and how many failed.
#[derive(Debug, Drop)]
struct Calls {
    fails: Vec<u64>,
    next: u64,
    faults: u64,
}

impl Calls {
    fn new(fails: Vec<u64>) -> Calls
        ensures fails { result.fails ≡ fails }
        ensures next { result.next ≡ 0 }
        ensures faults { result.faults ≡ 0 }
    {
        Calls {
            fails,
            next: 0,
            faults: 0,
        }
    }

    /// Counts a call, and tells whether it is one that fails.
    fn begin(&mut self) -> bool
        ensures told { IsTrue result ↔ Contains self.old.fails.items self.old.next }
        ensures after { self.new ≡ record self.old { next = one_more self.old.next } }
    {
        let call = self.next;
        self.next = call.saturating_add(1);
        self.fails.contains(&call)
    }
}

/// A source of bytes in memory. A read gives at most as many bytes as it was made with; exactly the
/// calls whose numbers, counted from 0, it was made with fail.
#[derive(Debug, Drop)]
pub struct MemorySource {
    bytes: Vec<u8>,
    given: usize,
    most: usize,
    calls: Calls,
}

impl Model for MemorySource {
    ghost use Rattle.std.specs.Prelude.{◌≤◌, ◌<◌, vec_len, drop};
    ghost use Rattle.dp_io.specs.Memory.{Supply};

    ghost Value = { Supply };

    ghost view = { λ s. record {
      left = drop s.given s.bytes.items;
      most = s.most;
      fails = s.calls.fails.items;
      next = s.calls.next;
      faults = s.calls.faults;
    } };

    ghost invariant = { λ s. (s.given ≤ vec_len s.bytes) × (0 < s.most) };
}

impl MemorySource {
    /// A source that has all of the bytes left and has had no call. Call numbers count from 0 and stay
    /// at 2^64 - 1.
    pub fn new(bytes: Vec<u8>, most: usize, fails: Vec<u64>) -> MemorySource
        requires { 0 < most }
        ensures left { result.left ≡ bytes.items }
        ensures most { result.most ≡ most }
        ensures fails { result.fails ≡ fails.items }
        ensures next { result.next ≡ 0 }
        ensures faults { result.faults ≡ 0 }
    {
        MemorySource {
            bytes,
            given: 0,
            most,
            calls: Calls::new(fails),
        }
    }
}

impl Source for MemorySource {
    ghost left = { λ s. Some s.left };

    ghost faults = { λ s. s.faults };

    /// Gives the least of three: what it may give at once, what `into` holds and what is left.
    fn read(&mut self, into: &mut [u8]) -> Result<usize, Failed>
        ensures within { IfOk result (λ n. n ≤ length into.old) }
        ensures moved { IfOk result
            (λ n. Gave (Some self.old.left) (Some self.new.left) (take n into.new)) }
        ensures end { result ≡ Ok 0 → 0 < length into.old → self.old.left ≡ [] }
        ensures kept { OnErr result (self.new.left ≡ self.old.left) }
        ensures failed { OnErr result (Rose self.old.faults self.new.faults) }
        ensures same { OnOk result (self.new.faults ≡ self.old.faults) }
        ensures counted { self.old.faults ≤ self.new.faults }

        // What a source in memory does beyond that.
        ensures fails { IsErr result ↔ Contains self.old.fails self.old.next }
        ensures amount { IfOk result
            (λ n. n ≡ min (min self.old.most (length into.old)) (length self.old.left)) }
        ensures next { self.new.next ≡ one_more self.old.next }
        ensures one_fault { OnErr result (self.new.faults ≡ one_more self.old.faults) }
        ensures same_most { self.new.most ≡ self.old.most }
        ensures same_fails { self.new.fails ≡ self.old.fails }
    {
        if self.calls.begin() {
            return Err(fault(&mut self.calls.faults));
        }
        let left = &self.bytes[self.given..];
        let count = left.len().min(self.most).min(into.len());
        into[..count].copy_from_slice(&left[..count]);
        self.given += count;
        Ok(count)
    }
}

/// A sink of bytes in memory, which takes its memory when it is made. A write takes as many bytes as
/// still fit; it fails where none fits, and at the calls whose numbers, counted from 0, it was made with.
#[derive(Debug, Drop)]
pub struct MemorySink {
    bytes: Vec<u8>,
    used: usize,
    calls: Calls,
}

impl Model for MemorySink {
    ghost use Rattle.std.specs.Prelude.{◌≤◌, vec_len, take};
    ghost use Rattle.dp_io.specs.Memory.{Store};

    ghost Value = { Store };

    ghost view = { λ s. record {
      taken = take s.used s.bytes.items;
      room = vec_len s.bytes;
      fails = s.calls.fails.items;
      next = s.calls.next;
      faults = s.calls.faults;
    } };

    ghost invariant = { λ s. s.used ≤ vec_len s.bytes };
}

impl MemorySink {
    /// An empty sink that has had no call. Call numbers count from 0 and stay at 2^64 - 1. `NoMemory`
    /// comes only where there is no memory for `room` bytes.
    pub fn new(alloc: Global, room: usize, fails: Vec<u64>) -> Result<MemorySink, NoMemory>
        ensures taken { IfOk result (λ sink. sink.taken ≡ []) }
        ensures room { IfOk result (λ sink. sink.room ≡ room) }
        ensures fails { IfOk result (λ sink. sink.fails ≡ fails.items) }
        ensures next { IfOk result (λ sink. sink.next ≡ 0) }
        ensures faults { IfOk result (λ sink. sink.faults ≡ 0) }
    {
        Ok(MemorySink {
            bytes: vec![in alloc; 0; room]?,
            used: 0,
            calls: Calls::new(fails),
        })
    }

    /// The bytes taken so far, in order.
    pub fn taken(&self) -> &[u8]
        ensures { result.now ≡ self.now.taken }
    {
        &self.bytes[..self.used]
    }
}

impl Sink for MemorySink {
    ghost taken = { λ s. Some s.taken };

    ghost faults = { λ s. s.faults };

    /// Takes the least of two: the piece and what there is still room for. Its signature has no allocator, so it
    /// takes no memory.
    fn write(&mut self, piece: &[u8]) -> Result<usize, Failed>
        requires { 0 < length piece.now }
        ensures some { IfOk result (λ n. 0 < n) }
        ensures within { IfOk result (λ n. n ≤ length piece.now) }
        ensures grew { IfOk result
            (λ n. Grew (Some self.old.taken) (Some self.new.taken) (take n piece.now)) }
        ensures kept { OnErr result (self.new.taken ≡ self.old.taken) }
        ensures failed { OnErr result (Rose self.old.faults self.new.faults) }
        ensures same { OnOk result (self.new.faults ≡ self.old.faults) }
        ensures counted { self.old.faults ≤ self.new.faults }

        // What a sink in memory does beyond that.
        ensures fails { IsErr result
            ↔ (Contains self.old.fails self.old.next ⊎ (self.old.room ≤ length self.old.taken)) }
        ensures amount { IfOk result
            (λ n. n ≡ min (length piece.now) (self.old.room - length self.old.taken)) }
        ensures next { self.new.next ≡ one_more self.old.next }
        ensures one_fault { OnErr result (self.new.faults ≡ one_more self.old.faults) }
        ensures same_room { self.new.room ≡ self.old.room }
        ensures same_fails { self.new.fails ≡ self.old.fails }
    {
        let free = self.bytes.len() - self.used;
        if self.calls.begin() || free == 0 {
            return Err(fault(&mut self.calls.faults));
        }
        let count = piece.len().min(free);
        self.bytes[self.used..self.used + count].copy_from_slice(&piece[..count]);
        self.used += count;
        Ok(count)
    }
}
