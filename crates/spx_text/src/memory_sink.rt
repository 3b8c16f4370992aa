// A sink in memory, of which some writes are to fail.
ghost use Rattle.std.specs.Prelude.{◌≡◌, ◌≤◌, ◌<◌, ◌+◌, ◌-◌, ◌^◌, ◌⊎◌, ◌↔◌, min, [], length, take, Contains, IfOk, IsErr, OnErr, vec_len, vec_capacity, Some};
ghost use Rattle.spx_text.specs.Writes.{after, HasCause, IsStuck};

use crate::sink::count_fault;
use crate::{Failed, Sink};
use std::alloc::{AllocError, Global};

/// A sink in memory. A write fails exactly where the list says so and where nothing of a piece can be taken.
#[derive(Drop)]
pub struct MemSink {
    pub taken: Vec<u8>,
    /// How many bytes it can take in all. The room is reserved when the sink is made, and never grown.
    pub room: usize,
    /// How many bytes it takes in one write at most.
    pub most: usize,
    /// How many writes there were. At the end of its type it stands still.
    pub calls: u64,
    /// The writes that are to fail, the first being 0.
    pub failing: Vec<u64>,
    /// How many writes have failed. At the end of its type it stands still.
    pub faults: u64,
    ghost reserved: { room ≤ vec_capacity taken },
    ghost within: { vec_len taken ≤ room },
}

impl MemSink {
    /// An empty sink for `room` bytes, of which it takes `most` in one write; the writes whose numbers, from 0, are in
    /// `failing` fail.
    pub fn new(
        alloc: Global,
        room: usize,
        most: usize,
        failing: Vec<u64>,
    ) -> Result<Self, AllocError>
        ensures taken { IfOk result (λ sink. sink.taken.items ≡ []) }
        ensures faults { IfOk result (λ sink. sink.faults ≡ 0) }
        ensures failing { IfOk result (λ sink. sink.failing.items ≡ failing.items) }
        ensures room { IfOk result (λ sink. sink.room ≡ room) }
        ensures most { IfOk result (λ sink. sink.most ≡ most) }
    {
        Ok(MemSink {
            taken: Vec::with_capacity(alloc, room)?,
            room,
            most,
            calls: 0,
            failing,
            faults: 0,
        })
    }
}

impl Sink for MemSink {
    ghost taken = { λ sink. Some sink.taken.items };

    ghost faults = { λ sink. sink.faults };

    // It fails exactly at the calls in the list, and at a piece of which nothing can be taken.
    fn write(&mut self, piece: &[u8]) -> Result<usize, Failed>
        ensures count { IfOk result (λ n. n ≤ length piece.now) }
        ensures some { IfOk result (λ n. 0 < length piece.now → 0 < n) }
        ensures taken { IfOk result (λ n. Some self.new.taken.items ≡ after (Some self.old.taken.items) (take n piece.now)) }
        ensures none { OnErr result (Some self.new.taken.items ≡ Some self.old.taken.items) }
        ensures cause { HasCause self.old.faults self.new.faults result }
        ensures fails { IsErr result ↔ (Contains self.old.failing.items self.old.calls ⊎ IsStuck (length piece.now) self.old.most self.old.room (length self.old.taken.items)) }
        ensures greatest { IfOk result (λ n. n ≡ min (min (length piece.now) self.old.most) (self.old.room - length self.old.taken.items)) }
        ensures calls { self.new.calls ≡ min (self.old.calls + 1) (2 ^ 64 - 1) }
        ensures plan { (self.new.failing ≡ self.old.failing) × (self.new.most ≡ self.old.most) × (self.new.room ≡ self.old.room) }
    {
        let call = self.calls;
        self.calls = call.saturating_add(1);
        let count = piece.len().min(self.most).min(self.room - self.taken.len());
        if self.failing.contains(&call) {
            return Err(count_fault(&mut self.faults));
        }
        if count == 0 && !piece.is_empty() {
            return Err(count_fault(&mut self.faults));
        }
        match self.taken.extend_from_slice(&piece[..count]) {
            Ok(()) => Ok(count),
            Err(_) => Err(count_fault(&mut self.faults)),
        }
    }
}
