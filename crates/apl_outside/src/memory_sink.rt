//! A sink in memory.

ghost use Rattle.std.specs.Prelude.{◌≡◌, ◌-◌, ◌<◌, ◌≤◌, ◌↔◌, ◌⊎◌, ◌++◌, [], Some, length, take, min, IsErr, IfOk, OnErr, Contains};
ghost use Rattle.apl_outside.specs.Bytes.{Gains};
ghost use Rattle.apl_outside.specs.Faults.{Rose, one_more};

use crate::sinks::Sink;
use crate::sources::Failed;
use apl_base::NoMemory;
use std::alloc::Global;
use std::marker::Model;

/// A sink in memory with room for so many bytes, whose calls fail as told. The number of a call and the count of
/// faults stand still at `u64::MAX`.
#[derive(Drop)]
pub struct MemSink {
    bytes: Vec<u8>,
    room: usize,
    most: usize,
    failing: Vec<u64>,
    calls: u64,
    faults: u64,
}

impl Model for MemSink {
    ghost use Rattle.std.specs.Prelude.{◌<◌, ◌≤◌, vec_len, vec_capacity};
    ghost use Rattle.apl_outside.specs.Memory.{SinkState};

    ghost Value = { SinkState };

    ghost view = { λ s. record { written = s.bytes.items; room = s.room; most = s.most; failing = s.failing.items; calls = s.calls; faults = s.faults } };

    ghost invariant = { λ s. (vec_len s.bytes ≤ s.room) × (s.room ≤ vec_capacity s.bytes) × (0 < s.most) };
}

impl MemSink {
    /// An empty sink with room for `room` bytes, which is taken at once. A push takes at most `most` bytes, and
    /// fails where its number, from 1, is in `failing`, or where the room is full.
    pub fn new(
        alloc: Global,
        room: usize,
        most: usize,
        failing: Vec<u64>,
    ) -> Result<MemSink, NoMemory>
        requires { 0 < most }
        ensures { IfOk result (λ s. s
            ≡ record { written = []; room = room; most = most; failing = failing.items; calls = 0; faults = 0 }) }
    {
        let Ok(bytes) = Vec::with_capacity(alloc, room) else {
            return Err(NoMemory);
        };
        Ok(MemSink {
            bytes,
            room,
            most,
            failing,
            calls: 0,
            faults: 0,
        })
    }

    /// The bytes that it was given.
    pub fn bytes(&self) -> &[u8]
        ensures { result.now ≡ self.now.written }
    {
        self.bytes.as_slice()
    }
}

impl Sink for MemSink {
    ghost written = { λ s. Some s.written };

    ghost faults = { λ s. s.faults };

    /// Takes as many bytes as one call does, where it has room and this call is none of the failing ones.
    fn push(&mut self, piece: &[u8]) -> Result<usize, Failed>
        requires { 0 < length piece.now }
        ensures some { IfOk result (λ n. 0 < n) }
        ensures bound { IfOk result (λ n. n ≤ length piece.now) }
        ensures added { IfOk result
            (λ n. Gains (Some self.old.written) (Some self.new.written) (take n piece.now)) }

        ensures failed { OnErr result (Rose self.old.faults self.new.faults) }
        ensures unchanged { OnErr result (self.new.written ≡ self.old.written) }
        ensures never_falls { self.old.faults ≤ self.new.faults }

        // When a call fails, how much one takes, and all that it changes.
        ensures fails { IsErr result
            ↔ (Contains self.old.failing (one_more self.old.calls)
            ⊎ (length self.old.written ≡ self.old.room)) }
        ensures amount { IfOk result (λ n. n
            ≡ min self.old.most (min (length piece.now) (self.old.room - length self.old.written))) }
        ensures ok { IfOk result (λ n. self.new
            ≡ record self.old { written = self.old.written ++ take n piece.now; calls = one_more self.old.calls }) }
        ensures err { OnErr result (self.new
            ≡ record self.old { calls = one_more self.old.calls; faults = one_more self.old.faults }) }
    {
        self.calls = self.calls.saturating_add(1);
        let free = self.room - self.bytes.len();
        if free == 0 || self.failing.contains(&self.calls) {
            self.faults = self.faults.saturating_add(1);
            return Err(Failed);
        }
        let count = self.most.min(piece.len().min(free));
        self.bytes.extend_from_slice(&piece[..count]).unwrap();
        Ok(count)
    }
}
