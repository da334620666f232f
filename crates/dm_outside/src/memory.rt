ghost use Rattle.std.specs.Prelude.{◌≡◌, ◌+◌, ◌-◌, ◌<◌, ◌≤◌, ◌↔◌, ◌⊎◌, ◌++◌, nat_eq, Some, [], length, take, drop, min, IsTrue, IsErr, IfOk, MatchResult};
ghost use Rattle.std.specs.List.{list_any};
ghost use Rattle.std.specs.Vec.{vec_capacity};
ghost use Rattle.std.specs.Io.{ReadsAtMost, WritesAtMost};
ghost use Rattle.std.specs.Io.KnownBytes.{ReadConsumes, WriteAppends};
ghost use Rattle.dm_outside.specs.States.{is_due, moved, read_failed, took, write_failed};
ghost use Rattle.dm_outside.specs.Causes.{HasCause};

use super::outside::{Failed, Sink, Source};
use std::alloc::{AllocError, Global};
use std::marker::Model;

/// Bytes in memory, whose reads fail at listed calls.
#[derive(Debug, Drop)]
pub struct MemSource {
    bytes: Vec<u8>,
    at: usize,
    most: usize,
    failing: Vec<u32>,
    calls: u64,
    faults: u64,
}

impl Model for MemSource {
    ghost use Rattle.std.specs.Prelude.{◌≤◌, length, drop};
    ghost use Rattle.dm_outside.specs.States.{SourceState};

    ghost Value = { SourceState };

    ghost view = { λ s. record { left = drop s.at s.bytes.items; most = s.most; failing = s.failing.items; calls = s.calls; faults = s.faults } };

    ghost invariant = { λ s. (s.at ≤ length s.bytes.items) × (1 ≤ s.most) };
}

fn is_listed(failing: &[u32], call: u64) -> bool
    ensures { result ≡ list_any (nat_eq call) failing.now }
{
    failing.iter().any(|f| call == *f as u64)
}

/// Copies as much of the front as goes into the buffer, and at most so many bytes.
fn copy_front(bytes: &[u8], most: usize, buf: &mut [u8]) -> usize
    requires { 1 ≤ most }
    ensures count { result ≡ min (min most (length buf.old)) (length bytes.now) }
    ensures copied { buf.new ≡ take result bytes.now ++ drop result buf.old }
    ensures split { bytes.now ≡ take result buf.new ++ drop result bytes.now }
    ensures end { result ≡ 0 → 0 < length buf.new → drop result bytes.now ≡ [] }
{
    let count = most.min(buf.len()).min(bytes.len());
    buf[..count].copy_from_slice(&bytes[..count]);
    count
}

impl MemSource {
    /// A source of these bytes. A read gives `most` bytes at the most; it fails where its number, counted from 1, is in `failing`.
    pub fn new(bytes: Vec<u8>, most: usize, failing: Vec<u32>) -> MemSource
        requires { 1 ≤ most }
        ensures { result ≡ record { left = bytes.items; most = most; failing = failing.items; calls = 0; faults = 0 } }
    {
        MemSource {
            bytes,
            at: 0,
            most,
            failing,
            calls: 0,
            faults: 0,
        }
    }
}

impl Source for MemSource {
    ghost left = { λ s. Some s.left };

    ghost faults = { λ s. s.faults };

    fn read(&mut self, buf: &mut [u8]) -> Result<usize, Failed>
        ensures bound { ReadsAtMost result buf.new }
        ensures bytes { ReadConsumes (Some self.old.left) (Some self.new.left) result buf.new }
        ensures cause { HasCause self.old.faults self.new.faults result }
        ensures fails { IsErr result ↔ IsTrue (is_due self.old.failing self.old.calls) }
        ensures state { MatchResult result (λ n. self.new ≡ moved self.old n) (λ _. self.new ≡ read_failed self.old) }
        ensures count { IfOk result (λ n. n ≡ min (min self.old.most (length buf.old)) (length self.old.left)) }
        ensures given { MatchResult result (λ n. buf.new ≡ take n self.old.left ++ drop n buf.old) (λ _. buf.new ≡ buf.old) }
    {
        self.calls = self.calls.saturating_add(1);
        if is_listed(self.failing.as_slice(), self.calls) {
            self.faults = self.faults.saturating_add(1);
            return Err(Failed);
        }
        let count = copy_front(&self.bytes[self.at..], self.most, buf);
        self.at += count;
        Ok(count)
    }
}

/// Room in memory, whose writes fail at listed calls.
#[derive(Debug, Drop)]
pub struct MemSink {
    taken: Vec<u8>,
    room: usize,
    most: usize,
    failing: Vec<u32>,
    calls: u64,
    faults: u64,
}

impl Model for MemSink {
    ghost use Rattle.std.specs.Prelude.{◌≤◌, length};
    ghost use Rattle.std.specs.Vec.{vec_capacity};
    ghost use Rattle.dm_outside.specs.States.{SinkState};

    ghost Value = { SinkState };

    ghost view = { λ s. record { written = s.taken.items; room = s.room; most = s.most; failing = s.failing.items; calls = s.calls; faults = s.faults } };

    ghost invariant = { λ s. (length s.taken.items ≤ s.room) × (s.room ≤ vec_capacity s.taken) × (1 ≤ s.most) };
}

impl MemSink {
    /// A sink with room for so many bytes, all of which it takes now. A write takes `most` bytes at the most; it fails where its
    /// number, counted from 1, is in `failing`, and where the room is full and the piece isn't empty.
    pub fn new(
        alloc: Global,
        room: usize,
        most: usize,
        failing: Vec<u32>,
    ) -> Result<MemSink, AllocError>
        requires { 1 ≤ most }
        ensures { IfOk result (λ s. s ≡ record { written = []; room = room; most = most; failing = failing.items; calls = 0; faults = 0 }) }
    {
        let taken = Vec::with_capacity(alloc, room)?;
        Ok(MemSink {
            taken,
            room,
            most,
            failing,
            calls: 0,
            faults: 0,
        })
    }

    fn is_full(&self, piece: &[u8]) -> bool
        ensures { IsTrue result ↔ ((length self.now.written ≡ self.now.room) × (0 < length piece.now)) }
    {
        self.taken.len() == self.room && !piece.is_empty()
    }

    /// The bytes taken so far.
    pub fn written(&self) -> &[u8]
        ensures { result.now ≡ self.now.written }
    {
        self.taken.as_slice()
    }
}

impl Sink for MemSink {
    ghost written = { λ s. Some s.written };

    ghost faults = { λ s. s.faults };

    fn write(&mut self, piece: &[u8]) -> Result<usize, Failed>
        ensures bound { WritesAtMost result piece.now }
        ensures bytes { WriteAppends (Some self.old.written) (Some self.new.written) result piece.now }
        ensures some { IfOk result (λ n. 0 < length piece.now → 0 < n) }
        ensures cause { HasCause self.old.faults self.new.faults result }
        ensures fails { IsErr result ↔ (IsTrue (is_due self.old.failing self.old.calls) ⊎ ((length self.old.written ≡ self.old.room) × (0 < length piece.now))) }
        ensures state { MatchResult result (λ n. self.new ≡ took self.old (take n piece.now)) (λ _. self.new ≡ write_failed self.old) }
        ensures count { IfOk result (λ n. n ≡ min (min self.old.most (length piece.now)) (self.old.room - length self.old.written)) }
    {
        let full = self.is_full(piece);
        self.calls = self.calls.saturating_add(1);
        if full {
            self.faults = self.faults.saturating_add(1);
            return Err(Failed);
        }
        if is_listed(self.failing.as_slice(), self.calls) {
            self.faults = self.faults.saturating_add(1);
            return Err(Failed);
        }
        let free = self.room - self.taken.len();
        let count = self.most.min(piece.len()).min(free);
        match self.taken.extend_from_slice(&piece[..count]) {
            Ok(()) => Ok(count),
            Err(_) => unreachable!(),
        }
    }
}
