//! Devices in memory that fail at chosen calls, for tests.
ghost use Rattle.std.specs.Prelude.{◌≡◌, ◌≤◌, ◌<◌, ◌-◌, ◌↔◌, ◌||◌, ◌==◌, if◌then◌else◌, min, Some, None, [], drop, length, vec_len, vec_capacity, IfOk, IsErr, IsTrue};
ghost use Rattle.std.specs.Io.{ReadsAtMost};
ghost use Rattle.std.specs.Io.KnownBytes.{ReadConsumes, WriteAppends};
ghost use Rattle.next_io.specs.Causes.{HasCause, TakesSome, one_more};
ghost use Rattle.next_io.specs.Ends.{ends_after};
ghost use Rattle.next_io.specs.Memory.{is_told};

use crate::pieces::{ends_with, move_piece};
use crate::traits::{Failed, Sink, Source};
use next_ids::NoMemory;
use std::alloc::Global;

/// Bytes in memory, given in pieces. The calls in `fails`, counted from 1, fail.
#[derive(Drop)]
pub struct MemSource {
    bytes: Vec<u8>,
    at: usize,
    piece: usize,
    fails: Vec<u64>,
    calls: u64,
    faults: u64,
    ends: u64,
    ghost within: { at ≤ vec_len bytes },
    ghost gives: { 0 < piece },
}

impl MemSource {
    /// A source of these bytes that gives at most `piece` of them, 1 or more, at a read.
    pub fn new(bytes: Vec<u8>, piece: usize, fails: Vec<u64>) -> MemSource
        requires { 0 < piece }
        ensures left { ⟦<MemSource as Source>⟧.left result ≡ Some bytes.items }
        ensures faults { ⟦<MemSource as Source>⟧.faults result ≡ 0 }
        ensures ends { ⟦<MemSource as Source>⟧.ends result ≡ 0 }
        ensures piece { result.piece ≡ piece }
        ensures fails { result.fails ≡ fails }
        ensures calls { result.calls ≡ 0 }
    {
        MemSource {
            bytes,
            at: 0,
            piece,
            fails,
            calls: 0,
            faults: 0,
            ends: 0,
        }
    }
}

impl Source for MemSource {
    ghost left = { λ s. Some (drop s.at s.bytes.items) };

    ghost faults = { λ s. s.faults };

    ghost ends = { λ s. s.ends };

    fn read(&mut self, buf: &mut [u8]) -> Result<usize, Failed>
        ensures bound { ReadsAtMost result buf.new }
        ensures bytes { ReadConsumes (⟦<MemSource as Source>⟧.left self.old) (⟦<MemSource as Source>⟧.left self.new) result buf.new }
        ensures cause { HasCause self.old.faults self.new.faults result }
        ensures ends { self.new.ends ≡ ends_after self.old.ends result }

        // It fails at the calls that it was told, and at no other.
        ensures fails { IsErr result ↔ IsTrue (is_told self.old.fails.items self.new.calls) }
        ensures faults { self.new.faults ≡ (if is_told self.old.fails.items self.new.calls then one_more self.old.faults else self.old.faults) }
        ensures count { IfOk result (λ count. count ≡ min (min self.old.piece (length buf.old)) (vec_len self.old.bytes - self.old.at)) }
        ensures calls { self.new.calls ≡ one_more self.old.calls }
        ensures same_fails { self.new.fails ≡ self.old.fails }
        ensures same_piece { self.new.piece ≡ self.old.piece }
    {
        self.calls = self.calls.saturating_add(1);
        if self.fails.contains(&self.calls) {
            self.faults = self.faults.saturating_add(1);
            return Err(Failed);
        }
        let count = move_piece(&self.bytes[self.at..], self.piece, buf);
        self.ends = ends_with(self.ends, count);
        self.at += count;
        Ok(count)
    }
}

/// A buffer of a fixed room that takes bytes in pieces. The calls in `fails`, counted from 1, fail, and so does a
/// write that finds no room left.
#[derive(Drop)]
pub struct MemSink {
    bytes: Vec<u8>,
    room: usize,
    piece: usize,
    fails: Vec<u64>,
    calls: u64,
    faults: u64,
    ghost within: { vec_len bytes ≤ room },
    ghost holds: { room ≤ vec_capacity bytes },
    ghost takes: { 0 < piece },
}

impl MemSink {
    /// A sink for at most `room` bytes that takes at most `piece` of them, 1 or more, at a write. The Err is want of
    /// memory.
    pub fn new(
        alloc: Global,
        room: usize,
        piece: usize,
        fails: Vec<u64>,
    ) -> Result<MemSink, NoMemory>
        requires { 0 < piece }
        ensures taken { IfOk result (λ sink. ⟦<MemSink as Sink>⟧.taken sink ≡ Some []) }
        ensures faults { IfOk result (λ sink. ⟦<MemSink as Sink>⟧.faults sink ≡ 0) }
        ensures room { IfOk result (λ sink. sink.room ≡ room) }
        ensures piece { IfOk result (λ sink. sink.piece ≡ piece) }
        ensures fails { IfOk result (λ sink. sink.fails ≡ fails) }
        ensures calls { IfOk result (λ sink. sink.calls ≡ 0) }
    {
        let Ok(bytes) = Vec::with_capacity(alloc, room) else {
            return Err(NoMemory);
        };
        Ok(MemSink {
            bytes,
            room,
            piece,
            fails,
            calls: 0,
            faults: 0,
        })
    }

    // Whether the call under way is to fail.
    fn fails_now(&self) -> bool
        ensures { result ≡ (is_told self.now.fails.items self.now.calls || (vec_len self.now.bytes == self.now.room)) }
    {
        self.fails.contains(&self.calls) || self.bytes.len() == self.room
    }

    /// What the sink has taken.
    pub fn bytes(&self) -> &[u8]
        ensures { ⟦<MemSink as Sink>⟧.taken self.now ≡ Some result.now }
    {
        &self.bytes
    }
}

impl Sink for MemSink {
    ghost taken = { λ s. Some s.bytes.items };

    ghost faults = { λ s. s.faults };

    fn write(&mut self, bytes: &[u8]) -> Result<usize, Failed>
        requires { 0 < length bytes.now }
        ensures some { TakesSome result bytes.now }
        ensures bytes { WriteAppends (⟦<MemSink as Sink>⟧.taken self.old) (⟦<MemSink as Sink>⟧.taken self.new) result bytes.now }
        ensures cause { HasCause self.old.faults self.new.faults result }

        // It fails at the calls that it was told, and where it is full, and at no other.
        ensures fails { IsErr result ↔ IsTrue (is_told self.old.fails.items self.new.calls || (vec_len self.old.bytes == self.old.room)) }
        ensures faults { self.new.faults ≡ (if is_told self.old.fails.items self.new.calls || (vec_len self.old.bytes == self.old.room) then one_more self.old.faults else self.old.faults) }
        ensures count { IfOk result (λ count. count ≡ min (min self.old.piece (length bytes.now)) (self.old.room - vec_len self.old.bytes)) }
        ensures calls { self.new.calls ≡ one_more self.old.calls }
        ensures same_fails { self.new.fails ≡ self.old.fails }
        ensures same_piece { self.new.piece ≡ self.old.piece }
        ensures same_room { self.new.room ≡ self.old.room }
    {
        self.calls = self.calls.saturating_add(1);
        if self.fails_now() {
            self.faults = self.faults.saturating_add(1);
            return Err(Failed);
        }
        let room = self.room - self.bytes.len();
        let count = self.piece.min(bytes.len()).min(room);
        match self.bytes.extend_from_slice(&bytes[..count]) {
            Ok(()) => Ok(count),
            // It doesn't come: the buffer was made with all its room.
            Err(_) => {
                self.faults = self.faults.saturating_add(1);
                Err(Failed)
            }
        }
    }
}
