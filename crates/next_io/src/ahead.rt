//! Bytes that were read ahead of a line's end.
ghost use Rattle.std.specs.Prelude.{◌≡◌, ◌≤◌, ◌<◌, ◌-◌, ◌+◌, ◌^◌, [], take, drop, length, true, false, IfOk, OnOk, OnErr};
ghost use Rattle.std.specs.Io.KnownBytes.{Consumes, IsAtEnd, Keeps, prepend_known};
ghost use Rattle.next_io.specs.Causes.{HasCause};
ghost use Rattle.next_io.specs.Ends.{ends_after, TellsEndOnce};

use crate::pieces::PIECE;
use crate::traits::{Failed, Source};
use std::marker::Model;

/// The bytes that were read and not yet taken, how many bytes the limit leaves, counted from the first of them, and
/// whether the end of input was told. At most one byte past the limit is read, and nothing behind the end.
#[derive(Drop)]
pub struct Ahead {
    piece: [u8; PIECE],
    at: usize,
    end: usize,
    room: u64,
    ended: bool,
}

// Reads at most `room` bytes into the front of a piece, and says how many. `Ok(0)` is the end of input.
fn read_front<S: Source>(source: &mut S, piece: &mut [u8], room: usize) -> Result<usize, Failed>
    requires some { 0 < room }
    requires fits { room ≤ length piece.old }
    ensures bound { IfOk result (λ count. count ≤ room) }
    ensures read { IfOk result (λ count. Consumes (S.left source.old) (S.left source.new) (take count piece.new)) }
    ensures end { IfOk result (λ count. count ≡ 0 → IsAtEnd (S.left source.new)) }
    ensures kept { OnErr result (Keeps (S.left source.old) (S.left source.new)) }
    ensures cause { HasCause (S.faults source.old) (S.faults source.new) result }
    ensures ends { S.ends source.new ≡ ends_after (S.ends source.old) result }
{
    source.read(&mut piece[..room])
}

impl Model for Ahead {
    ghost use Rattle.next_io.specs.Ahead.{ReadAhead};

    ghost Value = { ReadAhead };

    ghost use Rattle.next_io.specs.AheadFields.{read_ahead, IsWithin};

    ghost view = { read_ahead };

    ghost invariant = { IsWithin };
}

impl Ahead {
    /// Nothing read yet, under a limit of `most` bytes.
    pub fn new(most: u64) -> Ahead
        requires { most < 2 ^ 63 }
        ensures { result ≡ record { bytes = []; room = most; ended = false } }
    {
        Ahead {
            piece: [0; PIECE],
            at: 0,
            end: 0,
            room: most,
            ended: false,
        }
    }

    /// How many bytes the limit leaves.
    pub fn room(&self) -> u64
        ensures room { result ≡ self.now.room }
        ensures small { result < 2 ^ 63 }
        ensures bound { length self.now.bytes ≤ result + 1 }
    {
        self.room
    }

    /// What is left of what was read.
    pub fn bytes(&self) -> &[u8]
        ensures bytes { result.now ≡ self.now.bytes }
        ensures bound { length result.now ≤ 4096 }
    {
        &self.piece[self.at..self.end]
    }

    /// Takes the first bytes away.
    pub fn skip(&mut self, count: usize)
        requires { count ≤ length self.old.bytes }
        ensures { self.new ≡ record self.old { bytes = drop count self.old.bytes; room = self.old.room - count } }
    {
        self.at += count;
        self.room = self.room.saturating_sub(count as u64);
    }

    /// Whether a byte is left, read ahead or in the source. Where nothing is left of what was read, it reads a piece,
    /// unless the end was told.
    pub fn has_more<S: Source>(&mut self, source: &mut S) -> Result<bool, Failed>
        requires { self.old.ended ≡ true → IsAtEnd (S.left source.old) }
        ensures room { self.new.room ≡ self.old.room }
        ensures bound { length self.new.bytes ≤ self.new.room + 1 }
        ensures kept { Keeps (prepend_known self.old.bytes (S.left source.old)) (prepend_known self.new.bytes (S.left source.new)) }
        ensures more { IfOk result (λ more. more ≡ true → 0 < length self.new.bytes) }
        ensures end { IfOk result (λ more. more ≡ false → (self.new.bytes ≡ []) × IsAtEnd (S.left source.new)) }
        ensures cause { HasCause (S.faults source.old) (S.faults source.new) result }
        ensures ends { TellsEndOnce self.old.ended self.new.ended (S.ends source.old) (S.ends source.new) }
        ensures ended { self.new.ended ≡ true → IsAtEnd (S.left source.new) }
    {
        if self.at < self.end {
            return Ok(true);
        }
        if self.ended {
            return Ok(false);
        }
        self.fill(source)?;
        Ok(self.at < self.end)
    }

    // Reads a piece where nothing is left of what was read.
    fn fill<S: Source>(&mut self, source: &mut S) -> Result<(), Failed>
        requires none { self.old.bytes ≡ [] }
        requires open { self.old.ended ≡ false }
        ensures room { self.new.room ≡ self.old.room }
        ensures read { OnOk result (Consumes (S.left source.old) (S.left source.new) self.new.bytes) }
        ensures end { OnOk result (self.new.bytes ≡ [] → IsAtEnd (S.left source.new)) }
        ensures kept { OnErr result (self.new.bytes ≡ []) }
        ensures source_kept { OnErr result (Keeps (S.left source.old) (S.left source.new)) }
        ensures cause { HasCause (S.faults source.old) (S.faults source.new) result }
        ensures ends { TellsEndOnce false self.new.ended (S.ends source.old) (S.ends source.new) }
        ensures ended { self.new.ended ≡ true → IsAtEnd (S.left source.new) }
    {
        let room = PIECE.min(self.room as usize + 1);
        self.at = 0;
        self.end = 0;
        self.end = read_front(source, &mut self.piece, room)?;
        self.ended = self.end == 0;
        Ok(())
    }
}
