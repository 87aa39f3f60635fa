//! Reading a source line by line.
ghost use Rattle.std.specs.Prelude.{◌≡◌, ◌≢◌, ◌≤◌, ◌<◌, ◌+◌, ◌^◌, ℕ, List, [], length, Some, Err, true, false, IsOk, IfOk, OnErr, IsErrOf};
ghost use Rattle.std.specs.Io.KnownBytes.{IsAtEnd};
ghost use Rattle.std.proofs.Props.{props};
ghost use Rattle.next_io.specs.Causes.{Rose};
ghost use Rattle.next_io.specs.Ends.{TellsEndOnce, IsAtEnd-prop};
ghost use Rattle.next_io.specs.Lines.{is_last, HasByte, GoesInto, TellsLine, TellsFirst};

use crate::ahead::Ahead;
use crate::line_got::{LineFault, LineGot};
use crate::line_part::read_line;
use crate::traits::Source;
use next_ids::NoMemory;
use std::alloc::Global;

/// Reads a source line by line, under a limit on its bytes. It reads at most one byte past the limit, and nothing
/// behind the end of input, which is told once at most.
#[derive(Drop)]
pub struct LineReader<'a, S: Source> {
    alloc: Global,
    source: &'a mut S,
    ahead: Ahead,
    told: u64,
    ended: bool,
    ghost small: { told + ahead.room < 2 ^ 63 },
    ghost at_end: { ahead.ended ≡ true → IsAtEnd (S.left source.now) } by { Prim.hlevel (props, IsAtEnd-prop) },
}

impl<'a, S: Source> LineReader<'a, S> {
    ghost use Rattle.next_io.specs.Unread.{unread};

    /// A reader of the lines of what the source has left, under a limit of `most` bytes, a number below 2^63. It takes
    /// no memory, so the Err never comes; memory is taken for the lines.
    pub fn new(alloc: Global, source: &'a mut S, most: u64) -> Result<LineReader<'a, S>, NoMemory>
        requires { most < 2 ^ 63 }
        ensures ok { IsOk result }
        ensures same_source { IfOk result (λ reader. reader.source.ghost_name ≡ source.entry.ghost_name) }
        ensures source_kept { IfOk result (λ reader. reader.source.now ≡ source.old) }
        ensures start { IfOk result (λ reader. (reader.ahead ≡ record { bytes = []; room = most; ended = false }) × (reader.told ≡ 0) × (reader.ended ≡ false)) }
    {
        Ok(LineReader {
            alloc,
            source,
            ahead: Ahead::new(most),
            told: 0,
            ended: false,
        })
    }

    /// The number of the next line, from 1, and what stands there. `PastLimit` comes exactly where the line goes past
    /// the limit, its LF counted, and else `TooLong` exactly where it has over 4,096 bytes, its LF not counted; its
    /// rest is passed over. `End` comes exactly at the end of input, under the number of the lines plus 1. `Read`
    /// comes exactly where a read failed, and `NoMemory` where no memory was left for a line. Behind a line and behind
    /// `TooLong` there may be more; behind anything else this call is not made again.
    pub fn next_line(&mut self) -> Result<(u64, LineGot), LineFault>
        requires { self.old.ended ≡ false }
        ensures same_source { self.new.source.ghost_name ≡ self.old.source.ghost_name }
        ensures number { IfOk result (λ answer. answer.0 ≡ self.old.told + 1) }
        ensures line { IfOk result (λ answer. TellsLine self.old.ahead.room self.new.ahead.room (unread self.old) (unread self.new) answer.1) }
        ensures told { (text : List ℕ) → unread self.old ≡ Some text → IfOk result (λ answer. TellsFirst self.old.ahead.room text (unread self.new) answer.1) }
        ensures more { IfOk result (λ answer. (self.new.ended ≡ is_last answer.1) × (is_last answer.1 ≡ false → self.new.told ≡ answer.0)) }
        ensures shorter { IfOk result (λ answer. is_last answer.1 ≡ false → self.new.ahead.room < self.old.ahead.room) }
        ensures bound { length self.new.ahead.bytes ≤ self.new.ahead.room + 1 }
        ensures last { IfOk result (λ answer. is_last answer.1 ≡ true → self.new.ahead.bytes ≡ []) }
        ensures err { OnErr result (GoesInto self.old.ahead.room self.new.ahead.room (unread self.old) (unread self.new)) }
        ensures ended { OnErr result (self.new.ended ≡ true) }
        ensures later { S.faults self.old.source.now ≤ S.faults self.new.source.now }
        ensures read_fault { IsErrOf result LineFault.Read → Rose (S.faults self.old.source.now) (S.faults self.new.source.now) }
        ensures no_fault { result ≢ Err LineFault.Read → S.faults self.new.source.now ≡ S.faults self.old.source.now }
        ensures no_memory { IsErrOf result LineFault.NoMemory → HasByte (unread self.old) }
        ensures ends { TellsEndOnce self.old.ahead.ended self.new.ahead.ended (S.ends self.old.source.now) (S.ends self.new.source.now) }
    {
        self.ended = true;
        let got = read_line(self.alloc, self.source, &mut self.ahead)?;
        let number = self.told + 1;
        if let LineGot::Line(_) | LineGot::TooLong = got {
            self.told = number;
            self.ended = false;
        }
        Ok((number, got))
    }
}
