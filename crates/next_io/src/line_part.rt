//! Going over a line, piece by piece.
ghost use Rattle.std.specs.Prelude.{◌≡◌, ◌≢◌, ◌==◌, ◌≤◌, ◌<◌, ◌+◌, [], length, true, Err, IfOk, OnErr, IsErrOf, position};
ghost use Rattle.std.specs.List.{position_or_len};
ghost use Rattle.std.specs.Io.KnownBytes.{IsAtEnd, prepend_known};
ghost use Rattle.next_io.specs.Causes.{Rose};
ghost use Rattle.next_io.specs.Ends.{TellsEndOnce};
ghost use Rattle.next_io.specs.Lines.{is_last, HasByte, GoesInto, TellsLine};
ghost use Rattle.next_io.specs.Parts.{TakesPart};

use crate::ahead::Ahead;
use crate::line_got::{LineFault, LineGot};
use crate::traits::Source;
use next_ids::NoMemory;
use std::alloc::Global;

/// Why a part of a line ends where it does.
pub enum PartEnd {
    /// The line's LF stands there.
    Line,
    /// The first byte past the limit stands there.
    PastLimit,
    /// No more was read.
    Piece,
}

// Where the first LF stands.
fn line_end(bytes: &[u8]) -> Option<usize>
    ensures { result ≡ position (λ b. b == 10) bytes.now }
{
    bytes.iter().position(|byte| *byte == b'\n')
}

// How many bytes stand before the first LF.
#[tactic(auto, using(crate::proofs::Cutting::cutting))]
fn line_len(bytes: &[u8]) -> usize
    ensures len { result ≡ position_or_len (λ b. b == 10) bytes.now }
    ensures bound { result ≤ length bytes.now }
{
    line_end(bytes).unwrap_or(bytes.len())
}

// Takes the bytes of a line from those that were read ahead, as far as they go, and puts them behind the line so far.
#[tactic(auto, using(crate::proofs::Cutting::cutting))]
fn take_part(alloc: Global, ahead: &mut Ahead, line: &mut LineGot) -> Result<PartEnd, NoMemory>
    requires { 0 < length ahead.old.bytes }
    ensures ok { IfOk result (TakesPart ahead.old ahead.new line.old line.new) }
    ensures ended { ahead.new.ended ≡ ahead.old.ended }
    ensures err { OnErr result (ahead.new ≡ ahead.old) }
{
    let bytes = ahead.bytes();
    let len = line_len(bytes);
    let part = (len + 1).min(bytes.len());
    if part as u64 > ahead.room() {
        ahead.skip(part);
        return Ok(PartEnd::PastLimit);
    }
    line.add(alloc, &bytes[..len])?;
    let end = if len < bytes.len() {
        PartEnd::Line
    } else {
        PartEnd::Piece
    };
    ahead.skip(part);
    Ok(end)
}

/// Goes over the first line of the bytes that are left.
pub fn read_line<S: Source>(
    alloc: Global,
    source: &mut S,
    ahead: &mut Ahead,
) -> Result<LineGot, LineFault>
    requires { ahead.old.ended ≡ true → IsAtEnd (S.left source.old) }
    ensures line { IfOk result (TellsLine ahead.old.room ahead.new.room (prepend_known ahead.old.bytes (S.left source.old)) (prepend_known ahead.new.bytes (S.left source.new))) }
    ensures err { OnErr result (GoesInto ahead.old.room ahead.new.room (prepend_known ahead.old.bytes (S.left source.old)) (prepend_known ahead.new.bytes (S.left source.new))) }
    ensures bound { length ahead.new.bytes ≤ ahead.new.room + 1 }
    ensures last { IfOk result (λ got. is_last got ≡ true → ahead.new.bytes ≡ []) }
    ensures later { S.faults source.old ≤ S.faults source.new }
    ensures read_fault { IsErrOf result LineFault.Read → Rose (S.faults source.old) (S.faults source.new) }
    ensures no_fault { result ≢ Err LineFault.Read → S.faults source.new ≡ S.faults source.old }
    ensures no_memory { IsErrOf result LineFault.NoMemory → HasByte (prepend_known ahead.old.bytes (S.left source.old)) }
    ensures ends { TellsEndOnce ahead.old.ended ahead.new.ended (S.ends source.old) (S.ends source.new) }
    ensures ended { ahead.new.ended ≡ true → IsAtEnd (S.left source.new) }
{
    let mut line = LineGot::End;
    while ahead.has_more(source)? {
        match take_part(alloc, ahead, &mut line)? {
            PartEnd::Line => return Ok(line),
            PartEnd::PastLimit => return Ok(LineGot::PastLimit),
            PartEnd::Piece => {}
        }
    }
    Ok(line)
}
