//! What a call tells of a line.
ghost use Rattle.std.specs.Prelude.{◌≡◌, ◌++◌, ℕ, List, OnOk};
ghost use Rattle.next_io.specs.declared.line_got.LineFault.TheVariants.{Read as ReadFault, NoMemory as MemoryFault};
ghost use Rattle.next_io.specs.Lines.{line_got, so_far};

use crate::text_line::{MOST_LINE_BYTES, TextLine};
use crate::traits::Failed;
use next_ids::NoMemory;
use std::alloc::Global;

/// What stands at a place in a text.
#[derive(Debug, Drop)]
pub enum LineGot {
    /// A line of at most 4,096 bytes.
    Line(TextLine),
    /// A line of more bytes.
    TooLong,
    /// A line that goes past the limit on the bytes of the text.
    PastLimit,
    /// No line: the text has ended.
    End,
}

/// Why a line was not read.
#[derive(Clone, Copy, Debug, PartialEq, Eq)]
pub enum LineFault {
    /// A read failed.
    Read,
    /// No memory was left for the line.
    NoMemory,
}

impl From<Failed> for LineFault {
    ghost from_gives = { λ _ fault. fault ≡ ReadFault };

    fn from(_: Failed) -> LineFault {
        LineFault::Read
    }
}

impl From<NoMemory> for LineFault {
    ghost from_gives = { λ _ fault. fault ≡ MemoryFault };

    fn from(_: NoMemory) -> LineFault {
        LineFault::NoMemory
    }
}

impl LineGot {
    // Puts a piece behind the line so far.
    pub(crate) fn add(&mut self, alloc: Global, piece: &[u8]) -> Result<(), NoMemory>
        ensures { OnOk result ((seen : List ℕ) → self.old ≡ so_far seen → self.new ≡ line_got (seen ++ piece.now)) }
    {
        if let LineGot::End = self {
            *self = LineGot::Line(TextLine::new(alloc));
        }
        if let LineGot::Line(line) = self {
            if line.len() + piece.len() > MOST_LINE_BYTES {
                *self = LineGot::TooLong;
            } else {
                line.add(piece)?;
            }
        }
        Ok(())
    }
}
