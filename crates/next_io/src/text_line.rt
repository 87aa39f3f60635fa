//! A line of a text.
ghost use Rattle.std.specs.Prelude.{◌≡◌, ◌≤◌, ◌+◌, ◌++◌, [], List, ℕ, length, OnOk, OnErr, slice_get};
ghost use Rattle.std.specs.Option.{option_copied};

use next_ids::NoMemory;
use std::alloc::Global;
use std::marker::Model;

/// The most bytes of a line, its LF not counted.
pub const MOST_LINE_BYTES: usize = 4096;

/// A line without its LF: at most 4,096 bytes.
#[derive(Debug, Drop)]
pub struct TextLine {
    bytes: Vec<u8>,
}

impl Model for TextLine {
    ghost use Rattle.std.specs.Prelude.{List, ℕ, ◌≤◌, length};

    ghost Value = { List ℕ };

    ghost view = { λ line. line.bytes.items };

    ghost invariant = { λ line. length line.bytes.items ≤ 4096 };
}

impl TextLine {
    // The empty line.
    pub(crate) fn new(alloc: Global) -> TextLine
        ensures { result ≡ [] }
    {
        TextLine {
            bytes: Vec::new(alloc),
        }
    }

    // Puts the bytes behind the line. The Err is want of memory.
    pub(crate) fn add(&mut self, piece: &[u8]) -> Result<(), NoMemory>
        requires { length self.old + length piece.now ≤ 4096 }
        ensures ok { OnOk result (self.new ≡ self.old ++ piece.now) }
        ensures err { OnErr result (self.new ≡ self.old) }
    {
        self.bytes.extend_from_slice(piece)?;
        Ok(())
    }

    /// How many bytes it has, at most 4,096.
    pub fn len(&self) -> usize
        ensures len { result ≡ length self.now }
        ensures bound { length self.now ≤ 4096 }
    {
        self.bytes.len()
    }

    /// The byte at the index. None comes exactly where the line ends before it.
    pub fn get(&self, index: usize) -> Option<u8>
        ensures { result ≡ slice_get self.now index }
    {
        self.bytes.get(index).copied()
    }

    /// The bytes.
    pub fn as_slice(&self) -> &[u8]
        ensures bytes { result.now ≡ self.now }
        ensures bound { length result.now ≤ 4096 }
    {
        self.bytes.as_slice()
    }
}
