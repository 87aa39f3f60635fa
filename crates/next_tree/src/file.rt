//! What the namespace says of a file.
ghost use Rattle.std.specs.Prelude.{◌≡◌, IsTrue, ◌↔◌};
ghost use Rattle.next_ids.specs.Times.{later};

use next_ids::{Ts, later};
use std::marker::Model;

/// The size of a file in bytes, and its time.
#[derive(Drop)]
pub struct FileFacts {
    size: u64,
    time: Ts,
}

impl Model for FileFacts {
    ghost use Rattle.next_ids.specs.Namespace.{FileFacts};
    ghost use Rattle.next_tree.specs.Codes.{file_code};

    ghost Value = { FileFacts };

    ghost coded = { file_code };

    ghost view = { λ file. record { size = file.size; time = file.time } };
}

impl FileFacts {
    /// A file of this size and time.
    pub fn new(size: u64, time: Ts) -> FileFacts
        ensures { result ≡ record { size = size; time = time } }
    {
        FileFacts { size, time }
    }

    /// The size in bytes.
    pub fn size(&self) -> u64
        ensures { result ≡ self.now.size }
    {
        self.size
    }

    /// The time.
    pub fn time(&self) -> Ts
        ensures { result ≡ self.now.time }
    {
        self.time
    }

    /// Whether the other file is the same.
    pub fn same(&self, other: &FileFacts) -> bool
        ensures { IsTrue result ↔ (self.now ≡ other.now) }
    {
        self.size == other.size && self.time == other.time
    }

    /// Sets the size, and makes the time no earlier than this.
    pub(crate) fn set_size(&mut self, size: u64, time: Ts)
        ensures { self.new ≡ record { size = size; time = later self.old.time time } }
    {
        self.size = size;
        self.time = later(self.time, time);
    }
}
