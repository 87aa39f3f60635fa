//! Devices in memory that never fail.
ghost use Rattle.std.specs.Prelude.{◌≡◌, ◌≤◌, ◌+◌, ◌-◌, ◌^◌, min, length, Some, None, Ok, drop, vec_len};
ghost use Rattle.next_io.specs.Causes.{HasCause};

use crate::pieces::{ends_with, move_piece};
use crate::traits::{Failed, Sink, Source};

/// Bytes in memory.
#[derive(Drop)]
pub struct SureSource {
    bytes: Vec<u8>,
    at: usize,
    ends: u64,
    ghost within: { at ≤ vec_len bytes },
}

impl SureSource {
    /// A source of these bytes.
    pub fn new(bytes: Vec<u8>) -> SureSource
        ensures left { ⟦<SureSource as Source>⟧.left result ≡ Some bytes.items }
        ensures ends { ⟦<SureSource as Source>⟧.ends result ≡ 0 }
    {
        SureSource {
            bytes,
            at: 0,
            ends: 0,
        }
    }
}

impl Source for SureSource {
    ghost left = { λ s. Some (drop s.at s.bytes.items) };

    ghost faults = { λ _. 0 };

    ghost ends = { λ s. s.ends };

    fn read(&mut self, buf: &mut [u8]) -> Result<usize, Failed> {
        let count = move_piece(&self.bytes[self.at..], usize::MAX, buf);
        self.ends = ends_with(self.ends, count);
        self.at += count;
        Ok(count)
    }
}

/// Counts the bytes that it takes, and doesn't tell them. The count stays at the greatest u64 once it is there.
#[derive(Default, Drop)]
pub struct SureSink {
    count: u64,
}

impl SureSink {
    /// A sink that has taken nothing.
    pub fn new() -> SureSink
        ensures { result.count ≡ 0 }
    {
        SureSink { count: 0 }
    }

    /// How many bytes it has taken, or the greatest u64.
    pub fn count(&self) -> u64
        ensures { result ≡ self.now.count }
    {
        self.count
    }
}

impl Sink for SureSink {
    ghost taken = { λ _. None };

    ghost faults = { λ _. 0 };

    fn write(&mut self, bytes: &[u8]) -> Result<usize, Failed>
        ensures all { result ≡ Ok (length bytes.now) }
        ensures count { self.new.count ≡ min (self.old.count + length bytes.now) (2 ^ 64 - 1) }
    {
        self.count = self.count.saturating_add(bytes.len() as u64);
        Ok(bytes.len())
    }
}
