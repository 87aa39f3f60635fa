//! What a source and a sink promise.
ghost use Rattle.std.specs.Prelude.{◌≡◌, ◌≤◌, ◌<◌, ℕ, List, length, IfOk};
ghost use Rattle.std.specs.declared.option.Option.{Option};
ghost use Rattle.std.specs.Io.{ReadsAtMost};
ghost use Rattle.std.specs.Io.KnownBytes.{ReadConsumes, WriteAppends};
ghost use Rattle.next_io.specs.Causes.{HasCause, TakesSome};
ghost use Rattle.next_io.specs.Ends.{ends_after};

/// A read or a write failed. Nothing was moved.
#[derive(Clone, Copy, Debug, PartialEq, Eq)]
pub struct Failed;

/// Where bytes come from, in their order.
pub trait Source {
    // The bytes that are left, where the source tells them.
    ghost left: { Self → Option (List ℕ) };

    // How often it has failed. At the greatest u64 the count can't rise.
    ghost faults: { Self → ℕ };

    // How often it has told the end of input. At the greatest u64 the count can't rise.
    ghost ends: { Self → ℕ };

    /// Moves the first bytes that are left into `buf`, which isn't empty, and says how many. `Ok(0)` is the end of
    /// input, and raises the count of ends. `Failed` comes where the device failed: nothing was moved, and the count of
    /// faults rose, or stands at the greatest u64. With any other answer a count stays.
    fn read(&mut self, buf: &mut [u8]) -> Result<usize, Failed>
        requires { 0 < length buf.old }
        ensures bound { ReadsAtMost result buf.new }
        ensures bytes { ReadConsumes (left self.old) (left self.new) result buf.new }
        ensures cause { HasCause (faults self.old) (faults self.new) result }
        ensures ends { ends self.new ≡ ends_after (ends self.old) result };
}

/// Where bytes go, in their order.
pub trait Sink {
    // The bytes that were taken, where the sink tells them.
    ghost taken: { Self → Option (List ℕ) };

    // How often it has failed. At the greatest u64 the count can't rise.
    ghost faults: { Self → ℕ };

    /// Takes a front of `bytes`, which isn't empty: at least one byte. It says how many. `Failed` comes where the device
    /// failed or has no room: nothing was taken, and the count of faults rose, or stands at the greatest u64. With any
    /// other answer the count stays.
    fn write(&mut self, bytes: &[u8]) -> Result<usize, Failed>
        requires { 0 < length bytes.now }
        ensures some { TakesSome result bytes.now }
        ensures bytes { WriteAppends (taken self.old) (taken self.new) result bytes.now }
        ensures cause { HasCause (faults self.old) (faults self.new) result };
}
