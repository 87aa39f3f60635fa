//! Values that have a log.
ghost use Rattle.std.specs.Prelude.{◌≡◌, ℕ, List, length};

/// An entry of a log, which knows the number of its maker.
pub trait Item {
    /// The number of its maker.
    ghost maker: { Self → ℕ };

    /// The number of its maker.
    fn by(&self) -> u32
        ensures { result ≡ maker self.now };
}

/// A value with a log, and with a fixed part that no step changes.
pub trait Logged: Drop {
    type Entry: Item;

    /// The log, the oldest entry first.
    ghost log: { Self → List Self.Entry };

    /// What the fixed part is: plain data.
    ghost Fixed: { Type 0 };

    ghost fixed: { Self → Fixed };

    /// The number of the last step.
    ghost latest: { Self → ℕ };

    /// How many entries the log has.
    fn count(&self) -> usize
        ensures { result ≡ length (log self.now) };

    /// The number of the last step.
    fn last(&self) -> u64
        ensures { result ≡ latest self.now };
}
