//! Times, which are numbers of steps.
ghost use Rattle.std.specs.Prelude.{◌≡◌, max};

/// A time: the number of the step that it was taken from, 0 before the first.
pub type Ts = u64;

/// The later of two times.
pub fn later(a: Ts, b: Ts) -> Ts
    ensures { result ≡ max a b }
{
    a.max(b)
}

/// The number of the step that the time was taken from.
pub fn number_of(t: Ts) -> u64
    ensures { result ≡ t }
{
    t
}
