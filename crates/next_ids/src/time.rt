//! Times, which have a moment and the number of a step.
ghost use Rattle.std.specs.Prelude.{◌≡◌};
ghost use Rattle.next_ids.specs.Times.{later};

/// A time: a moment of the clock that a step was made at, and the number of the step that the time was taken from, 0
/// before the first. Times are ordered by their moments, and at one moment by their numbers. Clocks may differ and go
/// back.
#[derive(Clone, Copy, Debug, PartialEq, Eq, PartialOrd, Ord)]
pub struct Ts {
    pub moment: u64,
    pub number: u64,
}

/// The later of two times.
pub fn later(a: Ts, b: Ts) -> Ts
    ensures { result ≡ later a b }
{
    if a.moment < b.moment || (a.moment == b.moment && a.number < b.number) {
        b
    } else {
        a
    }
}

/// The number of the step that the time was taken from.
pub fn number_of(t: Ts) -> u64
    ensures { result ≡ t.number }
{
    t.number
}
