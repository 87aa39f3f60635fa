//! What a step is told by: its stamp, and the time that its call takes from it.
ghost use Rattle.std.specs.Prelude.{◌≡◌};
ghost use Rattle.next_steps.specs.Asks.{ts_of};
ghost use Rattle.next_steps.specs.Ends.{stamp_of, is_stamp};

use next_ids::{PlaceNo, Stamp, Ts};
use next_steps::{Ask, Entry};

/// The stamp of a step of the place.
pub fn stamp_of(place: PlaceNo, entry: &Entry) -> Stamp
    ensures { result ≡ stamp_of place entry.now }
{
    Stamp {
        number: entry.number,
        place,
    }
}

/// Whether the two stamps are one.
pub fn is_stamp(a: Stamp, b: Stamp) -> bool
    ensures { result ≡ is_stamp a b }
{
    a.number == b.number && a.place.0 == b.place.0
}

/// The time that a call takes from a step, and keeps: that of a put is the moment and the number of the step, that of
/// another ask stands in the ask. An ask without a time gives the time before the first step.
pub fn ts_of(entry: &Entry) -> Ts
    ensures { result ≡ ts_of entry.now }
{
    match &entry.ask {
        Ask::Put { .. } | Ask::PutDir { .. } => Ts {
            moment: entry.moment,
            number: entry.number,
        },
        Ask::Insert { ts, .. }
        | Ask::Delete { ts, .. }
        | Ask::Swap { ts, .. }
        | Ask::Mark { ts, .. }
        | Ask::Submit { ts, .. }
        | Ask::SetSize { ts, .. } => *ts,
        _ => Ts {
            moment: 0,
            number: 0,
        },
    }
}
