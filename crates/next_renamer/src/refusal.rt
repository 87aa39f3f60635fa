//! A job that is refused.
ghost use Rattle.std.specs.Prelude.{◌≡◌};
ghost use Rattle.next_ids.specs.declared.call.Reply.TheVariants.{Refused};
ghost use Rattle.next_steps.specs.Jobs.{released};
ghost use Rattle.next_renamer.specs.Holds.{holds_of};
ghost use Rattle.next_renamer.specs.Stages.{phase_at};

use crate::hold::Held;
use crate::stage::Stage;
use next_ids::{At, Errno, Reply};

/// The stage that releases the first of these locks, or else replies.
pub fn released(held: Held, errno: Errno, at: At) -> Stage
    ensures { (t : _) → phase_at t result ≡ released t (holds_of held) (Refused errno) at }
{
    match held.split() {
        Some((hold, rest)) => Stage::Releasing {
            hold,
            rest,
            errno,
            at,
        },
        None => Stage::Replying {
            reply: Reply::Refused(errno),
            at,
        },
    }
}
