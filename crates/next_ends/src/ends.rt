//! How a call ends.
ghost use Rattle.std.specs.Prelude.{◌≡◌, ◌^◌, ◌≤◌};
ghost use Rattle.next_steps.specs.Phases.{Finished};
ghost use Rattle.next_steps.specs.Ends.{replied, told, moved, answered};
ghost use Rattle.next_steps.specs.Readers.{dir_stat};

use next_ids::{At, Call, DirAttr, Node, Reply, Stamp, Ts};
use next_steps::CallDone;

// The time of a call without a move of its own.
const NO_TIME: Ts = Ts {
    moment: 0,
    number: 0,
};

/// The call, ended at the step `last` without a move of its own. Its reply has the point `at`.
pub fn replied(call: Call, first: Stamp, at: At, last: Stamp, reply: Reply) -> CallDone
    ensures { Finished result ≡ replied call first at last reply }
{
    CallDone {
        call,
        first,
        at,
        last,
        reply,
        ts: NO_TIME,
        made: None,
    }
}

/// The call, ended at the step that told its reply, which holds before it.
pub fn told(call: Call, first: Stamp, step: Stamp, reply: Reply) -> CallDone
    ensures { Finished result ≡ told call first step reply }
{
    replied(call, first, At::Before(step), step, reply)
}

/// The call, ended at the step `last` with its move, which was made at the step `at`.
pub fn moved(
    call: Call,
    ts: Ts,
    made: Option<Node>,
    first: Stamp,
    at: Stamp,
    last: Stamp,
) -> CallDone
    ensures { Finished result ≡ moved call ts made first at last }
{
    CallDone {
        call,
        first,
        at: At::Step(at),
        last,
        reply: Reply::Moved,
        ts,
        made,
    }
}

/// The call, ended at the step `last` with the reply of its job and that reply's point. It has its time only where the
/// job moved.
pub fn answered(call: Call, ts: Ts, first: Stamp, last: Stamp, reply: Reply, at: At) -> CallDone
    ensures { Finished result ≡ answered call ts first last reply at }
{
    let ts = match &reply {
        Reply::Moved => ts,
        _ => NO_TIME,
    };
    CallDone {
        call,
        first,
        at,
        last,
        reply,
        ts,
        made: None,
    }
}

/// What a stat of a directory shows: as links 2, and one more for each directory in it (POSIX.1-2017, stat).
pub fn dir_stat(attr: DirAttr) -> Reply
    requires { attr.subdirs ≤ 2 ^ 62 }
    ensures { result ≡ dir_stat attr }
{
    Reply::DirStat {
        children: attr.children,
        links: attr.subdirs + 2,
        time: attr.time,
    }
}
