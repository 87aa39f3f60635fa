//! How far a command has come on its way.
ghost use Rattle.std.specs.Prelude.{◌≡◌, ℕ, OnOk, OnErr, IsOk, None};
ghost use Rattle.next_walk.specs.Stages.{at_aim, after_reply, from_stage};
ghost use Rattle.next_walk.specs.Walks.{Answered, calling, at_entry, then_rename, heard_in, reply_in};

use crate::aim::Aim;
use next_ids::{Call, DirId, Errno, Name, NoMemory, Node, Reply};
use std::collections::VecDeque;
use std::mem;

/// The directory that each path begins in.
pub const ROOT: DirId = DirId(0);

/// What the reply to a call leads to. Each but the first wants a node, and any other reply is the command's.
#[derive(Debug, Drop)]
pub enum Next {
    /// It is the command's reply.
    Answer,
    /// The directory that was found has the next of these names; the aim is at the last of them.
    Entry {
        names: VecDeque<Name>,
        aim: Aim,
    },
    /// The same on the second path of a rename, whose first path ends in this directory and name.
    Target {
        names: VecDeque<Name>,
        dir: DirId,
        name: Name,
    },
    /// The directory that was found is listed.
    List,
    /// The file that was found becomes this many bytes long.
    Truncate(u64),
}

/// Where a command stands.
#[derive(Debug, Drop)]
pub enum Stage {
    /// It makes the call, and up to `left` times more where it is answered Busy.
    Makes { call: Call, left: u32, next: Next },
    /// It makes no more calls, and this is its reply.
    Answered(Reply),
}

// In these functions a call is made again up to `more` times where it is answered Busy.

impl Next {
    // The stage once a look-up has found this node.
    fn at(self, more: u32, node: Node) -> Stage
        ensures { from_stage more result ≡ after_reply more self (Reply.Node node) }
    {
        match (self, node) {
            (Next::Answer, node) => Stage::Answered(Reply::Node(node)),
            (Next::Truncate(size), Node::File(file)) => {
                Stage::last(more, Call::Truncate { file, size })
            }
            (Next::Truncate(_), Node::Dir(_)) => Stage::refused(Errno::Eisdir),
            (_, Node::File(_)) => Stage::refused(Errno::Enotdir),
            (Next::List, Node::Dir(dir)) => Stage::last(more, Call::List { dir }),
            (Next::Entry { names, aim }, Node::Dir(dir)) => to_entry(more, dir, names, aim),
            (Next::Target { names, dir, name }, Node::Dir(to_dir)) => {
                to_target(more, to_dir, names, dir, name)
            }
        }
    }
}

impl Stage {
    /// The last call, whose reply is the command's.
    pub fn last(more: u32, call: Call) -> Stage
        ensures { from_stage more result ≡ calling more call Answered }
    {
        Stage::Makes {
            call,
            left: more,
            next: Next::Answer,
        }
    }

    // A look-up, and what it leads to.
    fn look_up(more: u32, dir: DirId, name: Name, next: Next) -> Stage
        ensures { from_stage more result ≡ calling more (Call.Lookup dir name) (after_reply more next) }
    {
        Stage::Makes {
            call: Call::Lookup { dir, name },
            left: more,
            next,
        }
    }

    /// The command is refused.
    pub fn refused(errno: Errno) -> Stage
        ensures { (more : ℕ) → from_stage more result ≡ Answered (Reply.Refused errno) }
    {
        Stage::Answered(Reply::Refused(errno))
    }

    /// Hears the reply to the call. It takes memory for a copy of the reply alone, where that ends the command.
    pub fn hear(&mut self, more: u32, reply: &Reply) -> Result<(), NoMemory>
        ensures ok { OnOk result (from_stage more self.new ≡ heard_in (from_stage more self.old) reply.now) }
        ensures err { OnErr result (self.new ≡ self.old) }
        ensures sure { reply_in (heard_in (from_stage more self.old) reply.now) ≡ None → IsOk result }
        ensures node { (node : _) → reply.now ≡ Reply.Node node → IsOk result }
    {
        let Stage::Makes { left, next, .. } = self else {
            return Ok(());
        };
        match reply {
            Reply::Busy(_) if *left > 0 => *left -= 1,
            Reply::Node(node) => {
                let next = mem::replace(next, Next::Answer);
                *self = next.at(more, *node);
            }
            _ => *self = Stage::Answered(reply.copy()?),
        }
        Ok(())
    }
}

// At the last name of the path.
fn at_name(more: u32, dir: DirId, name: Name, aim: Aim) -> Stage
    ensures { from_stage more result ≡ at_aim more aim dir name }
{
    match aim {
        Aim::Call(kind) => Stage::last(more, kind.of(dir, name)),
        Aim::List => Stage::look_up(more, dir, name, Next::List),
        Aim::Truncate(size) => Stage::look_up(more, dir, name, Next::Truncate(size)),
        Aim::Rename(to) => to_target(more, ROOT, to, dir, name),
    }
}

/// From this directory on by these names, the last of which is the aim's.
pub fn to_entry(more: u32, dir: DirId, mut names: VecDeque<Name>, aim: Aim) -> Stage
    ensures { from_stage more result ≡ at_entry more dir names.items (at_aim more aim) }
{
    let Some(name) = names.pop_front() else {
        return Stage::refused(Errno::Enoent);
    };
    if names.is_empty() {
        at_name(more, dir, name, aim)
    } else {
        Stage::look_up(more, dir, name, Next::Entry { names, aim })
    }
}

// The same on the second path of a rename of `name` in `dir`.
fn to_target(more: u32, to_dir: DirId, mut names: VecDeque<Name>, dir: DirId, name: Name) -> Stage
    ensures { from_stage more result ≡ at_entry more to_dir names.items (then_rename more dir name) }
{
    let Some(to_name) = names.pop_front() else {
        return Stage::refused(Errno::Enoent);
    };
    if names.is_empty() {
        let call = Call::Rename {
            dir,
            name,
            to_dir,
            to_name,
        };
        Stage::last(more, call)
    } else {
        Stage::look_up(more, to_dir, to_name, Next::Target { names, dir, name })
    }
}
