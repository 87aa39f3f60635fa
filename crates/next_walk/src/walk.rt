//! The walk of a command: which calls it makes, and what it is answered.
ghost use Rattle.std.specs.Prelude.{◌≡◌, ◌≤◌, ◌↔◌, [], None, IfOk, OnOk, OnErr, IsOk, IsSome, IsTrue, false};
ghost use Rattle.std.specs.Option.{option_copied};
ghost use Rattle.next_walk.specs.Commands.{is_in_form};
ghost use Rattle.next_walk.specs.Paths.{is_filled};
ghost use Rattle.next_walk.specs.Stages.{at_aim, from_stage, course_in};
ghost use Rattle.next_walk.specs.Walks.{root, at_entry, listing, stating, calls_of, is_too_long, has_too_long, course_of, call_in, reply_in, heard_in};

use crate::aim::{Aim, NameCall};
use crate::command::Command;
use crate::names::names_of;
use crate::path::Path;
use crate::stage::{ROOT, Stage, to_entry};
use next_ids::{Call, Errno, NoMemory, Reply};
use std::alloc::Global;

/// A command on its way, call by call: each component but the last of a path is looked up from the root on (POSIX.1-2017,
/// Base Definitions, 4.13 Pathname Resolution), and then comes the command's own call. It makes no call itself: it tells
/// the next one, and hears what that was answered.
#[derive(Debug, Drop)]
pub struct Walk {
    // how often a call that is answered Busy is made again
    more: u32,
    stage: Stage,
}

// From the root on by the path.
fn from_root(alloc: Global, path: &Path, aim: Aim, more: u32) -> Result<Stage, NoMemory>
    requires filled { IsTrue (is_filled path.now) }
    requires short { is_too_long path.now ≡ false }
    ensures { IfOk result (λ stage. from_stage more stage ≡ at_entry more root path.now (at_aim more aim)) }
{
    let names = names_of(alloc, path)?;
    Ok(to_entry(more, ROOT, names, aim))
}

// The root is listed without a look-up.
fn list_stage(alloc: Global, path: &Path, more: u32) -> Result<Stage, NoMemory>
    requires filled { IsTrue (is_filled path.now) }
    requires short { is_too_long path.now ≡ false }
    ensures stage { IfOk result (λ stage. from_stage more stage ≡ listing more path.now) }
    ensures of_root { path.now ≡ [] → IsOk result }
{
    if path.len() == 0 {
        Ok(Stage::last(more, Call::List { dir: ROOT }))
    } else {
        from_root(alloc, path, Aim::List, more)
    }
}

// The root has no name, and a call of its own.
fn stat_stage(alloc: Global, path: &Path, more: u32) -> Result<Stage, NoMemory>
    requires filled { IsTrue (is_filled path.now) }
    requires short { is_too_long path.now ≡ false }
    ensures stage { IfOk result (λ stage. from_stage more stage ≡ stating more path.now) }
    ensures of_root { path.now ≡ [] → IsOk result }
{
    if path.len() == 0 {
        Ok(Stage::last(more, Call::StatRoot))
    } else {
        from_root(alloc, path, Aim::Call(NameCall::Stat), more)
    }
}

// The stage before the first call.
fn first_stage(alloc: Global, command: &Command, more: u32) -> Result<Stage, NoMemory>
    requires form { IsTrue (is_in_form command.now) }
    requires short { has_too_long command.now ≡ false }
    ensures stage { IfOk result (λ stage. from_stage more stage ≡ calls_of more command.now) }
    ensures list_of_root { command.now ≡ Command.List [] → IsOk result }
    ensures stat_of_root { command.now ≡ Command.Stat [] → IsOk result }
{
    match command {
        Command::Lookup(path) => from_root(alloc, path, Aim::Call(NameCall::Lookup), more),
        Command::List(path) => list_stage(alloc, path, more),
        Command::Stat(path) => stat_stage(alloc, path, more),
        Command::Create(path) => from_root(alloc, path, Aim::Call(NameCall::Create), more),
        Command::Mkdir(path) => from_root(alloc, path, Aim::Call(NameCall::Mkdir), more),
        Command::Unlink(path) => from_root(alloc, path, Aim::Call(NameCall::Unlink), more),
        Command::Rmdir(path) => from_root(alloc, path, Aim::Call(NameCall::Rmdir), more),
        Command::Truncate(path, size) => from_root(alloc, path, Aim::Truncate(*size), more),
        Command::Rename(path, to) => {
            let to = names_of(alloc, to)?;
            from_root(alloc, path, Aim::Rename(to), more)
        }
    }
}

impl Walk {
    /// The walk of a command in form, before its first call. A call that is answered Busy is made again as a new call, up
    /// to `tries` times in all, 1 or more. A component of over 255 bytes is answered ENAMETOOLONG (POSIX.1-2017, Base
    /// Definitions, 4.13), and no call is made. The Err is want of memory, which that answer, and the list and the stat of
    /// the root, don't take.
    pub fn start(alloc: Global, command: &Command, tries: u32) -> Result<Walk, NoMemory>
        requires form { IsTrue (is_in_form command.now) }
        requires tries { 1 ≤ tries }
        ensures course { IfOk result (λ walk. course_in walk ≡ course_of tries command.now) }

        // A name that is too long, the root's list and the root's stat take no memory.
        ensures too_long { IsTrue (has_too_long command.now) → IsOk result }
        ensures list_of_root { command.now ≡ Command.List [] → IsOk result }
        ensures stat_of_root { command.now ≡ Command.Stat [] → IsOk result }
    {
        let more = tries - 1;
        if command.has_too_long() {
            let stage = Stage::refused(Errno::Enametoolong);
            return Ok(Walk { more, stage });
        }
        let stage = first_stage(alloc, command, more)?;
        Ok(Walk { more, stage })
    }

    /// The call that the command makes next. None comes exactly where it has its reply, and takes no memory. The Err is
    /// want of memory.
    pub fn next_call(&self) -> Result<Option<Call>, NoMemory>
        ensures call { IfOk result (λ call. call ≡ call_in (course_in self.now)) }
        ensures sure { call_in (course_in self.now) ≡ None → IsOk result }
    {
        match &self.stage {
            Stage::Makes { call, .. } => Ok(Some(call.copy()?)),
            Stage::Answered(_) => Ok(None),
        }
    }

    /// Goes on by what the call was answered, where the command has no reply yet. It takes memory for a copy of the reply
    /// alone, where that ends the command; a node that was found, and a Busy after which the call is made again, need
    /// none. The Err is want of memory, and leaves the walk as before.
    pub fn hear(&mut self, reply: &Reply) -> Result<(), NoMemory>
        requires { reply_in (course_in self.old) ≡ None }
        ensures ok { OnOk result (course_in self.new ≡ heard_in (course_in self.old) reply.now) }
        ensures err { OnErr result (self.new ≡ self.old) }
        ensures sure { reply_in (heard_in (course_in self.old) reply.now) ≡ None → IsOk result }
        ensures node { (node : _) → reply.now ≡ Reply.Node node → IsOk result }
    {
        self.stage.hear(self.more, reply)
    }

    /// What the command is answered. None comes exactly where it still makes a call.
    pub fn reply(&self) -> Option<&Reply>
        ensures reply { option_copied result ≡ reply_in (course_in self.now) }
        ensures or_call { IsSome result ↔ (call_in (course_in self.now) ≡ None) }
    {
        match &self.stage {
            Stage::Answered(reply) => Some(reply),
            Stage::Makes { .. } => None,
        }
    }
}
