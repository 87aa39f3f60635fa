//! The replies to the commands of a script.
ghost use Rattle.std.specs.Prelude.{◌≡◌, ◌≤◌, ◌++◌, ◌∷◌, [], IsTrue, OnOk, IfOk, is_some, length, drop};
ghost use Rattle.std.specs.List.{list_all};
ghost use Rattle.std.specs.Option.{option_copied};
ghost use Rattle.cfs_walk.specs.Commands.{is_in_form};
ghost use Rattle.cfs_walk.specs.Stages.{course_in};
ghost use Rattle.cfs_walk.specs.Walks.{course_of, followed, reply_in};
ghost use Rattle.cfs_core.specs.Opening.{tries};
ghost use Rattle.cfs_run.specs.Replies.{replies_in, has_stepped, open_line, replies_of_client, replies_of, are_in_form};

use cfs_core::TRIES;
use cfs_ids::{Client, NoMemory, Reply};
use cfs_print::{CommandReply, ReplyTable};
use cfs_steps::{CallDone, ClientCalls};
use cfs_walk::{Command, CommandList, Walk};
use std::alloc::Global;

// Lets the walk hear the replies to the calls from the index on, until it has a reply or no call is left. The index
// behind the last call heard.
fn follow(walk: &mut Walk, calls: &[CallDone], first: usize) -> Result<usize, NoMemory>
    requires { first ≤ length calls.now }
    ensures followed { IfOk result (λ end. (reply_in (course_in walk.new), replies_in (drop end calls.now)) ≡ followed (course_in walk.old) (replies_in (drop first calls.now))) }
    ensures within { IfOk result (λ end. end ≤ length calls.now) }
{
    let mut at = first;
    while walk.reply().is_none() && at < calls.len() {
        walk.hear(&calls[at].reply)?;
        at += 1;
    }
    Ok(at)
}

// A copy of the reply, where there is one.
fn copy_of(reply: Option<&Reply>) -> Result<Option<Reply>, NoMemory>
    ensures { IfOk result (λ copy. copy ≡ option_copied reply.entry) }
{
    match reply {
        Some(reply) => Ok(Some(reply.copy()?)),
        None => Ok(None),
    }
}

// Whether the next command has made a step: a call of it has ended, the one at the index, or has begun.
fn has_stepped(calls: &[CallDone], at: usize, begun: bool) -> bool
    ensures { result ≡ has_stepped (replies_in (drop at calls.now)) begun }
{
    at < calls.len() || begun
}

// What the command is answered by the calls from the index on, and the index behind the last of its calls.
fn told(
    alloc: Global,
    command: &Command,
    calls: &[CallDone],
    first: usize,
) -> Result<(Option<Reply>, usize), NoMemory>
    requires form { IsTrue (is_in_form command.now) }
    requires within { first ≤ length calls.now }
    ensures followed { IfOk result (λ told. (told.0, replies_in (drop told.1 calls.now)) ≡ followed (course_of tries command.now) (replies_in (drop first calls.now))) }
    ensures within { IfOk result (λ told. told.1 ≤ length calls.now) }
{
    let mut walk = Walk::start(alloc, command, TRIES)?;
    let end = follow(&mut walk, calls, first)?;
    Ok((copy_of(walk.reply())?, end))
}

// Adds the line of a command.
fn add_line(
    table: &mut ReplyTable,
    client: Client,
    number: u64,
    reply: Option<Reply>,
) -> Result<(), NoMemory>
    ensures { OnOk result (table.new ≡ table.old ++ record { client = client; number = number; reply = reply } ∷ []) }
{
    let line = CommandReply {
        client,
        number,
        reply,
    };
    table.push(line).map_err(|_| NoMemory)
}

// Adds the line of a command that isn't answered, where it has made a step.
fn add_open(
    table: &mut ReplyTable,
    client: Client,
    number: u64,
    stepped: bool,
) -> Result<(), NoMemory>
    ensures { OnOk result (table.new ≡ table.old ++ open_line client number stepped) }
{
    if stepped {
        add_line(table, client, number, None)
    } else {
        Ok(())
    }
}

// Adds the commands of a client that were answered, and the one that has made a step and isn't answered.
fn add_replies(
    alloc: Global,
    table: &mut ReplyTable,
    client: Client,
    commands: &[Command],
    calls: &ClientCalls,
) -> Result<(), NoMemory>
    requires { IsTrue (list_all is_in_form commands.now) }
    ensures { OnOk result (table.new ≡ table.old ++ replies_of_client (client, commands.now) calls.now) }
{
    let done = calls.done.as_slice();
    let mut at = 0;
    for i in 0..commands.len() {
        let number = i as u64 + 1;
        let stepped = has_stepped(done, at, calls.begun.is_some());
        let (reply, end) = told(alloc, &commands[i], done, at)?;
        if reply.is_none() {
            return add_open(table, client, number, stepped);
        }
        add_line(table, client, number, reply)?;
        at = end;
    }
    Ok(())
}

/// The replies to the commands of the clients, by the calls that they made. The Err is want of memory.
pub fn replies_of(
    alloc: Global,
    lists: &[(Client, CommandList)],
    calls: &[ClientCalls],
) -> Result<ReplyTable, NoMemory>
    requires { IsTrue (list_all are_in_form lists.now) }
    ensures { IfOk result (λ table. table ≡ replies_of lists.now calls.now) }
{
    let mut table = ReplyTable::new(alloc);
    for i in 0..lists.len().min(calls.len()) {
        let (client, commands) = &lists[i];
        add_replies(alloc, &mut table, *client, commands.as_slice(), &calls[i])?;
    }
    Ok(table)
}
