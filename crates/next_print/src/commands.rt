//! The lines of commands.
ghost use Rattle.std.specs.Prelude.{OnOk, flat_map};
ghost use Rattle.next_io.specs.Causes.{HasCause};
ghost use Rattle.next_print.specs.Passing.{Adds, AddsFront};
ghost use Rattle.next_print.specs.Commands.{reply_word, dir_word, file_word, command_start, command_line};

use crate::output::{Page, Piece, put, put_all};
use Piece::{Number, Text};
use next_ids::{Client, Reply, Ts, errno_text};
use next_io::{Failed, Sink};

/// A command of a client that was answered or has made a step: its number among the client's commands, from 1, and its
/// reply. None is a command that isn't answered.
#[derive(Debug, Drop)]
pub struct CommandReply {
    pub client: Client,
    pub number: u64,
    pub reply: Option<Reply>,
}

#[tactic(auto, using(crate::proofs::Passed::passing), unfolding(crate::specs::Commands::dir_word))]
fn put_dir_stat<K: Sink>(
    sink: &mut K,
    page: &mut Page,
    children: u64,
    links: u64,
    time: Ts,
) -> Result<(), Failed>
    ensures ok { OnOk result (Adds (K.taken sink.old) page.old.items (K.taken sink.new) page.new.items (dir_word children links time)) }
    ensures front { AddsFront (K.taken sink.old) page.old.items (K.taken sink.new) (dir_word children links time) }
    ensures cause { HasCause (K.faults sink.old) (K.faults sink.new) result }
{
    put_all(
        sink,
        page,
        &[
            Text(b"DIR children="),
            Number(children),
            Text(b" links="),
            Number(links),
            Text(b" time="),
            Number(time.number),
            Text(b"\n"),
        ],
    )
}

#[tactic(auto, using(crate::proofs::Passed::passing), unfolding(crate::specs::Commands::file_word))]
fn put_file_stat<K: Sink>(sink: &mut K, page: &mut Page, size: u64, time: Ts) -> Result<(), Failed>
    ensures ok { OnOk result (Adds (K.taken sink.old) page.old.items (K.taken sink.new) page.new.items (file_word size time)) }
    ensures front { AddsFront (K.taken sink.old) page.old.items (K.taken sink.new) (file_word size time) }
    ensures cause { HasCause (K.faults sink.old) (K.faults sink.new) result }
{
    put_all(
        sink,
        page,
        &[
            Text(b"FILE size="),
            Number(size),
            Text(b" time="),
            Number(time.number),
            Text(b"\n"),
        ],
    )
}

#[tactic(auto, using(crate::proofs::Passed::passing), unfolding(crate::specs::Commands::reply_word))]
fn put_reply<K: Sink>(sink: &mut K, page: &mut Page, reply: &Option<Reply>) -> Result<(), Failed>
    ensures ok { OnOk result (Adds (K.taken sink.old) page.old.items (K.taken sink.new) page.new.items (reply_word reply.now)) }
    ensures front { AddsFront (K.taken sink.old) page.old.items (K.taken sink.new) (reply_word reply.now) }
    ensures cause { HasCause (K.faults sink.old) (K.faults sink.new) result }
{
    match reply {
        None => put(sink, page, b"-\n"),
        Some(Reply::Moved | Reply::Kept) => put(sink, page, b"OK\n"),
        Some(Reply::Node(node)) => put_all(
            sink,
            page,
            &[Text(b"NODE "), Piece::Node(Some(*node)), Text(b"\n")],
        ),
        Some(Reply::Rows(rows)) => put_all(
            sink,
            page,
            &[Text(b"LIST "), Number(rows.len() as u64), Text(b"\n")],
        ),
        Some(
            Reply::DirStat {
                children,
                links,
                time,
            },
        ) => put_dir_stat(sink, page, *children, *links, *time),
        Some(Reply::FileStat { size, time }) => put_file_stat(sink, page, *size, *time),
        Some(Reply::Busy(job)) => put_all(
            sink,
            page,
            &[Text(b"BUSY "), Number(job.0), Text(b"\n")],
        ),
        Some(Reply::Refused(errno)) => put_all(
            sink,
            page,
            &[Text(errno_text(*errno).as_bytes()), Text(b"\n")],
        ),
    }
}

#[tactic(auto, using(crate::proofs::Passed::passing), unfolding(crate::specs::Commands::command_start))]
fn put_start<K: Sink>(sink: &mut K, page: &mut Page, command: &CommandReply) -> Result<(), Failed>
    ensures ok { OnOk result (Adds (K.taken sink.old) page.old.items (K.taken sink.new) page.new.items (command_start command.now)) }
    ensures front { AddsFront (K.taken sink.old) page.old.items (K.taken sink.new) (command_start command.now) }
    ensures cause { HasCause (K.faults sink.old) (K.faults sink.new) result }
{
    let client = command.client.0 as u64;
    put_all(
        sink,
        page,
        &[
            Text(b"c "),
            Number(client),
            Text(b" "),
            Number(command.number),
            Text(b" "),
        ],
    )
}

/// Writes the line of a command. After `Failed` a front of it was taken.
#[tactic(auto, using(crate::proofs::Passed::passing), unfolding(crate::specs::Commands::command_line))]
pub(crate) fn put_command<K: Sink>(
    sink: &mut K,
    page: &mut Page,
    command: &CommandReply,
) -> Result<(), Failed>
    ensures ok { OnOk result (Adds (K.taken sink.old) page.old.items (K.taken sink.new) page.new.items (command_line command.now)) }
    ensures front { AddsFront (K.taken sink.old) page.old.items (K.taken sink.new) (command_line command.now) }
    ensures cause { HasCause (K.faults sink.old) (K.faults sink.new) result }
{
    put_start(sink, page, command)?;
    put_reply(sink, page, &command.reply)
}

/// Writes the lines of commands. After `Failed` a front of them was taken.
#[tactic(auto, using(crate::proofs::Passed::passing))]
pub(crate) fn put_commands<K: Sink>(
    sink: &mut K,
    page: &mut Page,
    commands: &[CommandReply],
) -> Result<(), Failed>
    ensures ok { OnOk result (Adds (K.taken sink.old) page.old.items (K.taken sink.new) page.new.items (flat_map command_line commands.now)) }
    ensures front { AddsFront (K.taken sink.old) page.old.items (K.taken sink.new) (flat_map command_line commands.now) }
    ensures cause { HasCause (K.faults sink.old) (K.faults sink.new) result }
{
    for command in commands {
        put_command(sink, page, command)?;
    }
    Ok(())
}
