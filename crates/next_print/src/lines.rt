//! The lines of a history.
ghost use Rattle.std.specs.Prelude.{◌++◌, OnOk, codes, flat_map};
ghost use Rattle.next_io.specs.Causes.{HasCause};
ghost use Rattle.next_print.specs.Passing.{Adds, AddsFront};
ghost use Rattle.next_print.specs.Lines.{named_call, to_text, call_text, row_line, rows_head, rows_text, node_end, errno_end, dir_end, file_end, busy_end, moved_end, unfinished_end, reply_end, outcome_end, line_start, line_text, forget_text, item_text};

use crate::output::{Page, Piece, put, put_all};
use Piece::{Number, Position, Text};
use next_history::{HistoryItem, Line, Outcome};
use next_ids::{Call, DirId, Errno, FileId, JobNo, Name, Node, Reply, Ts, errno_text};
use next_io::{Failed, Sink};

#[tactic(auto, using(crate::proofs::Passed::passing), unfolding(crate::specs::Lines::named_call))]
fn put_named<'a, K: Sink>(
    sink: &mut K,
    page: &mut Page,
    call: &'a [u8],
    dir: DirId,
    name: &'a Name,
) -> Result<(), Failed>
    ensures ok { OnOk result (Adds (K.taken sink.old) page.old.items (K.taken sink.new) page.new.items (named_call call.now dir name.now)) }
    ensures front { AddsFront (K.taken sink.old) page.old.items (K.taken sink.new) (named_call call.now dir name.now) }
    ensures cause { HasCause (K.faults sink.old) (K.faults sink.new) result }
{
    put_all(
        sink,
        page,
        &[
            Text(call),
            Text(b" "),
            Number(dir.0),
            Text(b" "),
            Text(name.as_bytes()),
        ],
    )
}

#[tactic(auto, using(crate::proofs::Passed::passing), unfolding(crate::specs::Lines::to_text))]
fn put_to<'a, K: Sink>(
    sink: &mut K,
    page: &mut Page,
    dir: DirId,
    name: &'a Name,
) -> Result<(), Failed>
    ensures ok { OnOk result (Adds (K.taken sink.old) page.old.items (K.taken sink.new) page.new.items (to_text dir name.now)) }
    ensures front { AddsFront (K.taken sink.old) page.old.items (K.taken sink.new) (to_text dir name.now) }
    ensures cause { HasCause (K.faults sink.old) (K.faults sink.new) result }
{
    put_all(
        sink,
        page,
        &[Text(b" "), Number(dir.0), Text(b" "), Text(name.as_bytes())],
    )
}

#[tactic(auto, using(crate::proofs::Passed::passing))]
fn put_rename<K: Sink>(
    sink: &mut K,
    page: &mut Page,
    dir: DirId,
    name: &Name,
    to_dir: DirId,
    to_name: &Name,
) -> Result<(), Failed>
    ensures ok { OnOk result (Adds (K.taken sink.old) page.old.items (K.taken sink.new) page.new.items (named_call (codes "rename") dir name.now ++ to_text to_dir to_name.now)) }
    ensures front { AddsFront (K.taken sink.old) page.old.items (K.taken sink.new) (named_call (codes "rename") dir name.now ++ to_text to_dir to_name.now) }
    ensures cause { HasCause (K.faults sink.old) (K.faults sink.new) result }
{
    put_named(sink, page, b"rename", dir, name)?;
    put_to(sink, page, to_dir, to_name)
}

#[tactic(auto, using(crate::proofs::Passed::passing), unfolding(crate::specs::Lines::call_text))]
fn put_call<K: Sink>(sink: &mut K, page: &mut Page, call: &Call) -> Result<(), Failed>
    ensures ok { OnOk result (Adds (K.taken sink.old) page.old.items (K.taken sink.new) page.new.items (call_text call.now)) }
    ensures front { AddsFront (K.taken sink.old) page.old.items (K.taken sink.new) (call_text call.now) }
    ensures cause { HasCause (K.faults sink.old) (K.faults sink.new) result }
{
    match call {
        Call::Lookup { dir, name } => put_named(sink, page, b"lookup", *dir, name),
        Call::List { dir } => put_all(sink, page, &[Text(b"list "), Number(dir.0)]),
        Call::StatRoot => put(sink, page, b"statroot"),
        Call::Stat { dir, name } => put_named(sink, page, b"stat", *dir, name),
        Call::Create { dir, name } => put_named(sink, page, b"create", *dir, name),
        Call::Mkdir { dir, name } => put_named(sink, page, b"mkdir", *dir, name),
        Call::Unlink { dir, name } => put_named(sink, page, b"unlink", *dir, name),
        Call::Rmdir { dir, name } => put_named(sink, page, b"rmdir", *dir, name),
        Call::Truncate { file, size } => put_all(
            sink,
            page,
            &[
                Text(b"truncate "),
                Number(file.0),
                Text(b" "),
                Number(*size),
            ],
        ),
        Call::Rename {
            dir,
            name,
            to_dir,
            to_name,
        } => put_rename(sink, page, *dir, name, *to_dir, to_name),
    }
}

#[tactic(auto, using(crate::proofs::Passed::passing), unfolding(crate::specs::Lines::row_line))]
fn put_row<K: Sink>(sink: &mut K, page: &mut Page, row: &(Name, Node)) -> Result<(), Failed>
    ensures ok { OnOk result (Adds (K.taken sink.old) page.old.items (K.taken sink.new) page.new.items (row_line row.now)) }
    ensures front { AddsFront (K.taken sink.old) page.old.items (K.taken sink.new) (row_line row.now) }
    ensures cause { HasCause (K.faults sink.old) (K.faults sink.new) result }
{
    put_all(
        sink,
        page,
        &[
            Text(b"r "),
            Text(row.0.as_bytes()),
            Text(b" "),
            Piece::Node(Some(row.1)),
            Text(b"\n"),
        ],
    )
}

#[tactic(auto, using(crate::proofs::Passed::passing))]
fn put_rows<K: Sink>(sink: &mut K, page: &mut Page, rows: &[(Name, Node)]) -> Result<(), Failed>
    ensures ok { OnOk result (Adds (K.taken sink.old) page.old.items (K.taken sink.new) page.new.items (flat_map row_line rows.now)) }
    ensures front { AddsFront (K.taken sink.old) page.old.items (K.taken sink.new) (flat_map row_line rows.now) }
    ensures cause { HasCause (K.faults sink.old) (K.faults sink.new) result }
{
    for row in rows {
        put_row(sink, page, row)?;
    }
    Ok(())
}

#[tactic(auto, using(crate::proofs::Passed::passing), unfolding(crate::specs::Lines::rows_head))]
fn put_rows_head<K: Sink>(sink: &mut K, page: &mut Page, count: u64) -> Result<(), Failed>
    ensures ok { OnOk result (Adds (K.taken sink.old) page.old.items (K.taken sink.new) page.new.items (rows_head count)) }
    ensures front { AddsFront (K.taken sink.old) page.old.items (K.taken sink.new) (rows_head count) }
    ensures cause { HasCause (K.faults sink.old) (K.faults sink.new) result }
{
    put_all(sink, page, &[Text(b" = rows "), Number(count), Text(b"\n")])
}

#[tactic(auto, using(crate::proofs::Passed::passing), unfolding(crate::specs::Lines::rows_text))]
fn put_list<K: Sink>(sink: &mut K, page: &mut Page, rows: &[(Name, Node)]) -> Result<(), Failed>
    ensures ok { OnOk result (Adds (K.taken sink.old) page.old.items (K.taken sink.new) page.new.items (rows_text rows.now)) }
    ensures front { AddsFront (K.taken sink.old) page.old.items (K.taken sink.new) (rows_text rows.now) }
    ensures cause { HasCause (K.faults sink.old) (K.faults sink.new) result }
{
    put_rows_head(sink, page, rows.len() as u64)?;
    put_rows(sink, page, rows)
}

#[tactic(auto, using(crate::proofs::Passed::passing), unfolding(crate::specs::Lines::node_end))]
fn put_found<K: Sink>(sink: &mut K, page: &mut Page, node: Node) -> Result<(), Failed>
    ensures ok { OnOk result (Adds (K.taken sink.old) page.old.items (K.taken sink.new) page.new.items (node_end node)) }
    ensures front { AddsFront (K.taken sink.old) page.old.items (K.taken sink.new) (node_end node) }
    ensures cause { HasCause (K.faults sink.old) (K.faults sink.new) result }
{
    put_all(
        sink,
        page,
        &[Text(b" = node "), Piece::Node(Some(node)), Text(b"\n")],
    )
}

#[tactic(auto, using(crate::proofs::Passed::passing), unfolding(crate::specs::Lines::errno_end))]
fn put_refused<K: Sink>(sink: &mut K, page: &mut Page, errno: Errno) -> Result<(), Failed>
    ensures ok { OnOk result (Adds (K.taken sink.old) page.old.items (K.taken sink.new) page.new.items (errno_end errno)) }
    ensures front { AddsFront (K.taken sink.old) page.old.items (K.taken sink.new) (errno_end errno) }
    ensures cause { HasCause (K.faults sink.old) (K.faults sink.new) result }
{
    put_all(
        sink,
        page,
        &[
            Text(b" = "),
            Text(errno_text(errno).as_bytes()),
            Text(b"\n"),
        ],
    )
}

#[tactic(auto, using(crate::proofs::Passed::passing), unfolding(crate::specs::Lines::dir_end))]
fn put_dir<K: Sink>(
    sink: &mut K,
    page: &mut Page,
    children: u64,
    links: u64,
    time: Ts,
) -> Result<(), Failed>
    ensures ok { OnOk result (Adds (K.taken sink.old) page.old.items (K.taken sink.new) page.new.items (dir_end children links time)) }
    ensures front { AddsFront (K.taken sink.old) page.old.items (K.taken sink.new) (dir_end children links time) }
    ensures cause { HasCause (K.faults sink.old) (K.faults sink.new) result }
{
    put_all(
        sink,
        page,
        &[
            Text(b" = dir "),
            Number(children),
            Text(b" "),
            Number(links),
            Text(b" "),
            Number(time.number),
            Text(b"\n"),
        ],
    )
}

#[tactic(auto, using(crate::proofs::Passed::passing), unfolding(crate::specs::Lines::file_end))]
fn put_file<K: Sink>(sink: &mut K, page: &mut Page, size: u64, time: Ts) -> Result<(), Failed>
    ensures ok { OnOk result (Adds (K.taken sink.old) page.old.items (K.taken sink.new) page.new.items (file_end size time)) }
    ensures front { AddsFront (K.taken sink.old) page.old.items (K.taken sink.new) (file_end size time) }
    ensures cause { HasCause (K.faults sink.old) (K.faults sink.new) result }
{
    put_all(
        sink,
        page,
        &[
            Text(b" = file "),
            Number(size),
            Text(b" "),
            Number(time.number),
            Text(b"\n"),
        ],
    )
}

#[tactic(auto, using(crate::proofs::Passed::passing), unfolding(crate::specs::Lines::busy_end))]
fn put_busy<K: Sink>(sink: &mut K, page: &mut Page, job: JobNo) -> Result<(), Failed>
    ensures ok { OnOk result (Adds (K.taken sink.old) page.old.items (K.taken sink.new) page.new.items (busy_end job)) }
    ensures front { AddsFront (K.taken sink.old) page.old.items (K.taken sink.new) (busy_end job) }
    ensures cause { HasCause (K.faults sink.old) (K.faults sink.new) result }
{
    put_all(sink, page, &[Text(b" = BUSY "), Number(job.0), Text(b"\n")])
}

#[tactic(auto, using(crate::proofs::Passed::passing), unfolding(crate::specs::Lines::moved_end))]
fn put_moved<K: Sink>(
    sink: &mut K,
    page: &mut Page,
    ts: Ts,
    made: Option<Node>,
) -> Result<(), Failed>
    ensures ok { OnOk result (Adds (K.taken sink.old) page.old.items (K.taken sink.new) page.new.items (moved_end ts made)) }
    ensures front { AddsFront (K.taken sink.old) page.old.items (K.taken sink.new) (moved_end ts made) }
    ensures cause { HasCause (K.faults sink.old) (K.faults sink.new) result }
{
    put_all(
        sink,
        page,
        &[
            Text(b" = ok "),
            Number(ts.number),
            Text(b" "),
            Piece::Node(made),
            Text(b"\n"),
        ],
    )
}

#[tactic(auto, using(crate::proofs::Passed::passing), unfolding(crate::specs::Lines::unfinished_end))]
fn put_unfinished<K: Sink>(
    sink: &mut K,
    page: &mut Page,
    found: Option<(Ts, Option<Node>)>,
) -> Result<(), Failed>
    ensures ok { OnOk result (Adds (K.taken sink.old) page.old.items (K.taken sink.new) page.new.items (unfinished_end found)) }
    ensures front { AddsFront (K.taken sink.old) page.old.items (K.taken sink.new) (unfinished_end found) }
    ensures cause { HasCause (K.faults sink.old) (K.faults sink.new) result }
{
    match found {
        None => put(sink, page, b" = unfinished - -\n"),
        Some((ts, made)) => put_all(
            sink,
            page,
            &[
                Text(b" = unfinished "),
                Number(ts.number),
                Text(b" "),
                Piece::Node(made),
                Text(b"\n"),
            ],
        ),
    }
}

#[tactic(auto, using(crate::proofs::Passed::passing))]
fn put_reply<K: Sink>(sink: &mut K, page: &mut Page, reply: &Reply) -> Result<(), Failed>
    ensures ok { OnOk result (Adds (K.taken sink.old) page.old.items (K.taken sink.new) page.new.items (reply_end reply.now)) }
    ensures front { AddsFront (K.taken sink.old) page.old.items (K.taken sink.new) (reply_end reply.now) }
    ensures cause { HasCause (K.faults sink.old) (K.faults sink.new) result }
{
    match reply {
        Reply::Moved => put_moved(
            sink,
            page,
            Ts {
                moment: 0,
                number: 0,
            },
            None,
        ),
        Reply::Kept => put(sink, page, b" = kept\n"),
        Reply::Node(node) => put_found(sink, page, *node),
        Reply::Rows(rows) => put_list(sink, page, rows.as_slice()),
        Reply::DirStat {
            children,
            links,
            time,
        } => put_dir(sink, page, *children, *links, *time),
        Reply::FileStat { size, time } => put_file(sink, page, *size, *time),
        Reply::Refused(errno) => put_refused(sink, page, *errno),
        Reply::Busy(job) => put_busy(sink, page, *job),
    }
}

#[tactic(auto, using(crate::proofs::Passed::passing))]
fn put_outcome<K: Sink>(sink: &mut K, page: &mut Page, outcome: &Outcome) -> Result<(), Failed>
    ensures ok { OnOk result (Adds (K.taken sink.old) page.old.items (K.taken sink.new) page.new.items (outcome_end outcome.now)) }
    ensures front { AddsFront (K.taken sink.old) page.old.items (K.taken sink.new) (outcome_end outcome.now) }
    ensures cause { HasCause (K.faults sink.old) (K.faults sink.new) result }
{
    match outcome {
        Outcome::Moved { ts, made } => put_moved(sink, page, *ts, *made),
        Outcome::Reply(reply) => put_reply(sink, page, reply),
        Outcome::Unfinished(found) => put_unfinished(sink, page, *found),
    }
}

#[tactic(auto, using(crate::proofs::Passed::passing), unfolding(crate::specs::Lines::line_start))]
fn put_start<K: Sink>(sink: &mut K, page: &mut Page, line: &Line) -> Result<(), Failed>
    ensures ok { OnOk result (Adds (K.taken sink.old) page.old.items (K.taken sink.new) page.new.items (line_start line.now)) }
    ensures front { AddsFront (K.taken sink.old) page.old.items (K.taken sink.new) (line_start line.now) }
    ensures cause { HasCause (K.faults sink.old) (K.faults sink.new) result }
{
    let client = line.client.0 as u64;
    put_all(
        sink,
        page,
        &[
            Text(b"l "),
            Number(client),
            Text(b" "),
            Number(line.first),
            Text(b" "),
            Position(line.at),
            Text(b" "),
            Position(line.last),
            Text(b" "),
        ],
    )
}

/// Writes a line of a history, and the rows of its reply. After `Failed` a front of it was taken.
#[tactic(auto, using(crate::proofs::Passed::passing), unfolding(crate::specs::Lines::line_text))]
pub(crate) fn put_line<K: Sink>(sink: &mut K, page: &mut Page, line: &Line) -> Result<(), Failed>
    ensures ok { OnOk result (Adds (K.taken sink.old) page.old.items (K.taken sink.new) page.new.items (line_text line.now)) }
    ensures front { AddsFront (K.taken sink.old) page.old.items (K.taken sink.new) (line_text line.now) }
    ensures cause { HasCause (K.faults sink.old) (K.faults sink.new) result }
{
    put_start(sink, page, line)?;
    put_call(sink, page, &line.call)?;
    put_outcome(sink, page, &line.outcome)
}

/// Writes the items of a history. After `Failed` a front of them was taken.
#[tactic(auto, using(crate::proofs::Passed::passing))]
pub(crate) fn put_history<K: Sink>(
    sink: &mut K,
    page: &mut Page,
    items: &[HistoryItem],
) -> Result<(), Failed>
    ensures ok { OnOk result (Adds (K.taken sink.old) page.old.items (K.taken sink.new) page.new.items (flat_map item_text items.now)) }
    ensures front { AddsFront (K.taken sink.old) page.old.items (K.taken sink.new) (flat_map item_text items.now) }
    ensures cause { HasCause (K.faults sink.old) (K.faults sink.new) result }
{
    for item in items {
        put_item(sink, page, item)?;
    }
    Ok(())
}

#[tactic(auto, using(crate::proofs::Passed::passing), unfolding(crate::specs::Lines::forget_text))]
fn put_forget<K: Sink>(sink: &mut K, page: &mut Page, at: u64, file: FileId) -> Result<(), Failed>
    ensures ok { OnOk result (Adds (K.taken sink.old) page.old.items (K.taken sink.new) page.new.items (forget_text at file)) }
    ensures front { AddsFront (K.taken sink.old) page.old.items (K.taken sink.new) (forget_text at file) }
    ensures cause { HasCause (K.faults sink.old) (K.faults sink.new) result }
{
    put_all(
        sink,
        page,
        &[
            Text(b"g "),
            Number(at),
            Text(b" "),
            Piece::Node(Some(Node::File(file))),
            Text(b"\n"),
        ],
    )
}

#[tactic(auto, using(crate::proofs::Passed::passing), unfolding(crate::specs::Lines::item_text))]
fn put_item<K: Sink>(sink: &mut K, page: &mut Page, item: &HistoryItem) -> Result<(), Failed>
    ensures ok { OnOk result (Adds (K.taken sink.old) page.old.items (K.taken sink.new) page.new.items (item_text item.now)) }
    ensures front { AddsFront (K.taken sink.old) page.old.items (K.taken sink.new) (item_text item.now) }
    ensures cause { HasCause (K.faults sink.old) (K.faults sink.new) result }
{
    match item {
        HistoryItem::Line(line) => put_line(sink, page, line),
        HistoryItem::Forget { at, file } => put_forget(sink, page, *at, *file),
    }
}
