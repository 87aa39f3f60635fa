//! The lines of calls.
ghost use Rattle.std.specs.Prelude.{◌≡◌, ◌++◌, ◌∷◌, [], Some, IfOk, OnOk};
ghost use Rattle.next_rules.specs.Histories.{outcome_of, line_of, begun_line, begun_lines, lines_of_client, lines_of};
ghost use Rattle.next_history.specs.Indexed.{run_of};
ghost use Rattle.next_history.specs.Sorted.{calls_in};

use crate::index::Index;
use next_ids::{Call, Client, NoMemory, Node, Reply, Stamp, Ts};
use next_steps::{CallDone, ClientCalls, Line, Outcome};
use std::alloc::Global;

// What a finished call came to.
fn outcome_of(reply: &Reply, ts: Ts, made: Option<Node>) -> Result<Outcome, NoMemory>
    ensures { IfOk result (λ outcome. outcome ≡ outcome_of reply.now ts made) }
{
    match reply {
        Reply::Moved => Ok(Outcome::Moved { ts, made }),
        _ => Ok(Outcome::Reply(reply.copy()?)),
    }
}

// The line of a finished call.
fn line_of(index: &Index<'_>, client: Client, done: &CallDone) -> Result<Line, NoMemory>
    ensures { IfOk result (λ line. line ≡ line_of (run_of index.now) client done.now) }
{
    Ok(Line {
        client,
        call: done.call.copy()?,
        first: index.position(done.first),
        at: Some(index.point(done.at)),
        last: Some(index.position(done.last)),
        outcome: outcome_of(&done.reply, done.ts, done.made)?,
    })
}

// The line of a call that has begun and not ended.
fn begun_line(
    index: &Index<'_>,
    client: Client,
    call: &Call,
    first: Stamp,
) -> Result<Line, NoMemory>
    ensures { IfOk result (λ line. line ≡ begun_line (run_of index.now) client call.now first) }
{
    let call = call.copy()?;
    let first = index.position(first);
    let (at, found) = match index.move_from(client, &call, first) {
        Some((at, ts, made)) => (Some(at), Some((ts, made))),
        None => (None, None),
    };
    Ok(Line {
        client,
        call,
        first,
        at,
        last: None,
        outcome: Outcome::Unfinished(found),
    })
}

// Adds the lines of a client.
fn add_client(lines: &mut Vec<Line>, index: &Index<'_>, calls: &ClientCalls) -> Result<(), NoMemory>
    ensures { OnOk result (lines.new.items ≡ lines.old.items ++ lines_of_client (run_of index.now) calls.now) }
{
    for done in calls.done.as_slice() {
        lines.push(line_of(index, calls.client, done)?)?;
    }
    if let Some((call, first)) = &calls.begun {
        lines.push(begun_line(index, calls.client, call, *first)?)?;
    }
    Ok(())
}

/// The lines of the clients' calls.
pub(crate) fn lines_of(
    alloc: Global,
    index: &Index<'_>,
    calls: &[&ClientCalls],
) -> Result<Vec<Line>, NoMemory>
    ensures { IfOk result (λ lines. lines.items ≡ lines_of (run_of index.now) (calls_in calls.now)) }
{
    let mut lines = Vec::new(alloc);
    for client in calls {
        add_client(&mut lines, index, client)?;
    }
    Ok(lines)
}
