//! What the shard's table answers, and what it moves.
ghost use Rattle.std.specs.Prelude.{◌≡◌, ◌<◌, IfOk, None};
ghost use Rattle.std.specs.FinMap as map;
ghost use Rattle.cfs_ids.specs.Maps.{row_key};
ghost use Rattle.cfs_table.specs.Tables.{contents_of};
ghost use Rattle.cfs_steps.specs.Phases.{maker};
ghost use Rattle.cfs_rules.specs.Places.{serve_free, unless_locked, list_rows, read_row, inserted, made_at, settled_dir, taken_back_dir};
ghost use Rattle.cfs_shard.specs.Owners.{owns};

use cfs_ids::{Client, DirId, JobNo, Name, NoMemory, Node, Stamp, Ts};
use cfs_steps::{Answer, Ask, Move, Moved, maker};
use cfs_table::Table;

/// What serving an ask gives beside the change.
#[derive(Debug, Drop)]
pub struct Told {
    pub answer: Answer,
    pub moved: Option<Moved>,
}

// The answer to Read.
fn read(table: &Table, dir: DirId, name: &Name) -> Answer
    ensures { result ≡ read_row (map.get (contents_of table.now).rows (row_key dir name.now)) }
{
    match table.row(dir, name) {
        Some(row) => Answer::Found(row.node, row.stamp),
        None => Answer::Absent,
    }
}

// The answer to List.
fn list(table: &Table, dir: DirId) -> Result<Answer, NoMemory>
    ensures { IfOk result (λ answer. answer ≡ list_rows (contents_of table.now) dir.0 (map.get (contents_of table.now).recs dir.0)) }
{
    match table.rec(dir) {
        Some(_) => Ok(Answer::Rows(table.rows_of(dir)?)),
        None => Ok(Answer::NoDir),
    }
}

// The move of an Insert.
fn creation(client: Client, dir: DirId, name: &Name, node: Node, ts: Ts) -> Result<Moved, NoMemory>
    ensures { IfOk result (λ moved. moved ≡ Moved.Move (record { client = client; call = maker dir name.now node; ts = ts; made = Some node })) }
{
    let call = maker(dir, name, node)?;
    Ok(Moved::Move(Move {
        client,
        call,
        ts,
        made: Some(node),
    }))
}

// What Insert gives beside the change.
fn insert(
    table: &Table,
    client: Client,
    dir: DirId,
    name: &Name,
    node: Node,
    ts: Ts,
) -> Result<Told, NoMemory>
    ensures answer { IfOk result (λ told. (at : _) → told.answer ≡ (inserted (contents_of table.now) at client dir name.now node ts (map.get (contents_of table.now).recs dir.0) (map.get (contents_of table.now).rows (row_key dir name.now))).answer) }
    ensures moved { IfOk result (λ told. (at : _) → told.moved ≡ (inserted (contents_of table.now) at client dir name.now node ts (map.get (contents_of table.now).recs dir.0) (map.get (contents_of table.now).rows (row_key dir name.now))).moved) }
{
    if table.rec(dir).is_none() {
        return Ok(unmoved(Answer::NoDir));
    }
    if table.row(dir, name).is_some() {
        return Ok(unmoved(Answer::Exists));
    }
    let moved = creation(client, dir, name, node, ts)?;
    Ok(Told {
        answer: Answer::Done(None),
        moved: Some(moved),
    })
}

/// The directory that a step makes.
pub fn made(at: Stamp) -> DirId
    requires { at.number < 1099511627777 }
    ensures { result.0 ≡ made_at at }
{
    DirId(64 * at.number + (at.place.0 % 64) as u64)
}

// The answer to Settle: whether the directory has an owner.
fn settle(table: &Table, dir: DirId) -> Answer
    ensures { result ≡ (settled_dir (contents_of table.now) dir (map.get (contents_of table.now).recs dir.0)).answer }
{
    match table.rec(dir) {
        Some(rec) if rec.owner.is_some() => Answer::Done(None),
        _ => Answer::None,
    }
}

// The answer to TakeBack: whether the client owns the directory.
fn take_back(table: &Table, client: Client, dir: DirId) -> Answer
    ensures { result ≡ (taken_back_dir (contents_of table.now) client dir (map.get (contents_of table.now).recs dir.0)).answer }
{
    match table.rec(dir) {
        Some(rec) if is_owner(rec.owner, client) => Answer::Done(None),
        _ => Answer::None,
    }
}

/// Whether the owner is the client.
pub fn is_owner(owner: Option<Client>, client: Client) -> bool
    ensures { result ≡ owns client owner }
{
    match owner {
        Some(owner) => owner.0 == client.0,
        None => false,
    }
}

// What an answer gives that moves nothing.
fn unmoved(answer: Answer) -> Told
    ensures { result ≡ record { answer = answer; moved = None } }
{
    Told {
        answer,
        moved: None,
    }
}

// What the table gives for the ask at a step, beside the change, where no lock is met.
fn answer(table: &Table, at: Stamp, ask: &Ask) -> Result<Told, NoMemory>
    requires { at.number < 1099511627777 }
    ensures answer { IfOk result (λ told. told.answer ≡ (serve_free (contents_of table.now) at ask.now).answer) }
    ensures moved { IfOk result (λ told. told.moved ≡ (serve_free (contents_of table.now) at ask.now).moved) }
{
    match ask {
        Ask::Read { dir, name } => Ok(unmoved(read(table, *dir, name))),
        Ask::List { dir } => Ok(unmoved(list(table, *dir)?)),
        Ask::Insert {
            client,
            dir,
            name,
            node,
            ts,
        } => insert(table, *client, *dir, name, *node, *ts),
        Ask::PutDir { .. } => Ok(unmoved(Answer::New(Node::Dir(made(at))))),
        Ask::Settle {
            node: Node::Dir(dir),
        } => Ok(unmoved(settle(table, *dir))),
        Ask::TakeBack {
            client,
            node: Node::Dir(dir),
        } => Ok(unmoved(take_back(table, *client, *dir))),
        _ => Ok(unmoved(Answer::None)),
    }
}

/// What serving the ask at a step gives beside the change, where the lock of this job is met, or none.
pub fn tell(met: Option<JobNo>, table: &Table, at: Stamp, ask: &Ask) -> Result<Told, NoMemory>
    requires { at.number < 1099511627777 }
    ensures answer { IfOk result (λ told. told.answer ≡ (unless_locked met (contents_of table.now) (serve_free (contents_of table.now) at ask.now)).answer) }
    ensures moved { IfOk result (λ told. told.moved ≡ (unless_locked met (contents_of table.now) (serve_free (contents_of table.now) at ask.now)).moved) }
{
    match met {
        Some(job) => Ok(unmoved(Answer::Locked(job))),
        None => answer(table, at, ask),
    }
}
