//! The answers to the asks that read.
ghost use Rattle.std.specs.Prelude.{◌≡◌, IfOk, Some};
ghost use Rattle.std.specs.FinMap as map;
ghost use Rattle.next_ids.specs.Attributes.{CanFold};
ghost use Rattle.next_steps.specs.declared.contents.DirRec.{DirRec};
ghost use Rattle.next_ids.specs.Maps.{row_key};
ghost use Rattle.next_rules.specs.Contents.{attr_of};
ghost use Rattle.next_rules.specs.Changes.{node_in};
ghost use Rattle.next_rules.specs.Reading.{is_back, read, list, look};
ghost use Rattle.next_rules.specs.Locking.{up};
ghost use Rattle.next_rules.specs.Strays.{names_answer};
ghost use Rattle.next_contents.specs.Shown.{contents_of};

use crate::locks::{holder, list_lock, source_at};
use next_contents::Contents;
use next_ids::{DirAttr, DirId, Name, NoMemory, Node, fold};
use next_steps::{Answer, DirRec};

/// Whether the record's directory is named so.
pub fn is_named(rec: &DirRec, dir: DirId, name: &Name) -> bool
    ensures { result ≡ is_back rec.now.back (Some (dir, name.now)) }
{
    match &rec.back {
        Some((own_dir, own_name)) => own_dir.0 == dir.0 && own_name == name,
        None => false,
    }
}

// Whether the record's directory is named so, or nowhere.
fn is_back(rec: &DirRec, back: &Option<(DirId, Name)>) -> bool
    ensures { result ≡ is_back rec.now.back back.now }
{
    match back {
        Some((dir, name)) => is_named(rec, *dir, name),
        None => rec.back.is_none(),
    }
}

/// The attributes by a record.
pub fn attr_of(rec: &DirRec) -> DirAttr
    requires { CanFold rec.now.base rec.now.pending }
    ensures { result ≡ attr_of rec.now }
{
    fold(rec.base, rec.pending.as_slice())
}

/// The node that the name has. None comes exactly where there is no row.
pub fn node_at(contents: &Contents, dir: DirId, name: &Name) -> Option<Node>
    ensures { result ≡ node_in (map.get (contents_of contents.now).rows (row_key dir name.now)) }
{
    match contents.row(dir, name) {
        Some(row) => Some(row.node),
        None => None,
    }
}

/// Read: a Source lock at the name, the row.
pub fn read(contents: &Contents, dir: DirId, name: &Name) -> Answer
    ensures { result ≡ read (contents_of contents.now) dir name.now }
{
    if let Some(job) = source_at(contents, dir, name) {
        return Answer::Locked(job);
    }
    match contents.row(dir, name) {
        Some(row) => Answer::Found(row.node, row.stamp),
        None => Answer::Absent,
    }
}

/// List: the record, its mark, a lock on it or a Source lock in the directory.
pub fn list(contents: &Contents, dir: DirId) -> Result<Answer, NoMemory>
    ensures { IfOk result (λ answer. answer ≡ list (contents_of contents.now) dir) }
{
    let Some(rec) = contents.rec(dir) else {
        return Ok(Answer::NoDir);
    };
    if let Some(note) = &rec.mark {
        return Ok(Answer::Leaving(note.copy()?));
    }
    match list_lock(contents, dir) {
        Some(job) => Ok(Answer::Locked(job)),
        None => Ok(Answer::Rows(contents.rows_of(dir)?)),
    }
}

/// Look: the record, a lock on it, whether it is named so, its mark, a Source lock in the directory.
pub fn look(
    contents: &Contents,
    dir: DirId,
    back: &Option<(DirId, Name)>,
) -> Result<Answer, NoMemory>
    requires { (r : DirRec) → map.get (contents_of contents.now).recs dir.0 ≡ Some r → CanFold r.base r.pending }
    ensures { IfOk result (λ answer. answer ≡ look (contents_of contents.now) dir back.now) }
{
    let Some(rec) = contents.rec(dir) else {
        return Ok(Answer::NoDir);
    };
    if let Some(job) = holder(rec) {
        return Ok(Answer::Locked(job));
    }
    if !is_back(rec, back) {
        return Ok(Answer::Moved);
    }
    if let Some(note) = &rec.mark {
        return Ok(Answer::Leaving(note.copy()?));
    }
    match contents.source_in(dir) {
        Some(job) => Ok(Answer::Locked(job)),
        None => Ok(Answer::Attr(attr_of(rec))),
    }
}

/// Up: the directory in which the directory is named.
pub fn up(contents: &Contents, dir: DirId) -> Answer
    ensures { result ≡ up (contents_of contents.now) dir }
{
    let Some(rec) = contents.rec(dir) else {
        return Answer::NoDir;
    };
    match &rec.back {
        Some((parent, _)) => Answer::Parent(*parent),
        None => Answer::Top,
    }
}

/// Names: a row of the directory, locked or not, names the node.
pub fn names(contents: &Contents, dir: DirId, node: Node) -> Answer
    ensures { result ≡ names_answer (contents_of contents.now) dir node }
{
    if contents.names_node(dir, node) {
        Answer::Yes
    } else {
        Answer::No
    }
}
