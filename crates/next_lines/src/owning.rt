//! The lines of the asks that end ownership and clean up.
ghost use Rattle.std.specs.Prelude.{◌≡◌, ℕ};
ghost use Rattle.std.specs.FinMap as map;
ghost use Rattle.next_ids.specs.declared.ids.Stamp.{Stamp};
ghost use Rattle.next_steps.specs.declared.ask.Ask.TheVariants as ask;
ghost use Rattle.next_rules.specs.Places.{serve_shard};
ghost use Rattle.next_rules.specs.Owning.{settle_dir, owner_in, take_back_dir, drop_rec, clear};
ghost use Rattle.next_contents.specs.Shown.{contents_of, place_of};
ghost use Rattle.next_lines.specs.Lines.{served_by, IsFit};

use crate::change::{Change, Line};
use next_contents::Contents;
use next_ids::{Client, DirId, Node};
use next_steps::Answer;

// The client that has put the directory and hasn't settled it.
fn owner_in(contents: &Contents, dir: DirId) -> Option<Client>
    ensures { result ≡ owner_in (map.get (contents_of contents.now).recs dir.0) }
{
    match contents.rec(dir) {
        Some(rec) => rec.owner,
        None => None,
    }
}

// Settle of a directory: the record's owner.
fn settle_dir(contents: &Contents, dir: DirId) -> Line
    ensures line { (at : Stamp) → served_by at (contents_of contents.now) result ≡ settle_dir (contents_of contents.now) dir }
    ensures fit { IsFit (contents_of contents.now) result.change }
{
    match contents.rec(dir) {
        Some(rec) if rec.owner.is_some() => Line::done(Change::Settle(dir)),
        _ => Line::quiet(Answer::None),
    }
}

/// Settle: a directory's owner; the records of files are with the stores.
pub fn settle(contents: &Contents, node: Node) -> Line
    ensures line { (at : Stamp) (moment : ℕ) → served_by at (contents_of contents.now) result ≡ serve_shard (contents_of contents.now) at moment (ask.Settle node) }
    ensures fit { IsFit (contents_of contents.now) result.change }
{
    match node {
        Node::Dir(dir) => settle_dir(contents, dir),
        Node::File(_) => Line::quiet(Answer::None),
    }
}

// TakeBack and DropOwed of a directory: the record's owner is the client.
fn take_back_dir(contents: &Contents, client: Client, dir: DirId) -> Line
    ensures line { (at : Stamp) → served_by at (contents_of contents.now) result ≡ take_back_dir (contents_of contents.now) client dir }
    ensures fit { IsFit (contents_of contents.now) result.change }
{
    match owner_in(contents, dir) {
        Some(owner) if owner.0 == client.0 => Line::done(Change::CutRec(dir)),
        _ => Line::quiet(Answer::None),
    }
}

/// TakeBack and DropOwed: whether the client owns a directory; the records of files are with the stores.
pub fn take_back(contents: &Contents, client: Client, node: Node) -> Line
    ensures line { (at : Stamp) (moment : ℕ) → served_by at (contents_of contents.now) result ≡ serve_shard (contents_of contents.now) at moment (ask.TakeBack client node) }
    ensures owed { (at : Stamp) (moment : ℕ) → served_by at (contents_of contents.now) result ≡ serve_shard (contents_of contents.now) at moment (ask.DropOwed client node) }
    ensures fit { IsFit (contents_of contents.now) result.change }
{
    match node {
        Node::Dir(dir) => take_back_dir(contents, client, dir),
        Node::File(_) => Line::quiet(Answer::None),
    }
}

/// DropRec: the record.
pub fn drop_rec(contents: &Contents, dir: DirId) -> Line
    ensures line { (at : Stamp) → served_by at (contents_of contents.now) result ≡ drop_rec (contents_of contents.now) dir }
    ensures fit { IsFit (contents_of contents.now) result.change }
{
    if contents.rec(dir).is_some() {
        Line::done(Change::CutRec(dir))
    } else {
        Line::quiet(Answer::None)
    }
}

/// Clear: the debt in this shard.
pub fn clear(contents: &Contents, node: Node) -> Line
    ensures line { (at : Stamp) → at.place ≡ place_of contents.now → served_by at (contents_of contents.now) result ≡ clear (contents_of contents.now) at.place node }
    ensures fit { IsFit (contents_of contents.now) result.change }
{
    if contents.debt(node).is_some() {
        Line::done(Change::EndDebt(node))
    } else {
        Line::quiet(Answer::None)
    }
}
