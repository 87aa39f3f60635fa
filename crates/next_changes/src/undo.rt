//! How what was set in a shard is undone. None of it takes memory, since what stood at the key stands there again.
ghost use Rattle.std.specs.Prelude.{◌≡◌, IsSome};
ghost use Rattle.std.specs.FinMap as map;
ghost use Rattle.next_ids.specs.declared.ids.Node.{Node};
ghost use Rattle.next_ids.specs.declared.ids.Stamp.{Stamp};
ghost use Rattle.next_ids.specs.Maps.{row_key};
ghost use Rattle.next_steps.specs.declared.contents.RowLock.{RowLock};
ghost use Rattle.next_steps.specs.declared.contents.Debt.{Debt};
ghost use Rattle.next_rules.specs.Contents.{Shard, debt_key};
ghost use Rattle.next_rules.specs.Changes.{set_row, set_lock};
ghost use Rattle.next_contents.specs.Shown.{contents_of, place_of};

use next_contents::Contents;
use next_ids::{DirId, Name, Node};
use next_steps::{Debt, Row, RowLock};

/// The row that was set at the name is undone, where this one stood there before.

pub fn undo_row(contents: &mut Contents, dir: DirId, name: Name, before: Option<Row>)
    requires { IsSome (map.get (contents_of contents.old).rows (row_key dir name)) }
    ensures contents { (s : Shard) (node : Node) (at : Stamp) → contents_of contents.old ≡ set_row s dir name node at → before ≡ map.get s.rows (row_key dir name) → contents_of contents.new ≡ s }
    ensures place { place_of contents.new ≡ place_of contents.old }
{
    match before {
        Some(row) => {
            let _ = contents.set_row(dir, name, row.node, row.stamp);
        }
        None => {
            let _ = contents.cut_row(dir, &name);
        }
    }
}

/// The lock that was set on the name is undone, where this one stood there before.

pub fn undo_lock(contents: &mut Contents, dir: DirId, name: Name, before: Option<RowLock>)
    requires { IsSome (map.get (contents_of contents.old).locks (row_key dir name)) }
    ensures contents { (s : Shard) (lock : RowLock) → contents_of contents.old ≡ set_lock s dir name lock → before ≡ map.get s.locks (row_key dir name) → contents_of contents.new ≡ s }
    ensures place { place_of contents.new ≡ place_of contents.old }
{
    match before {
        Some(lock) => {
            let _ = contents.set_lock(dir, name, lock);
        }
        None => {
            let _ = contents.end_lock(dir, &name);
        }
    }
}

/// The debt that was set for the node is undone, where this one stood there before.

pub fn undo_debt(contents: &mut Contents, node: Node, before: Option<Debt>)
    requires { IsSome (map.get (contents_of contents.old).debts (debt_key (place_of contents.old) node)) }
    ensures contents { (s : Shard) (debt : Debt) → contents_of contents.old ≡ record s { debts = map.insert s.debts (debt_key (place_of contents.old) node) debt } → before ≡ map.get s.debts (debt_key (place_of contents.old) node) → contents_of contents.new ≡ s }
    ensures place { place_of contents.new ≡ place_of contents.old }
{
    match before {
        Some(debt) => {
            let _ = contents.set_debt(node, debt);
        }
        None => {
            let _ = contents.end_debt(node);
        }
    }
}
