//! A change of a directory's attributes, with the debt that it leaves.
ghost use Rattle.std.specs.Prelude.{◌≡◌, OnOk, OnErr};
ghost use Rattle.next_rules.specs.Changes.{leave_debt, leave_debts};
ghost use Rattle.next_table.specs.Records.{change_rec, with_delta};
ghost use Rattle.next_contents.specs.Shown.{contents_of, place_of};
ghost use Rattle.next_lines.specs.Lines.{one_or_none};

use crate::undo::undo_debt;
use next_contents::Contents;
use next_ids::{Actor, Delta, DirId, NoMemory, Node, Stamp};
use next_steps::Debt;

// Leaves the change of a directory's attributes, and a debt for the node.
fn leave_both(
    contents: &mut Contents,
    at: Stamp,
    dir: DirId,
    delta: Delta,
    owner: Actor,
    node: Node,
) -> Result<(), NoMemory>
    requires { at.place ≡ place_of contents.old }
    ensures ok { OnOk result (contents_of contents.new ≡ leave_debt (change_rec (contents_of contents.old) dir (with_delta delta)) owner at node) }
    ensures err { OnErr result (contents_of contents.new ≡ contents_of contents.old) }
    ensures place { place_of contents.new ≡ place_of contents.old }
{
    let before = contents.set_debt(node, Debt { owner, stamp: at })?;
    match contents.push_delta(dir, delta) {
        Ok(()) => Ok(()),
        Err(want) => {
            undo_debt(contents, node, before);
            Err(want)
        }
    }
}

/// Leaves the change of a directory's attributes, and a debt for the node that lost its name, where there is one. The
/// Err is want of memory: the shard is as before.
pub fn leave(
    contents: &mut Contents,
    at: Stamp,
    dir: DirId,
    delta: Delta,
    owner: Actor,
    lost: Option<Node>,
) -> Result<(), NoMemory>
    requires { at.place ≡ place_of contents.old }
    ensures ok { OnOk result (contents_of contents.new ≡ leave_debts (change_rec (contents_of contents.old) dir (with_delta delta)) owner at (one_or_none lost)) }
    ensures err { OnErr result (contents_of contents.new ≡ contents_of contents.old) }
    ensures place { place_of contents.new ≡ place_of contents.old }
{
    match lost {
        Some(node) => leave_both(contents, at, dir, delta, owner, node),
        None => contents.push_delta(dir, delta),
    }
}
