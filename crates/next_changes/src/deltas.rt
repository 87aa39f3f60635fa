//! The change of a directory's attributes.
ghost use Rattle.std.specs.Prelude.{◌≡◌, ◌++◌, pos, ◌-ℤ◌, length};
ghost use Rattle.next_ids.specs.Maps.{how_many};
ghost use Rattle.next_ids.specs.Namespace.{is_dir};
ghost use Rattle.next_rules.specs.Changes.{delta_of};
ghost use Rattle.next_lines.specs.Lines.{one_or_none};

use next_ids::{Delta, Node, Ts};

// The rows of the node.
fn count(node: Option<Node>) -> i32
    ensures { result ≡ pos (length (one_or_none node)) }
{
    match node {
        Some(_) => 1,
        None => 0,
    }
}

// Those of them that name a directory.
fn count_dirs(node: Option<Node>) -> i32
    ensures { result ≡ pos (how_many is_dir (one_or_none node)) }
{
    match node {
        Some(Node::Dir(_)) => 1,
        _ => 0,
    }
}

// By how many rows there are more.
#[tactic(auto, using(crate::proofs::Counting::counting))]
fn rows(come: Option<Node>, gone: Option<Node>, more: Option<Node>) -> i32
    ensures { result ≡ pos (length (one_or_none come)) -ℤ pos (length (one_or_none gone ++ one_or_none more)) }
{
    count(come) - count(gone) - count(more)
}

// By how many of those that name a directory there are more.
#[tactic(auto, using(crate::proofs::Counting::counting))]
fn dirs(come: Option<Node>, gone: Option<Node>, more: Option<Node>) -> i32
    ensures { result ≡ pos (how_many is_dir (one_or_none come)) -ℤ pos (how_many is_dir (one_or_none gone ++ one_or_none more)) }
{
    count_dirs(come) - count_dirs(gone) - count_dirs(more)
}

/// The change once a row of the node has come, and those of one node or two have gone.
pub fn delta(come: Option<Node>, gone: Option<Node>, more: Option<Node>, ts: Ts) -> Delta
    ensures { result ≡ delta_of (one_or_none come) (one_or_none gone ++ one_or_none more) ts }
{
    Delta {
        children: rows(come, gone, more),
        subdirs: dirs(come, gone, more),
        time: ts,
    }
}
