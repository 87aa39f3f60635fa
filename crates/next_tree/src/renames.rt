//! What the namespace answers to a rename.
ghost use Rattle.std.specs.Prelude.{◌≡◌, if◌then◌else◌};
ghost use Rattle.std.specs.FinMap as map;
ghost use Rattle.next_ids.specs.Namespace.{renamed, is_one_name, onto, moves_out, is_empty, is_below, node_at, IsWhole};

use crate::namespace::Namespace;
use crate::rows::parent_of;
use next_ids::{DirId, Errno, Name, Node, Reply};

// Whether the two names are one.
fn is_one_name(dir: DirId, name: &Name, to_dir: DirId, to_name: &Name) -> bool
    ensures { result ≡ is_one_name dir name.now to_dir to_name.now }
{
    dir == to_dir && name == to_name
}

impl Namespace {
    pub(crate) fn answer_rename(
        &self,
        dir: DirId,
        name: &Name,
        to_dir: DirId,
        to_name: &Name,
    ) -> Reply
        requires { IsWhole self.now }
        ensures { result ≡ renamed self.now dir name.now to_dir to_name.now (node_at (map.get self.now.dirs dir.0) name.now) }
    {
        let Some(node) = self.node_at(dir, name) else {
            return Reply::Refused(Errno::Enoent);
        };
        if is_one_name(dir, name, to_dir, to_name) {
            return Reply::Kept;
        }
        match self.dirs.get(to_dir.0) {
            Some(directory) => {
                let full = dir != to_dir && directory.is_full();
                self.answer_onto(to_dir, full, node, directory.get(to_name))
            }
            None => Reply::Refused(Errno::Enoent),
        }
    }

    // Whether the node may take a name of the directory, which that other node has. A full directory has no link for it.
    fn answer_onto(&self, to_dir: DirId, full: bool, node: Node, other: Option<Node>) -> Reply
        requires { IsWhole self.now }
        ensures { result ≡ onto self.now to_dir full node other }
    {
        match (node, other) {
            (Node::File(_), Some(Node::Dir(_))) => Reply::Refused(Errno::Eisdir),
            (Node::File(_), _) => Reply::Moved,
            (Node::Dir(_), Some(Node::File(_))) => Reply::Refused(Errno::Enotdir),
            (Node::Dir(dir), Some(Node::Dir(old))) => self.answer_replacing(to_dir, dir, old),
            (Node::Dir(_), None) if full => Reply::Refused(Errno::Emlink),
            (Node::Dir(dir), None) => self.answer_moving(to_dir, dir),
        }
    }

    // Whether the directory may replace another one in `to_dir`.
    fn answer_replacing(&self, to_dir: DirId, dir: DirId, old: DirId) -> Reply
        requires { IsWhole self.now }
        ensures { result ≡ (if is_empty (map.get self.now.dirs old.0) then moves_out self.now dir to_dir else Reply.Refused Errno.Enotempty) }
    {
        if !self.is_empty(old) {
            return Reply::Refused(Errno::Enotempty);
        }
        self.answer_moving(to_dir, dir)
    }

    // Whether the directory may come to lie in `to_dir`.
    fn answer_moving(&self, to_dir: DirId, dir: DirId) -> Reply
        requires { IsWhole self.now }
        ensures { result ≡ moves_out self.now dir to_dir }
    {
        if self.is_below(dir, to_dir) {
            return Reply::Refused(Errno::Einval);
        }
        Reply::Moved
    }

    /// Whether the directory `to` is `from` or lies below it. The way goes upward, from `to` to the directory whose list
    /// names it, and on from there, each found by a search through the lists. In a whole namespace it comes to the root
    /// and visits no directory twice, so it ends after at most as many steps as there are directories. It takes no
    /// memory.
    pub fn is_below(&self, from: DirId, to: DirId) -> bool
        requires { IsWhole self.now }
        ensures { result ≡ is_below self.now from.0 to.0 }
    {
        let mut at = to;
        for _ in 0..self.dirs.len() {
            if at == from {
                return true;
            }
            match parent_of(&self.dirs, at) {
                Some(parent) => at = parent,
                None => return false,
            }
        }
        at == from
    }
}
