//! Whether two namespaces are the same.
ghost use Rattle.std.specs.Prelude.{◌≡◌, ℕ, List, IsTrue, ◌↔◌};
ghost use Rattle.next_ids.specs.declared.ids.Node.{Node};
ghost use Rattle.next_ids.specs.Namespace.{Directory, FileFacts};

use crate::directory::Directory;
use crate::file::FileFacts;
use crate::namespace::Namespace;
use next_ids::{Name, Node};
use next_maps::{NameMap, NumberMap};

fn same_row(name: &Name, node: Node, other: &Name, it: Node) -> bool
    ensures { IsTrue result ↔ (◌≡◌ {A = List ℕ × Node} (name.now, node) (other.now, it)) }
{
    name == other && node == it
}

// Whether the names and their nodes are the same.
pub(crate) fn same_names(names: &NameMap<Node>, others: &NameMap<Node>) -> bool
    ensures { IsTrue result ↔ (names.now ≡ others.now) }
{
    let mut left = others.iter();
    for (name, node) in names.iter() {
        let Some((other, it)) = left.next() else {
            return false;
        };
        if !same_row(name, *node, other, *it) {
            return false;
        }
    }
    left.next().is_none()
}

fn same_dir(dir: u64, directory: &Directory, other: u64, it: &Directory) -> bool
    ensures { IsTrue result ↔ (◌≡◌ {A = ℕ × Directory} (dir, directory.now) (other, it.now)) }
{
    dir == other && directory.same(it)
}

// Whether the directories are the same.
fn same_dirs(dirs: &NumberMap<Directory>, others: &NumberMap<Directory>) -> bool
    ensures { IsTrue result ↔ (dirs.now ≡ others.now) }
{
    let mut left = others.iter();
    for (dir, directory) in dirs.iter() {
        let Some((other, it)) = left.next() else {
            return false;
        };
        if !same_dir(*dir, directory, *other, it) {
            return false;
        }
    }
    left.next().is_none()
}

fn same_file(file: u64, facts: &FileFacts, other: u64, it: &FileFacts) -> bool
    ensures { IsTrue result ↔ (◌≡◌ {A = ℕ × FileFacts} (file, facts.now) (other, it.now)) }
{
    file == other && facts.same(it)
}

// Whether the files are the same.
fn same_files(files: &NumberMap<FileFacts>, others: &NumberMap<FileFacts>) -> bool
    ensures { IsTrue result ↔ (files.now ≡ others.now) }
{
    let mut left = others.iter();
    for (file, facts) in files.iter() {
        let Some((other, it)) = left.next() else {
            return false;
        };
        if !same_file(*file, facts, *other, it) {
            return false;
        }
    }
    left.next().is_none()
}

impl Namespace {
    /// Whether the other namespace is the same.
    pub fn same(&self, other: &Namespace) -> bool
        ensures { IsTrue result ↔ (self.now ≡ other.now) }
    {
        same_dirs(&self.dirs, &other.dirs) && same_files(&self.files, &other.files)
    }
}
