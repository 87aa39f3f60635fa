//! The lines of a tree.
ghost use Rattle.std.specs.Prelude.{OnOk, flat_map, Some};
ghost use Rattle.std.specs.FinMap as map;
ghost use Rattle.next_io.specs.Causes.{HasCause};
ghost use Rattle.next_print.specs.Passing.{Adds, AddsFront};
ghost use Rattle.next_print.specs.NamedFiles.{AreNamed};
ghost use Rattle.next_print.specs.Trees.{directory_end, file_end, node_end, root_line, row_start, row_line, rows_of, tree_lines, file_start, file_line, unnamed_line, unnamed_lines};

use crate::named::NamedFiles;
use crate::output::{Page, Piece, put, put_all};
use Piece::{Number, Text};
use next_ids::{DirId, FileId, Name, Node};
use next_io::{Failed, Sink};
use next_tree::{Directory, FileFacts, Namespace};

#[tactic(auto, using(crate::proofs::Passed::passing), unfolding(crate::specs::Trees::directory_end))]
fn put_directory<K: Sink>(
    sink: &mut K,
    page: &mut Page,
    directory: &Directory,
) -> Result<(), Failed>
    ensures ok { OnOk result (Adds (K.taken sink.old) page.old.items (K.taken sink.new) page.new.items (directory_end (Some directory.now))) }
    ensures front { AddsFront (K.taken sink.old) page.old.items (K.taken sink.new) (directory_end (Some directory.now)) }
    ensures cause { HasCause (K.faults sink.old) (K.faults sink.new) result }
{
    put_all(
        sink,
        page,
        &[
            Text(b"children="),
            Number(directory.children()),
            Text(b" links="),
            Number(directory.links()),
            Text(b" time="),
            Number(directory.time().number),
            Text(b"\n"),
        ],
    )
}

#[tactic(auto, using(crate::proofs::Passed::passing), unfolding(crate::specs::Trees::directory_end))]
fn put_directory_at<K: Sink>(
    sink: &mut K,
    page: &mut Page,
    tree: &Namespace,
    dir: DirId,
) -> Result<(), Failed>
    ensures ok { OnOk result (Adds (K.taken sink.old) page.old.items (K.taken sink.new) page.new.items (directory_end (map.get tree.now.dirs dir.0))) }
    ensures front { AddsFront (K.taken sink.old) page.old.items (K.taken sink.new) (directory_end (map.get tree.now.dirs dir.0)) }
    ensures cause { HasCause (K.faults sink.old) (K.faults sink.new) result }
{
    match tree.directory(dir) {
        Some(directory) => put_directory(sink, page, directory),
        None => put(sink, page, b"children=0 links=0 time=0\n"),
    }
}

#[tactic(auto, using(crate::proofs::Passed::passing), unfolding(crate::specs::Trees::file_end))]
fn put_facts<K: Sink>(sink: &mut K, page: &mut Page, facts: &FileFacts) -> Result<(), Failed>
    ensures ok { OnOk result (Adds (K.taken sink.old) page.old.items (K.taken sink.new) page.new.items (file_end (Some facts.now))) }
    ensures front { AddsFront (K.taken sink.old) page.old.items (K.taken sink.new) (file_end (Some facts.now)) }
    ensures cause { HasCause (K.faults sink.old) (K.faults sink.new) result }
{
    put_all(
        sink,
        page,
        &[
            Text(b"size="),
            Number(facts.size()),
            Text(b" time="),
            Number(facts.time().number),
            Text(b"\n"),
        ],
    )
}

#[tactic(auto, using(crate::proofs::Passed::passing), unfolding(crate::specs::Trees::file_end))]
fn put_file_at<K: Sink>(
    sink: &mut K,
    page: &mut Page,
    tree: &Namespace,
    file: FileId,
) -> Result<(), Failed>
    ensures ok { OnOk result (Adds (K.taken sink.old) page.old.items (K.taken sink.new) page.new.items (file_end (map.get tree.now.files file.0))) }
    ensures front { AddsFront (K.taken sink.old) page.old.items (K.taken sink.new) (file_end (map.get tree.now.files file.0)) }
    ensures cause { HasCause (K.faults sink.old) (K.faults sink.new) result }
{
    match tree.file(file) {
        Some(facts) => put_facts(sink, page, facts),
        None => put(sink, page, b"size=0 time=0\n"),
    }
}

#[tactic(auto, using(crate::proofs::Passed::passing))]
fn put_node_at<K: Sink>(
    sink: &mut K,
    page: &mut Page,
    tree: &Namespace,
    node: Node,
) -> Result<(), Failed>
    ensures ok { OnOk result (Adds (K.taken sink.old) page.old.items (K.taken sink.new) page.new.items (node_end tree.now node)) }
    ensures front { AddsFront (K.taken sink.old) page.old.items (K.taken sink.new) (node_end tree.now node) }
    ensures cause { HasCause (K.faults sink.old) (K.faults sink.new) result }
{
    match node {
        Node::Dir(dir) => put_directory_at(sink, page, tree, dir),
        Node::File(file) => put_file_at(sink, page, tree, file),
    }
}

#[tactic(auto, using(crate::proofs::Passed::passing), unfolding(crate::specs::Trees::root_line))]
fn put_root<K: Sink>(sink: &mut K, page: &mut Page, tree: &Namespace) -> Result<(), Failed>
    ensures ok { OnOk result (Adds (K.taken sink.old) page.old.items (K.taken sink.new) page.new.items (root_line tree.now)) }
    ensures front { AddsFront (K.taken sink.old) page.old.items (K.taken sink.new) (root_line tree.now) }
    ensures cause { HasCause (K.faults sink.old) (K.faults sink.new) result }
{
    put(sink, page, b"t 0 / d0 ")?;
    put_directory_at(sink, page, tree, DirId(0))
}

#[tactic(auto, using(crate::proofs::Passed::passing), unfolding(crate::specs::Trees::row_start))]
fn put_row_start<K: Sink>(
    sink: &mut K,
    page: &mut Page,
    dir: u64,
    name: &Name,
    node: Node,
) -> Result<(), Failed>
    ensures ok { OnOk result (Adds (K.taken sink.old) page.old.items (K.taken sink.new) page.new.items (row_start dir (name.now, node))) }
    ensures front { AddsFront (K.taken sink.old) page.old.items (K.taken sink.new) (row_start dir (name.now, node)) }
    ensures cause { HasCause (K.faults sink.old) (K.faults sink.new) result }
{
    put_all(
        sink,
        page,
        &[
            Text(b"t "),
            Number(dir),
            Text(b" "),
            Text(name.as_bytes()),
            Text(b" "),
            Piece::Node(Some(node)),
            Text(b" "),
        ],
    )
}

#[tactic(auto, using(crate::proofs::Passed::passing), unfolding(crate::specs::Trees::row_line))]
fn put_row<K: Sink>(
    sink: &mut K,
    page: &mut Page,
    tree: &Namespace,
    dir: u64,
    name: &Name,
    node: Node,
) -> Result<(), Failed>
    ensures ok { OnOk result (Adds (K.taken sink.old) page.old.items (K.taken sink.new) page.new.items (row_line tree.now dir (name.now, node))) }
    ensures front { AddsFront (K.taken sink.old) page.old.items (K.taken sink.new) (row_line tree.now dir (name.now, node)) }
    ensures cause { HasCause (K.faults sink.old) (K.faults sink.new) result }
{
    put_row_start(sink, page, dir, name, node)?;
    put_node_at(sink, page, tree, node)
}

#[tactic(auto, using(crate::proofs::Passed::passing), unfolding(crate::specs::Trees::rows_of))]
fn put_rows<K: Sink>(
    sink: &mut K,
    page: &mut Page,
    tree: &Namespace,
    dir: u64,
    directory: &Directory,
) -> Result<(), Failed>
    ensures ok { OnOk result (Adds (K.taken sink.old) page.old.items (K.taken sink.new) page.new.items (rows_of tree.now (dir, directory.now))) }
    ensures front { AddsFront (K.taken sink.old) page.old.items (K.taken sink.new) (rows_of tree.now (dir, directory.now)) }
    ensures cause { HasCause (K.faults sink.old) (K.faults sink.new) result }
{
    for (name, node) in directory.iter() {
        put_row(sink, page, tree, dir, name, *node)?;
    }
    Ok(())
}

#[tactic(auto, using(crate::proofs::Passed::passing))]
fn put_dirs<K: Sink>(sink: &mut K, page: &mut Page, tree: &Namespace) -> Result<(), Failed>
    ensures ok { OnOk result (Adds (K.taken sink.old) page.old.items (K.taken sink.new) page.new.items (flat_map (rows_of tree.now) (map.entries tree.now.dirs))) }
    ensures front { AddsFront (K.taken sink.old) page.old.items (K.taken sink.new) (flat_map (rows_of tree.now) (map.entries tree.now.dirs)) }
    ensures cause { HasCause (K.faults sink.old) (K.faults sink.new) result }
{
    for (dir, directory) in tree.dirs() {
        put_rows(sink, page, tree, *dir, directory)?;
    }
    Ok(())
}

/// Writes the line of the root and the lines of all rows. After `Failed` a front of them was taken.
#[tactic(auto, using(crate::proofs::Passed::passing), unfolding(crate::specs::Trees::tree_lines))]
pub(crate) fn put_tree<K: Sink>(
    sink: &mut K,
    page: &mut Page,
    tree: &Namespace,
) -> Result<(), Failed>
    ensures ok { OnOk result (Adds (K.taken sink.old) page.old.items (K.taken sink.new) page.new.items (tree_lines tree.now)) }
    ensures front { AddsFront (K.taken sink.old) page.old.items (K.taken sink.new) (tree_lines tree.now) }
    ensures cause { HasCause (K.faults sink.old) (K.faults sink.new) result }
{
    put_root(sink, page, tree)?;
    put_dirs(sink, page, tree)
}

#[tactic(auto, using(crate::proofs::Passed::passing), unfolding(crate::specs::Trees::file_start))]
fn put_file_start<K: Sink>(sink: &mut K, page: &mut Page, file: u64) -> Result<(), Failed>
    ensures ok { OnOk result (Adds (K.taken sink.old) page.old.items (K.taken sink.new) page.new.items (file_start file)) }
    ensures front { AddsFront (K.taken sink.old) page.old.items (K.taken sink.new) (file_start file) }
    ensures cause { HasCause (K.faults sink.old) (K.faults sink.new) result }
{
    let node = Node::File(FileId(file));
    put_all(
        sink,
        page,
        &[Text(b"u "), Piece::Node(Some(node)), Text(b" ")],
    )
}

#[tactic(auto, using(crate::proofs::Passed::passing), unfolding(crate::specs::Trees::file_line))]
fn put_file<K: Sink>(
    sink: &mut K,
    page: &mut Page,
    file: u64,
    facts: &FileFacts,
) -> Result<(), Failed>
    ensures ok { OnOk result (Adds (K.taken sink.old) page.old.items (K.taken sink.new) page.new.items (file_line (file, facts.now))) }
    ensures front { AddsFront (K.taken sink.old) page.old.items (K.taken sink.new) (file_line (file, facts.now)) }
    ensures cause { HasCause (K.faults sink.old) (K.faults sink.new) result }
{
    put_file_start(sink, page, file)?;
    put_facts(sink, page, facts)
}

#[tactic(auto, using(crate::proofs::Passed::passing), unfolding(crate::specs::Trees::unnamed_line))]
fn put_unnamed_file<K: Sink>(
    sink: &mut K,
    page: &mut Page,
    tree: &Namespace,
    named: &NamedFiles,
    file: u64,
    facts: &FileFacts,
) -> Result<(), Failed>
    requires { AreNamed named.now tree.now }
    ensures ok { OnOk result (Adds (K.taken sink.old) page.old.items (K.taken sink.new) page.new.items (unnamed_line tree.now (file, facts.now))) }
    ensures front { AddsFront (K.taken sink.old) page.old.items (K.taken sink.new) (unnamed_line tree.now (file, facts.now)) }
    ensures cause { HasCause (K.faults sink.old) (K.faults sink.new) result }
{
    if named.has(FileId(file)) {
        Ok(())
    } else {
        put_file(sink, page, file, facts)
    }
}

/// Writes the lines of the files that no list names; `named` are the others. After `Failed` a front of them was taken.
#[tactic(auto, using(crate::proofs::Passed::passing), unfolding(crate::specs::Trees::unnamed_lines))]
pub(crate) fn put_unnamed<K: Sink>(
    sink: &mut K,
    page: &mut Page,
    tree: &Namespace,
    named: &NamedFiles,
) -> Result<(), Failed>
    requires { AreNamed named.now tree.now }
    ensures ok { OnOk result (Adds (K.taken sink.old) page.old.items (K.taken sink.new) page.new.items (unnamed_lines tree.now)) }
    ensures front { AddsFront (K.taken sink.old) page.old.items (K.taken sink.new) (unnamed_lines tree.now) }
    ensures cause { HasCause (K.faults sink.old) (K.faults sink.new) result }
{
    for (file, facts) in tree.files() {
        put_unnamed_file(sink, page, tree, named, *file, facts)?;
    }
    Ok(())
}
