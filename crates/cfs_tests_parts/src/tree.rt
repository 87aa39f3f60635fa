//! The sequential namespace: calls one after the other, with the replies that POSIX's rules give, and its parts.
ghost use Rattle.std.specs.Prelude.{◌≡◌, IsTrue};
ghost use Rattle.cfs_ids.specs.declared.call.Reply.TheVariants.{Moved};
ghost use Rattle.cfs_ids.specs.Namespace.{answer, IsDefined, IsWhole};

use crate::calls::Made::{At, List, Rename, StatRoot, Truncate};
use crate::calls::Told::{Dir, DirStat, File, FileStat, Kept, Moved, Refused, Rows};
use crate::calls::Verb::{Create, Lookup, Mkdir, Rmdir, Stat, Unlink};
use crate::calls::{Made, Told, call_of, named, told_of};
use Row::{Below, Forgets, Makes, Says};
use cfs_ids::Errno::{Eexist, Einval, Eisdir, Enoent, Enotdir, Enotempty, Eperm};
use cfs_ids::{Call, DirId, FileId, Name, NoMemory, Node, Reply, Ts};
use cfs_tree::Namespace;
use std::alloc::Global;

/// A call at a time with its answer, or with the number of what its move makes; whether a file is forgotten; and
/// whether the first directory is the second or above it.
#[derive(Clone, Copy)]
enum Row {
    Says(Ts, Made, Told),
    Makes(Ts, Made, u64),
    Forgets(u64, bool),
    Below(u64, u64, bool),
}

// What is not there is refused.
const ABSENT: [Row; 18] = [
    Says(1, List(0), Rows(0)),
    Says(1, StatRoot, DirStat(0, 2, 0)),
    Says(1, At(Lookup, 0, b'a'), Refused(Enoent)),
    Says(1, At(Lookup, 7, b'a'), Refused(Enoent)),
    Says(1, List(7), Refused(Enoent)),
    Says(1, At(Stat, 0, b'a'), Refused(Enoent)),
    Says(1, At(Stat, 7, b'a'), Refused(Enoent)),
    Says(1, At(Create, 7, b'a'), Refused(Enoent)),
    Says(1, At(Mkdir, 7, b'a'), Refused(Enoent)),
    Says(1, At(Unlink, 0, b'a'), Refused(Enoent)),
    Says(1, At(Unlink, 7, b'a'), Refused(Enoent)),
    Says(1, At(Rmdir, 0, b'a'), Refused(Enoent)),
    Says(1, At(Rmdir, 7, b'a'), Refused(Enoent)),
    Says(1, Truncate(11, 5), Refused(Enoent)),
    Says(1, Rename(0, b'a', 0, b'b'), Refused(Enoent)),
    Says(1, Rename(0, b'a', 0, b'a'), Refused(Enoent)),
    Says(1, Rename(7, b'a', 0, b'b'), Refused(Enoent)),
    Says(1, Rename(0, b'a', 7, b'b'), Refused(Enoent)),
];

// Files are made, cut, unlinked, and then forgotten.
const FILES: [Row; 26] = [
    Makes(3, At(Create, 0, b'a'), 11),
    Says(4, At(Create, 0, b'a'), Refused(Eexist)),
    Says(4, At(Mkdir, 0, b'a'), Refused(Eexist)),
    Says(4, At(Lookup, 0, b'a'), File(11)),
    Says(4, At(Stat, 0, b'a'), FileStat(0, 3)),
    Says(4, StatRoot, DirStat(1, 2, 3)),
    Says(4, List(0), Rows(1)),
    Says(4, At(Rmdir, 0, b'a'), Refused(Enotdir)),
    Says(5, Truncate(11, 100), Moved),
    Says(5, At(Stat, 0, b'a'), FileStat(100, 5)),
    Says(4, Truncate(11, 7), Moved),
    Says(5, At(Stat, 0, b'a'), FileStat(7, 5)),
    Says(5, StatRoot, DirStat(1, 2, 3)),
    Says(6, At(Unlink, 0, b'a'), Moved),
    Says(6, At(Lookup, 0, b'a'), Refused(Enoent)),
    Says(6, At(Stat, 0, b'a'), Refused(Enoent)),
    Says(6, StatRoot, DirStat(0, 2, 6)),
    Says(7, Truncate(11, 9), Moved),
    Says(7, At(Unlink, 0, b'a'), Refused(Enoent)),
    Makes(2, At(Create, 0, b'a'), 12),
    Says(8, StatRoot, DirStat(1, 2, 6)),
    Says(8, At(Stat, 0, b'a'), FileStat(0, 2)),
    Says(8, Truncate(13, 0), Refused(Enoent)),
    Forgets(11, true),
    Says(9, Truncate(11, 0), Refused(Enoent)),
    Says(9, At(Lookup, 0, b'a'), File(12)),
];

// Directories are made and removed.
const DIRECTORIES: [Row; 25] = [
    Makes(1, At(Mkdir, 0, b'd'), 1),
    Says(1, StatRoot, DirStat(1, 3, 1)),
    Says(2, At(Mkdir, 0, b'd'), Refused(Eexist)),
    Says(2, At(Create, 0, b'd'), Refused(Eexist)),
    Says(2, At(Lookup, 0, b'd'), Dir(1)),
    Says(2, At(Stat, 0, b'd'), DirStat(0, 2, 1)),
    Says(2, List(1), Rows(0)),
    Says(2, At(Unlink, 0, b'd'), Refused(Eperm)),
    Makes(3, At(Create, 1, b'a'), 11),
    Says(3, At(Stat, 0, b'd'), DirStat(1, 2, 3)),
    Says(3, StatRoot, DirStat(1, 3, 1)),
    Says(3, At(Rmdir, 0, b'd'), Refused(Enotempty)),
    Makes(4, At(Mkdir, 1, b'e'), 2),
    Says(4, At(Stat, 0, b'd'), DirStat(2, 3, 4)),
    Says(4, List(1), Rows(2)),
    Says(5, At(Rmdir, 1, b'e'), Moved),
    Says(5, List(2), Refused(Enoent)),
    Says(5, At(Create, 2, b'a'), Refused(Enoent)),
    Says(5, At(Stat, 0, b'd'), DirStat(1, 2, 5)),
    Says(6, At(Rmdir, 0, b'd'), Refused(Enotempty)),
    Says(7, At(Unlink, 1, b'a'), Moved),
    Says(8, At(Rmdir, 0, b'd'), Moved),
    Says(8, StatRoot, DirStat(0, 2, 8)),
    Says(8, At(Rmdir, 0, b'd'), Refused(Enoent)),
    Says(8, List(1), Refused(Enoent)),
];

// Files are renamed, and one takes the place of another.
const FILES_RENAMED: [Row; 26] = [
    Makes(1, At(Create, 0, b'a'), 11),
    Makes(1, At(Create, 0, b'b'), 12),
    Makes(2, At(Mkdir, 0, b'd'), 1),
    Makes(3, At(Create, 1, b'c'), 13),
    Says(4, Rename(0, b'a', 0, b'a'), Kept),
    Says(4, StatRoot, DirStat(3, 3, 2)),
    Says(4, Rename(0, b'x', 0, b'a'), Refused(Enoent)),
    Says(4, Rename(0, b'a', 9, b'a'), Refused(Enoent)),
    Says(4, Rename(0, b'a', 0, b'd'), Refused(Eisdir)),
    Says(5, Rename(0, b'a', 1, b'e'), Moved),
    Says(5, At(Lookup, 0, b'a'), Refused(Enoent)),
    Says(5, At(Lookup, 1, b'e'), File(11)),
    Says(5, StatRoot, DirStat(2, 3, 5)),
    Says(5, At(Stat, 0, b'd'), DirStat(2, 2, 5)),
    Says(5, At(Stat, 1, b'e'), FileStat(0, 1)),
    Says(6, Rename(1, b'c', 0, b'b'), Moved),
    Says(6, At(Lookup, 0, b'b'), File(13)),
    Says(6, Truncate(12, 4), Moved),
    Says(6, StatRoot, DirStat(2, 3, 6)),
    Says(6, At(Stat, 0, b'd'), DirStat(1, 2, 6)),
    Says(3, Rename(0, b'b', 0, b'z'), Moved),
    Says(6, StatRoot, DirStat(2, 3, 6)),
    Says(6, At(Lookup, 0, b'z'), File(13)),
    Says(6, List(0), Rows(2)),
    Forgets(12, true),
    Forgets(13, false),
];

// Directories are not renamed into themselves, nor onto what is not an empty directory.
const NOT_BELOW_ITSELF: [Row; 20] = [
    Makes(1, At(Mkdir, 0, b'a'), 1),
    Makes(2, At(Mkdir, 1, b'b'), 2),
    Makes(3, At(Mkdir, 2, b'c'), 3),
    Makes(4, At(Mkdir, 0, b'e'), 4),
    Makes(5, At(Create, 0, b'f'), 11),
    Says(6, Rename(0, b'a', 0, b'a'), Kept),
    Says(6, Rename(0, b'a', 0, b'f'), Refused(Enotdir)),
    Says(6, Rename(0, b'f', 0, b'a'), Refused(Eisdir)),
    Says(6, Rename(0, b'a', 9, b'x'), Refused(Enoent)),
    Says(6, Rename(0, b'e', 0, b'a'), Refused(Enotempty)),
    // Into itself and below, with the new name free.
    Says(6, Rename(0, b'a', 1, b'x'), Refused(Einval)),
    Says(6, Rename(0, b'a', 3, b'x'), Refused(Einval)),
    // Onto its child, which has a name; onto a directory below that has none; onto the one it is in, and one above.
    Says(6, Rename(0, b'a', 1, b'b'), Refused(Enotempty)),
    Says(6, Rename(0, b'a', 2, b'c'), Refused(Einval)),
    Says(6, Rename(1, b'b', 0, b'a'), Refused(Enotempty)),
    Says(6, Rename(2, b'c', 0, b'a'), Refused(Enotempty)),
    Says(6, StatRoot, DirStat(3, 4, 5)),
    Below(1, 3, true),
    Below(3, 3, true),
    Below(3, 1, false),
];

// Renamed directories take what is below along.
const DIRECTORIES_RENAMED: [Row; 26] = [
    Makes(1, At(Mkdir, 0, b'a'), 1),
    Makes(2, At(Mkdir, 1, b'b'), 2),
    Makes(3, At(Mkdir, 2, b'c'), 3),
    Makes(4, At(Mkdir, 0, b'e'), 4),
    Says(7, Rename(0, b'e', 3, b'e'), Moved),
    Says(7, At(Lookup, 3, b'e'), Dir(4)),
    Says(7, StatRoot, DirStat(1, 3, 7)),
    Says(7, At(Stat, 2, b'c'), DirStat(1, 3, 7)),
    Says(8, Rename(1, b'b', 0, b'b'), Moved),
    Says(8, At(Stat, 0, b'a'), DirStat(0, 2, 8)),
    Says(8, At(Stat, 0, b'b'), DirStat(1, 3, 3)),
    Says(8, StatRoot, DirStat(2, 4, 8)),
    // Onto an empty directory, which goes.
    Says(9, Rename(0, b'b', 0, b'a'), Moved),
    Says(9, At(Lookup, 0, b'a'), Dir(2)),
    Says(9, List(1), Refused(Enoent)),
    Says(9, StatRoot, DirStat(1, 3, 9)),
    Says(9, Rename(0, b'a', 4, b'x'), Refused(Einval)),
    Says(10, Rename(3, b'e', 0, b'g'), Moved),
    Says(10, Rename(0, b'a', 4, b'x'), Moved),
    Says(10, At(Lookup, 4, b'x'), Dir(2)),
    Says(10, Rename(0, b'g', 3, b'x'), Refused(Einval)),
    Says(11, At(Rmdir, 2, b'c'), Moved),
    Says(11, At(Rmdir, 0, b'g'), Refused(Enotempty)),
    Says(12, At(Rmdir, 4, b'x'), Moved),
    Says(13, At(Rmdir, 0, b'g'), Moved),
    Says(13, StatRoot, DirStat(0, 2, 13)),
];

// The node that the call of a row makes.
fn node_of(made: Made, number: u64) -> Option<Node> {
    match made {
        At(Create, ..) => Some(Node::File(FileId(number))),
        At(Mkdir, ..) => Some(Node::Dir(DirId(number))),
        _ => None,
    }
}

// Whether the node is one that the call may make, where it moves.
fn fits(namespace: &Namespace, call: &Call, made: Option<Node>) -> bool
    ensures { IsTrue result → answer namespace.now call.now ≡ Moved → IsDefined namespace.now call.now made }
{
    match (call, made) {
        (Call::Create { .. }, Some(Node::File(file))) => namespace.file(file).is_none(),
        (Call::Mkdir { .. }, Some(Node::Dir(dir))) => namespace.directory(dir).is_none(),
        (Call::Unlink { .. }, None) => true,
        (Call::Rmdir { .. }, None) => true,
        (Call::Truncate { .. }, None) => true,
        (Call::Rename { .. }, None) => true,
        _ => false,
    }
}

// The reply to the call, whose move is made if it has one.
fn reply_to(
    namespace: &mut Namespace,
    call: &Call,
    made: Option<Node>,
    time: Ts,
) -> Result<Reply, NoMemory>
    requires { IsWhole namespace.old }
    ensures { IsWhole namespace.new }
{
    let reply = namespace.answer(call)?;
    if let Reply::Moved = &reply {
        if fits(namespace, call, made) {
            namespace.apply(call, made, time)?;
        }
    }
    Ok(reply)
}

// What a call at a time is answered, whose move may make the node.
fn told_at(
    alloc: Global,
    namespace: &mut Namespace,
    time: Ts,
    made: Made,
    node: Option<Node>,
) -> Result<Told, NoMemory>
    requires { IsWhole namespace.old }
    ensures { IsWhole namespace.new }
{
    let call = call_of(alloc, made)?;
    let reply = reply_to(namespace, &call, node, time)?;
    Ok(told_of(&reply))
}

// Whether the namespace does what the row says.
fn is_so(alloc: Global, namespace: &mut Namespace, row: Row) -> Result<bool, NoMemory>
    requires { IsWhole namespace.old }
    ensures { IsWhole namespace.new }
{
    match row {
        Says(time, made, told) => Ok(told_at(alloc, namespace, time, made, None)? == told),
        Makes(time, made, number) => {
            let node = node_of(made, number);
            Ok(told_at(alloc, namespace, time, made, node)? == Moved)
        }
        Forgets(file, told) => Ok(namespace.forget(FileId(file)) == told),
        Below(dir, to, told) => Ok(namespace.is_below(DirId(dir), DirId(to)) == told),
    }
}

// The index of the first row that isn't so.
fn first_otherwise(
    alloc: Global,
    namespace: &mut Namespace,
    rows: &[Row],
) -> Result<Option<usize>, NoMemory>
    requires { IsWhole namespace.old }
    ensures { IsWhole namespace.new }
{
    for (i, row) in rows.iter().enumerate() {
        if !is_so(alloc, namespace, *row)? {
            return Ok(Some(i));
        }
    }
    Ok(None)
}

#[test]
fn calls_are_answered_as_posix_says(rt: HostRuntime) -> Result<(), NoMemory> {
    let tables = [
        ABSENT.as_slice(),
        FILES.as_slice(),
        DIRECTORIES.as_slice(),
        FILES_RENAMED.as_slice(),
        NOT_BELOW_ITSELF.as_slice(),
        DIRECTORIES_RENAMED.as_slice(),
    ];
    for (i, rows) in tables.iter().enumerate() {
        let mut namespace = Namespace::empty_root(rt.alloc())?;
        let otherwise = first_otherwise(rt.alloc(), &mut namespace, rows)?;
        assert!(rt; otherwise.is_none(), "table {i}, row {otherwise:?}");
    }
    Ok(())
}

// Adds a row of the root.
fn add_named(namespace: &mut Namespace, name: Name, node: Node) -> Result<(), NoMemory> {
    if namespace.counts(DirId(0)).is_none() {
        return Ok(());
    }
    namespace.add_row(DirId(0), name, node)
}

/// The root with a file 64 named a and a directory 64 named b, and a file 128 without a name.
pub fn with_parts(alloc: Global) -> Result<Namespace, NoMemory> {
    let mut namespace = Namespace::empty_root(alloc)?;
    add_named(&mut namespace, named(alloc, b'a')?, Node::File(FileId(64)))?;
    add_named(&mut namespace, named(alloc, b'b')?, Node::Dir(DirId(64)))?;
    namespace.add_dir(DirId(64), 4)?;
    namespace.add_file(FileId(64), 0, 3)?;
    namespace.add_file(FileId(128), 2, 5)?;
    Ok(namespace)
}

#[test]
fn parts_are_added_and_read(rt: HostRuntime) -> Result<(), NoMemory> {
    let namespace = with_parts(rt.alloc())?;
    assert!(rt; namespace.counts(DirId(0)) == Some((2, 3)));
    assert!(rt; namespace.next_dir(Some(DirId(0))) == Some((DirId(64), 4)));
    assert!(rt; namespace.next_file(None) == Some((FileId(64), 0, 3)));
    assert!(rt; namespace.next_file(Some(FileId(64))) == Some((FileId(128), 2, 5)));
    let row = namespace.next_row(DirId(0), None);
    assert!(rt; row.is_some_and(|row| row.1 == Node::File(FileId(64))));
    assert!(rt; namespace.is_named(FileId(64)) && !namespace.is_named(FileId(128)));
    assert!(rt; namespace.same(&with_parts(rt.alloc())?));
    assert!(rt; !namespace.same(&Namespace::empty_root(rt.alloc())?));
    Ok(())
}
