//! The calls of commands that no script has yet, and their replies, worked out by hand from what each call is answered.
use crate::calls::Made::{At, Rename, StatRoot, Truncate};
use crate::calls::Verb::{Lookup, Mkdir, Rmdir, Stat, Unlink};
use crate::calls::{Made, Told, made_of, reply_of, told_of};
use Told::{Busy, Dir, DirStat, File, FileStat, Moved, Refused};
use cfs_ids::Errno::{Eisdir, Enametoolong, Enoent, Enotdir, Enotempty};
use cfs_ids::NoMemory;
use cfs_walk::{Command, Component, Path, Walk};
use std::alloc::Global;
use std::test::Fail;

#[derive(Clone, Copy)]
enum Word {
    Stat,
    Mkdir,
    Unlink,
    Rmdir,
    Truncate,
    Rename,
}

// A command: its word, its path, the path that a rename gives, and how often a call is made. In a path each byte is a
// component of that letter, and + is one of 256 letters.
type Said = (Word, &'static [u8], &'static [u8], u32);

// A command, what its calls are and are answered, and what it is answered itself.
type Row = (Said, &'static [(Made, Told)], Told);

const A: (Made, Told) = (At(Lookup, 0, b'a'), Dir(64));

const B: (Made, Told) = (At(Lookup, 64, b'b'), Dir(65));

const BUSY: (Made, Told) = (At(Lookup, 0, b'a'), Busy(7));

// The last component is in the call, the root has a call of its own, and a truncate is of a file, and to 9 bytes.
const NODES: [Row; 7] = [
    (
        (Word::Stat, b"ab", b"", 1),
        &[A, (At(Stat, 64, b'b'), FileStat(0, 1))],
        FileStat(0, 1),
    ),
    (
        (Word::Stat, b"", b"", 1),
        &[(StatRoot, DirStat(0, 2, 0))],
        DirStat(0, 2, 0),
    ),
    (
        (Word::Unlink, b"ab", b"", 1),
        &[A, (At(Unlink, 64, b'b'), Moved)],
        Moved,
    ),
    (
        (Word::Rmdir, b"ab", b"", 1),
        &[A, (At(Rmdir, 64, b'b'), Refused(Enotempty))],
        Refused(Enotempty),
    ),
    (
        (Word::Truncate, b"ab", b"", 1),
        &[A, (At(Lookup, 64, b'b'), File(5)), (Truncate(5, 9), Moved)],
        Moved,
    ),
    ((Word::Truncate, b"ab", b"", 1), &[A, B], Refused(Eisdir)),
    (
        (Word::Truncate, b"ab", b"", 1),
        &[A, (At(Lookup, 64, b'b'), Refused(Enoent))],
        Refused(Enoent),
    ),
];

// What ends a command on its way.
const ENDS: [Row; 4] = [
    (
        (Word::Stat, b"abc", b"", 1),
        &[A, (At(Lookup, 64, b'b'), Refused(Enoent))],
        Refused(Enoent),
    ),
    (
        (Word::Unlink, b"abc", b"", 1),
        &[A, (At(Lookup, 64, b'b'), File(5))],
        Refused(Enotdir),
    ),
    (
        (Word::Truncate, b"abc", b"", 1),
        &[A, (At(Lookup, 64, b'b'), File(5))],
        Refused(Enotdir),
    ),
    (
        (Word::Truncate, b"abc", b"", 1),
        &[A, (At(Lookup, 64, b'b'), Busy(7))],
        Busy(7),
    ),
];

// A rename walks to both parents in order.
const RENAMES: [Row; 4] = [
    (
        (Word::Rename, b"abc", b"de", 1),
        &[
            A,
            B,
            (At(Lookup, 0, b'd'), Dir(66)),
            (Rename(65, b'c', 66, b'e'), Moved),
        ],
        Moved,
    ),
    (
        (Word::Rename, b"abc", b"de", 1),
        &[A, (At(Lookup, 64, b'b'), File(5))],
        Refused(Enotdir),
    ),
    (
        (Word::Rename, b"abc", b"de", 1),
        &[A, B, (At(Lookup, 0, b'd'), File(5))],
        Refused(Enotdir),
    ),
    (
        (Word::Rename, b"a", b"b", 1),
        &[(Rename(0, b'a', 0, b'b'), Moved)],
        Moved,
    ),
];

// Each call that is busy is made as often as it may.
const TRIES: [Row; 3] = [
    ((Word::Mkdir, b"ab", b"", 1), &[BUSY], Busy(7)),
    ((Word::Mkdir, b"ab", b"", 2), &[BUSY, BUSY], Busy(7)),
    (
        (Word::Mkdir, b"ab", b"", 2),
        &[
            BUSY,
            A,
            (At(Mkdir, 64, b'b'), Busy(7)),
            (At(Mkdir, 64, b'b'), Moved),
        ],
        Moved,
    ),
];

// A component of 256 letters is too long.
const TOO_LONG: [Row; 6] = [
    ((Word::Stat, b"a+", b"", 1), &[], Refused(Enametoolong)),
    ((Word::Unlink, b"a+", b"", 1), &[], Refused(Enametoolong)),
    ((Word::Rmdir, b"a+", b"", 1), &[], Refused(Enametoolong)),
    ((Word::Truncate, b"a+", b"", 1), &[], Refused(Enametoolong)),
    ((Word::Rename, b"a+", b"a", 1), &[], Refused(Enametoolong)),
    ((Word::Rename, b"a", b"a+", 1), &[], Refused(Enametoolong)),
];

// So many times the letter.
fn component_of(alloc: Global, letter: u8, count: usize) -> Result<Component, NoMemory> {
    let mut component = Component::new(alloc);
    for _ in 0..count {
        if letter < b'a' || letter > b'z' || component.push(letter).is_err() {
            return Err(NoMemory);
        }
    }
    Ok(component)
}

// The path of these components, the first 64 of them.
fn path_of(alloc: Global, letters: &[u8]) -> Result<Path, NoMemory> {
    let mut path = Path::new(alloc);
    for letter in letters {
        let component = match *letter {
            b'+' => component_of(alloc, b'b', 256)?,
            letter => component_of(alloc, letter, 1)?,
        };
        if path.len() < 64 && path.push(component).is_err() {
            return Err(NoMemory);
        }
    }
    Ok(path)
}

fn command_of(alloc: Global, said: Said) -> Result<Command, NoMemory> {
    let path = path_of(alloc, said.1)?;
    Ok(match said.0 {
        Word::Stat => Command::Stat(path),
        Word::Mkdir => Command::Mkdir(path),
        Word::Unlink => Command::Unlink(path),
        Word::Rmdir => Command::Rmdir(path),
        Word::Truncate => Command::Truncate(path, 9),
        Word::Rename => Command::Rename(path, path_of(alloc, said.2)?),
    })
}

// Whether the walk goes on by this call.
fn makes(walk: &Walk, made: Made) -> Result<bool, NoMemory> {
    let call = walk.next_call()?;
    Ok(call.is_some_and(|call| made_of(&call) == made))
}

// Whether the walk has ended with this reply.
fn ends(walk: &Walk, end: Told) -> Result<bool, NoMemory> {
    let call = walk.next_call()?;
    Ok(call.is_none() && walk.reply().is_some_and(|reply| told_of(reply) == end))
}

// Whether the command makes these calls, where each is answered so, and no other, and is then answered so itself.
fn goes(alloc: Global, row: Row) -> Result<bool, NoMemory> {
    let (said, steps, end) = row;
    let command = command_of(alloc, said)?;
    if said.3 == 0 || !command.is_in_form() {
        return Ok(false);
    }
    let mut walk = Walk::start(alloc, &command, said.3)?;
    for (made, told) in steps {
        if walk.reply().is_some() || !makes(&walk, *made)? {
            return Ok(false);
        }
        walk.hear(&reply_of(alloc, *told)?)?;
    }
    ends(&walk, end)
}

// The index of the first row whose command goes otherwise.
fn first_otherwise(alloc: Global, rows: &[Row]) -> Result<Option<usize>, NoMemory> {
    for (i, row) in rows.iter().enumerate() {
        if !goes(alloc, *row)? {
            return Ok(Some(i));
        }
    }
    Ok(None)
}

#[test]
fn commands_make_their_calls_and_have_their_replies(rt: HostRuntime) -> Result<(), Fail> {
    let tables = [
        NODES.as_slice(),
        ENDS.as_slice(),
        RENAMES.as_slice(),
        TRIES.as_slice(),
        TOO_LONG.as_slice(),
    ];
    for (i, rows) in tables.iter().enumerate() {
        let otherwise = first_otherwise(rt.alloc(), rows)?;
        assert!(rt; otherwise.is_none(), "table {i}, row {otherwise:?}");
    }
    Ok(())
}
