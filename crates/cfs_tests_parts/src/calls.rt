//! Calls and replies as rows of tables.
use cfs_ids::{Call, DirId, Errno, FileId, JobNo, Name, NoMemory, Node, Reply, RowList};
use std::alloc::Global;

/// What a call does at a name of a directory.
#[derive(Clone, Copy, PartialEq, Eq)]
pub(crate) enum Verb {
    Lookup,
    Stat,
    Create,
    Mkdir,
    Unlink,
    Rmdir,
}

/// A call on directories and files by their numbers, with names of one letter.
#[derive(Clone, Copy, PartialEq, Eq)]
pub(crate) enum Made {
    At(Verb, u64, u8),
    List(u64),
    StatRoot,
    Truncate(u64, u64),
    Rename(u64, u8, u64, u8),
}

/// What a call or a command is answered. Rows are seen by their count.
#[derive(Clone, Copy, PartialEq, Eq)]
pub(crate) enum Told {
    Moved,
    Kept,
    Dir(u64),
    File(u64),
    Rows(usize),
    DirStat(u64, u64, u64),
    FileStat(u64, u64),
    Refused(Errno),
    Busy(u64),
}

/// The name of one letter.
pub(crate) fn named(alloc: Global, letter: u8) -> Result<Name, NoMemory> {
    match Name::read(alloc, &[letter]) {
        Ok(name) => Ok(name),
        Err(_) => Err(NoMemory),
    }
}

// The letter of a name, or a byte that is none.
fn letter_of(name: &Name) -> u8 {
    match name.as_bytes() {
        [letter] => *letter,
        _ => b'/',
    }
}

// The call at the name of a directory.
fn call_at(verb: Verb, dir: DirId, name: Name) -> Call {
    match verb {
        Verb::Lookup => Call::Lookup { dir, name },
        Verb::Stat => Call::Stat { dir, name },
        Verb::Create => Call::Create { dir, name },
        Verb::Mkdir => Call::Mkdir { dir, name },
        Verb::Unlink => Call::Unlink { dir, name },
        Verb::Rmdir => Call::Rmdir { dir, name },
    }
}

/// The call of a row.
pub(crate) fn call_of(alloc: Global, made: Made) -> Result<Call, NoMemory> {
    match made {
        Made::At(verb, dir, letter) => Ok(call_at(verb, DirId(dir), named(alloc, letter)?)),
        Made::List(dir) => Ok(Call::List { dir: DirId(dir) }),
        Made::StatRoot => Ok(Call::StatRoot),
        Made::Truncate(file, size) => Ok(Call::Truncate {
            file: FileId(file),
            size,
        }),
        Made::Rename(dir, letter, to_dir, to_letter) => {
            rename(alloc, (dir, letter), (to_dir, to_letter))
        }
    }
}

// The rename of a name of one letter to another one.
fn rename(alloc: Global, from: (u64, u8), to: (u64, u8)) -> Result<Call, NoMemory> {
    let name = named(alloc, from.1)?;
    let to_name = named(alloc, to.1)?;
    Ok(Call::Rename {
        dir: DirId(from.0),
        name,
        to_dir: DirId(to.0),
        to_name,
    })
}

// The row of a call at the name of a directory.
fn at(verb: Verb, dir: &DirId, name: &Name) -> Made {
    Made::At(verb, dir.0, letter_of(name))
}

/// The row of a call.
pub(crate) fn made_of(call: &Call) -> Made {
    match call {
        Call::Lookup { dir, name } => at(Verb::Lookup, dir, name),
        Call::List { dir } => Made::List(dir.0),
        Call::StatRoot => Made::StatRoot,
        Call::Stat { dir, name } => at(Verb::Stat, dir, name),
        Call::Create { dir, name } => at(Verb::Create, dir, name),
        Call::Mkdir { dir, name } => at(Verb::Mkdir, dir, name),
        Call::Unlink { dir, name } => at(Verb::Unlink, dir, name),
        Call::Rmdir { dir, name } => at(Verb::Rmdir, dir, name),
        Call::Truncate { file, size } => Made::Truncate(file.0, *size),
        Call::Rename {
            dir,
            name,
            to_dir,
            to_name,
        } => Made::Rename(dir.0, letter_of(name), to_dir.0, letter_of(to_name)),
    }
}

// One row, of the file 64 named x.
fn one_row(alloc: Global) -> Result<Reply, NoMemory> {
    let mut rows = RowList::new(alloc);
    match rows.push((named(alloc, b'x')?, Node::File(FileId(64)))) {
        Ok(()) => Ok(Reply::Rows(rows)),
        Err(_) => Err(NoMemory),
    }
}

/// The reply of a row; rows are one row.
pub(crate) fn reply_of(alloc: Global, told: Told) -> Result<Reply, NoMemory> {
    Ok(match told {
        Told::Moved => Reply::Moved,
        Told::Kept => Reply::Kept,
        Told::Dir(number) => Reply::Node(Node::Dir(DirId(number))),
        Told::File(number) => Reply::Node(Node::File(FileId(number))),
        Told::Rows(_) => one_row(alloc)?,
        Told::DirStat(children, links, time) => Reply::DirStat {
            children,
            links,
            time,
        },
        Told::FileStat(size, time) => Reply::FileStat { size, time },
        Told::Refused(errno) => Reply::Refused(errno),
        Told::Busy(job) => Reply::Busy(JobNo(job)),
    })
}

/// The row of a reply.
pub(crate) fn told_of(reply: &Reply) -> Told {
    match reply {
        Reply::Moved => Told::Moved,
        Reply::Kept => Told::Kept,
        Reply::Node(Node::Dir(dir)) => Told::Dir(dir.0),
        Reply::Node(Node::File(file)) => Told::File(file.0),
        Reply::Rows(rows) => Told::Rows(rows.len()),
        Reply::DirStat {
            children,
            links,
            time,
        } => Told::DirStat(*children, *links, *time),
        Reply::FileStat { size, time } => Told::FileStat(*size, *time),
        Reply::Refused(errno) => Told::Refused(*errno),
        Reply::Busy(job) => Told::Busy(job.0),
    }
}
