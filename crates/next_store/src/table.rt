//! The table of the store: what an ask is answered, and what it changes.
ghost use Rattle.std.specs.Prelude.{◌≡◌, ◌<◌, IfOk, OnOk, OnErr};
ghost use Rattle.std.specs.FinMap as map;
ghost use Rattle.next_rules.specs.Contents.{made_at, unmoved};
ghost use Rattle.next_rules.specs.Stores.{serve_store, put_file, got, settled, file_owner, resized, taken_back, dropped};
ghost use Rattle.next_store.specs.Lines.{served_by, after};

use crate::strays::owed_files;
use next_ids::{Call, Client, DirId, FileId, NoMemory, Node, Stamp, Ts, later};
use next_maps::NumberMap;
use next_steps::{Answer, Ask, FileRec, Move, Moved};
use std::alloc::Global;

/// What a line of the table does to the records.
#[derive(Drop)]
pub enum Change {
    Keep,
    /// The file has this record.
    Set(FileId, FileRec),
    /// The file has none.
    Cut(FileId),
}

/// The line of the table that an ask has met.
#[derive(Drop)]
pub struct Line {
    pub answer: Answer,
    pub change: Change,
    pub moved: Option<Moved>,
}

impl Line {
    // A line that changes nothing.
    fn quiet(answer: Answer) -> Line
        ensures { result ≡ record { answer = answer; change = Change.Keep; moved = None } }
    {
        Line {
            answer,
            change: Change::Keep,
            moved: None,
        }
    }

    // A line that changes a record, and nothing of the namespace.
    fn done(change: Change) -> Line
        ensures { result ≡ record { answer = Answer.Done None; change = change; moved = None } }
    {
        Line {
            answer: Answer::Done(None),
            change,
            moved: None,
        }
    }
}

// The file that the step with this stamp makes.
fn new_file(at: Stamp) -> FileId
    requires { at.number < 1099511627777 }
    ensures { result.0 ≡ made_at at }
{
    FileId(64 * at.number + (at.place.0 % 64) as u64)
}

// Put: a new file, which the client owns.
fn put(files: &NumberMap<FileRec>, at: Stamp, moment: u64, client: Client, home: DirId) -> Line
    requires { at.number < 1099511627777 }
    ensures { served_by files.now result ≡ put_file files.now at moment client home }
{
    let file = new_file(at);
    let rec = FileRec {
        size: 0,
        time: Ts {
            moment,
            number: at.number,
        },
        owner: Some(client),
        home,
    };
    Line {
        answer: Answer::New(Node::File(file)),
        change: Change::Set(file, rec),
        moved: None,
    }
}

// Get: the file's size and time.
fn get(files: &NumberMap<FileRec>, file: FileId) -> Line
    ensures { served_by files.now result ≡ unmoved files.now (got (map.get files.now file.0)) }
{
    match files.get(file.0) {
        Some(rec) => Line::quiet(Answer::File {
            size: rec.size,
            time: rec.time,
        }),
        None => Line::quiet(Answer::None),
    }
}

// SetSize: the size, and the later of the file's time and the call's.
fn set_size(files: &NumberMap<FileRec>, client: Client, file: FileId, size: u64, ts: Ts) -> Line
    ensures { served_by files.now result ≡ resized files.now client file size ts (map.get files.now file.0) }
{
    match files.get(file.0) {
        Some(rec) => Line {
            answer: Answer::Done(None),
            change: Change::Set(
                file,
                FileRec {
                    size,
                    time: later(rec.time, ts),
                    ..*rec
                },
            ),
            moved: Some(Moved::Move(Move {
                client,
                call: Call::Truncate { file, size },
                ts,
                made: None,
            })),
        },
        None => Line::quiet(Answer::None),
    }
}

// Settle: the file, where it has an owner, has none.
fn settle(files: &NumberMap<FileRec>, file: FileId) -> Line
    ensures { served_by files.now result ≡ settled files.now file (map.get files.now file.0) (file_owner (map.get files.now file.0)) }
{
    match files.get(file.0) {
        Some(rec) if rec.owner.is_some() => Line::done(Change::Set(
            file,
            FileRec {
                owner: None,
                ..*rec
            },
        )),
        _ => Line::quiet(Answer::None),
    }
}

// TakeBack and DropOwed: the record goes where the client owns it.
fn take_back(files: &NumberMap<FileRec>, client: Client, file: FileId, moved: Option<Moved>) -> Line
    ensures { served_by files.now result ≡ taken_back files.now client file moved (file_owner (map.get files.now file.0)) }
{
    match files.get(file.0) {
        Some(
            FileRec {
                owner: Some(owner),
                ..
            },
        ) if owner.0 == client.0 => Line {
            answer: Answer::Done(None),
            change: Change::Cut(file),
            moved,
        },
        _ => Line::quiet(Answer::None),
    }
}

// Drop: the record goes, and the file with it.
fn drop_file(files: &NumberMap<FileRec>, file: FileId) -> Line
    ensures { served_by files.now result ≡ dropped files.now file (map.get files.now file.0) }
{
    if files.get(file.0).is_some() {
        Line {
            answer: Answer::Done(None),
            change: Change::Cut(file),
            moved: Some(Moved::Forget(file)),
        }
    } else {
        Line::quiet(Answer::None)
    }
}

/// The line of the table that the ask meets at the stamp and the moment.
pub fn line_of(
    alloc: Global,
    files: &NumberMap<FileRec>,
    at: Stamp,
    moment: u64,
    ask: &Ask,
) -> Result<Line, NoMemory>
    requires { at.number < 1099511627777 }
    ensures { IfOk result (λ line. served_by files.now line ≡ serve_store files.now at moment ask.now) }
{
    match ask {
        Ask::Put { client, home, .. } => Ok(put(files, at, moment, *client, *home)),
        Ask::Get { file } => Ok(get(files, *file)),
        Ask::SetSize {
            client,
            file,
            size,
            ts,
        } => Ok(set_size(files, *client, *file, *size, *ts)),
        Ask::Settle {
            node: Node::File(file),
        } => Ok(settle(files, *file)),
        Ask::TakeBack {
            client,
            node: Node::File(file),
        } => Ok(take_back(files, *client, *file, None)),
        Ask::DropOwed {
            client,
            node: Node::File(file),
        } => Ok(take_back(files, *client, *file, Some(Moved::Forget(*file)))),
        Ask::Drop { file } => Ok(drop_file(files, *file)),
        Ask::Strays { clients, .. } => {
            let strays = owed_files(alloc, files, at.place, clients)?;
            Ok(Line::quiet(Answer::Strays(strays)))
        }
        _ => Ok(Line::quiet(Answer::None)),
    }
}

/// Makes the change of a line. Only a record of a new file wants memory.
pub fn make(files: &mut NumberMap<FileRec>, change: Change) -> Result<(), NoMemory>
    ensures ok { OnOk result (files.new ≡ after files.old change) }
    ensures err { OnErr result (files.new ≡ files.old) }
{
    match change {
        Change::Keep => Ok(()),
        Change::Set(file, rec) => match files.set(file.0, rec) {
            Ok(_) => Ok(()),
            Err(_) => Err(NoMemory),
        },
        Change::Cut(file) => {
            let _ = files.cut(file.0);
            Ok(())
        }
    }
}
