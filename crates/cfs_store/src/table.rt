//! The table of the store: the answer to an ask, and its change.
ghost use Rattle.std.specs.Prelude.{◌≡◌, ◌<◌, OnOk, OnErr};
ghost use Rattle.std.specs.FinMap as map;
ghost use Rattle.cfs_rules.specs.Places.{serve_store, put_file, made_at, settled, taken_back};

use cfs_ids::{Client, DirId, FileId, NoMemory, Node, Stamp};
use cfs_maps::NumberMap;
use cfs_steps::{Answer, Ask, FileRec};

// The file that the step with this stamp makes.
fn new_file(at: Stamp) -> FileId
    requires { at.number < 1099511627777 }
    ensures { result.0 ≡ made_at at }
{
    FileId(64 * at.number + (at.place.0 % 64) as u64)
}

// The answer to Settle: whether the file has an owner.
fn settle_answer(files: &NumberMap<FileRec>, file: FileId) -> Answer
    ensures { result ≡ (settled files.now file (map.get files.now file.0)).answer }
{
    match files.get(file.0) {
        Some(FileRec { owner: Some(_), .. }) => Answer::Done(None),
        _ => Answer::None,
    }
}

// The answer to TakeBack: whether the client owns the file.
fn take_back_answer(files: &NumberMap<FileRec>, client: Client, file: FileId) -> Answer
    ensures { result ≡ (taken_back files.now client file (map.get files.now file.0)).answer }
{
    match files.get(file.0) {
        Some(
            FileRec {
                owner: Some(owner),
                ..
            },
        ) if owner.0 == client.0 => Answer::Done(None),
        _ => Answer::None,
    }
}

/// What the table answers.
pub fn answer(files: &NumberMap<FileRec>, at: Stamp, ask: &Ask) -> Answer
    requires { at.number < 1099511627777 }
    ensures { result ≡ (serve_store files.now at ask.now).answer }
{
    match ask {
        Ask::Put { .. } => Answer::New(Node::File(new_file(at))),
        Ask::Settle {
            node: Node::File(file),
        } => settle_answer(files, *file),
        Ask::TakeBack {
            client,
            node: Node::File(file),
        } => take_back_answer(files, *client, *file),
        _ => Answer::None,
    }
}

// Puts a new file, which the client owns.
fn put(
    files: &mut NumberMap<FileRec>,
    at: Stamp,
    client: Client,
    home: DirId,
) -> Result<(), NoMemory>
    requires { at.number < 1099511627777 }
    ensures ok { OnOk result (files.new ≡ (put_file files.old at client home).contents) }
    ensures err { OnErr result (files.new ≡ files.old) }
{
    let rec = FileRec {
        size: 0,
        time: at.number,
        owner: Some(client),
        home,
    };
    match files.set(new_file(at).0, rec) {
        Ok(_) => Ok(()),
        Err(_) => Err(NoMemory),
    }
}

// Ends the ownership of a file, where it has an owner.
fn settle(files: &mut NumberMap<FileRec>, file: FileId)
    ensures { files.new ≡ (settled files.old file (map.get files.old file.0)).contents }
{
    let Some(rec) = files.get(file.0).copied() else {
        return;
    };
    if rec.owner.is_some() {
        let settled = FileRec { owner: None, ..rec };
        let _ = files.set(file.0, settled);
    }
}

// Removes the record of a file that the client owns.
fn take_back(files: &mut NumberMap<FileRec>, client: Client, file: FileId)
    ensures { files.new ≡ (taken_back files.old client file (map.get files.old file.0)).contents }
{
    let Some(rec) = files.get(file.0).copied() else {
        return;
    };
    if let Some(owner) = rec.owner {
        if owner.0 == client.0 {
            let _ = files.cut(file.0);
        }
    }
}

/// Makes the table's change.
pub fn change(files: &mut NumberMap<FileRec>, at: Stamp, ask: &Ask) -> Result<(), NoMemory>
    requires { at.number < 1099511627777 }
    ensures ok { OnOk result (files.new ≡ (serve_store files.old at ask.now).contents) }
    ensures err { OnErr result (files.new ≡ files.old) }
{
    match ask {
        Ask::Put { client, home, .. } => put(files, at, *client, *home),
        Ask::Settle {
            node: Node::File(file),
        } => {
            settle(files, *file);
            Ok(())
        }
        Ask::TakeBack {
            client,
            node: Node::File(file),
        } => {
            take_back(files, *client, *file);
            Ok(())
        }
        _ => Ok(()),
    }
}
