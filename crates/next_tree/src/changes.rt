//! How parts of the namespace are set, and how a file is forgotten.
ghost use Rattle.std.specs.Prelude.{◌≡◌, OnOk, OnErr, IsOk, IsSome, not, true, false};
ghost use Rattle.std.specs.FinMap as map;
ghost use Rattle.next_ids.specs.Namespace.{node_at, forget, is_listed, IsWhole, IsNamedOnce};
ghost use Rattle.next_tree.specs.Added.{with_dir, with_row, with_file, timed, named};

use crate::directory::Directory;
use crate::file::FileFacts;
use crate::namespace::Namespace;
use next_ids::{DirId, FileId, Name, NoMemory, Node, Ts};
use next_maps::NumberMap;
use std::alloc::Global;

// Sets a name of a directory that is there.
fn set_name(
    dirs: &mut NumberMap<Directory>,
    dir: DirId,
    name: Name,
    node: Node,
) -> Result<(), NoMemory>
    requires { IsSome (map.get dirs.old dir.0) }
    ensures ok { OnOk result (dirs.new ≡ map.insert dirs.old dir.0 (named (map.get dirs.old dir.0) name node)) }
    ensures err { OnErr result (dirs.new ≡ dirs.old) }
    ensures there { IsSome (node_at (map.get dirs.old dir.0) name) → IsOk result }
{
    dirs.get_mut(dir.0).unwrap().set(name, node)
}

// Sets the time of a directory, which has no names where it wasn't there.
fn set_time(
    alloc: Global,
    dirs: &mut NumberMap<Directory>,
    dir: DirId,
    time: Ts,
) -> Result<(), NoMemory>
    ensures ok { OnOk result (dirs.new ≡ map.insert dirs.old dir.0 (timed (map.get dirs.old dir.0) time)) }
    ensures err { OnErr result (dirs.new ≡ dirs.old) }
    ensures there { IsSome (map.get dirs.old dir.0) → IsOk result }
{
    if let Some(directory) = dirs.get_mut(dir.0) {
        directory.set_time(time);
        return Ok(());
    }
    match dirs.set(dir.0, Directory::new(alloc, time)) {
        Ok(_) => Ok(()),
        Err(_) => Err(NoMemory),
    }
}

impl Namespace {
    /// Takes the file out, and answers true. False comes exactly where a list names the file, and then nothing changes.
    /// A whole namespace stays whole, and where no node has two names, none has two names then.
    pub fn forget(&mut self, file: FileId) -> bool
        ensures named { result ≡ not (is_listed self.old file.0) }
        ensures kept { result ≡ false → self.new ≡ self.old }
        ensures forgotten { result ≡ true → self.new ≡ forget self.old file.0 }
        ensures whole { IsWhole self.old → IsWhole self.new }
        ensures once { IsNamedOnce self.old → IsNamedOnce self.new }
    {
        if self.is_named(file) {
            return false;
        }
        let _ = self.files.cut(file.0);
        true
    }

    /// Sets the time of the directory, which has no names where it wasn't there. The Err is want of memory for a new
    /// directory, and then nothing changed.
    pub fn add_dir(&mut self, dir: DirId, time: Ts) -> Result<(), NoMemory>
        ensures ok { OnOk result (self.new ≡ with_dir self.old dir time) }
        ensures err { OnErr result (self.new ≡ self.old) }
        ensures there { IsSome (map.get self.old.dirs dir.0) → IsOk result }
    {
        set_time(self.alloc, &mut self.dirs, dir, time)
    }

    /// Sets the whole directory. The Err is want of memory for a new directory, and then nothing changed.
    pub fn set_dir(&mut self, dir: DirId, directory: Directory) -> Result<(), NoMemory>
        ensures ok { OnOk result (self.new ≡ record { dirs = map.insert self.old.dirs dir.0 directory; files = self.old.files }) }
        ensures err { OnErr result (self.new ≡ self.old) }
        ensures there { IsSome (map.get self.old.dirs dir.0) → IsOk result }
    {
        match self.dirs.set(dir.0, directory) {
            Ok(_) => Ok(()),
            Err(_) => Err(NoMemory),
        }
    }

    /// Adds a row to a directory that is there. The Err is want of memory for a new name, and then nothing changed.
    pub fn add_row(&mut self, dir: DirId, name: Name, node: Node) -> Result<(), NoMemory>
        requires { IsSome (map.get self.old.dirs dir.0) }
        ensures ok { OnOk result (self.new ≡ with_row self.old dir name node) }
        ensures err { OnErr result (self.new ≡ self.old) }
        ensures there { IsSome (node_at (map.get self.old.dirs dir.0) name) → IsOk result }
    {
        set_name(&mut self.dirs, dir, name, node)
    }

    /// Sets the size and the time of the file. The Err is want of memory for a new file, and then nothing changed.
    pub fn add_file(&mut self, file: FileId, size: u64, time: Ts) -> Result<(), NoMemory>
        ensures ok { OnOk result (self.new ≡ with_file self.old file size time) }
        ensures err { OnErr result (self.new ≡ self.old) }
        ensures there { IsSome (map.get self.old.files file.0) → IsOk result }
    {
        match self.files.set(file.0, FileFacts::new(size, time)) {
            Ok(_) => Ok(()),
            Err(_) => Err(NoMemory),
        }
    }
}
