//! How the calls that move change the namespace.
ghost use Rattle.std.specs.Prelude.{◌≡◌, OnOk, OnErr, IsOk, IsSome, false};
ghost use Rattle.std.specs.FinMap as map;
ghost use Rattle.next_ids.specs.declared.call.Reply.TheVariants.{Moved};
ghost use Rattle.next_ids.specs.Namespace.{after, unlinked, removed, cut_to, renamed, with_name, name_set, name_cut, cut_file, without_dir, unlinked_in, removed_in, truncated, renamed_in, node_at, IsDefined, IsWhole, IsNamedOnce};
ghost use Rattle.next_tree.specs.Made.{IsNew, with_node, without_node, made};
ghost use Rattle.next_tree.specs.Memory.{sets_name};

use crate::directory::Directory;
use crate::file::FileFacts;
use crate::namespace::Namespace;
use next_ids::{Call, DirId, FileId, Name, NoMemory, Node, Ts};
use next_maps::NumberMap;

// Sets a name of a directory that is there, and makes its time no earlier than this.
fn put_name(
    dirs: &mut NumberMap<Directory>,
    dir: DirId,
    name: Name,
    node: Node,
    time: Ts,
) -> Result<(), NoMemory>
    requires { IsSome (map.get dirs.old dir.0) }
    ensures ok { OnOk result (dirs.new ≡ name_set dirs.old dir name node time) }
    ensures err { OnErr result (dirs.new ≡ dirs.old) }
{
    dirs.get_mut(dir.0).unwrap().put(name, node, time)
}

// Takes a name out of a directory that is there, and makes its time no earlier than this.
fn cut_name(dirs: &mut NumberMap<Directory>, dir: DirId, name: &Name, time: Ts)
    requires { IsSome (map.get dirs.old dir.0) }
    ensures { dirs.new ≡ name_cut dirs.old dir name.now time }
{
    dirs.get_mut(dir.0).unwrap().cut(name, time);
}

// Takes the directory out that the node is.
fn cut_dir(dirs: &mut NumberMap<Directory>, node: Option<Node>)
    ensures { dirs.new ≡ without_dir dirs.old node }
{
    if let Some(Node::Dir(dir)) = node {
        let _ = dirs.cut(dir.0);
    }
}

// Sets the size of a file that is there, and makes its time no earlier than this.
fn set_size(files: &mut NumberMap<FileFacts>, file: FileId, size: u64, time: Ts)
    requires { IsSome (map.get files.old file.0) }
    ensures { files.new ≡ map.insert files.old file.0 (cut_file (map.get files.old file.0) size time) }
{
    files.get_mut(file.0).unwrap().set_size(size, time);
}

impl Namespace {
    /// Makes the move of a call that is answered `Moved`, with the node that it made and its time. The Err is want of
    /// memory, which none takes but those that set a name, and then nothing changed. A whole namespace stays whole,
    /// and where no node of it has two names, none has two names then.
    pub fn apply(&mut self, call: &Call, made: Option<Node>, time: Ts) -> Result<(), NoMemory>
        requires { IsDefined self.old call.now made }
        ensures ok { OnOk result (self.new ≡ after self.old call.now made time) }
        ensures err { OnErr result (self.new ≡ self.old) }
        ensures sure { sets_name call.now ≡ false → IsOk result }
        ensures whole { IsWhole self.old → IsWhole self.new }
        ensures once { IsWhole self.old → IsNamedOnce self.old → IsNamedOnce self.new }
    {
        self.make_move(call, made, time)
    }

    // The move of `apply`, call by call.
    #[tactic(auto, using(crate::proofs::Making::there_names))]
    fn make_move(&mut self, call: &Call, made: Option<Node>, time: Ts) -> Result<(), NoMemory>
        requires { IsDefined self.old call.now made }
        ensures ok { OnOk result (self.new ≡ after self.old call.now made time) }
        ensures err { OnErr result (self.new ≡ self.old) }
        ensures sure { sets_name call.now ≡ false → IsOk result }
    {
        match (call, made) {
            (Call::Create { dir, name }, Some(Node::File(file))) => {
                self.make(*dir, name, Node::File(file), time)
            }
            (Call::Mkdir { dir, name }, Some(Node::Dir(child))) => {
                self.make(*dir, name, Node::Dir(child), time)
            }
            (Call::Unlink { dir, name }, None) => {
                self.unlink(*dir, name, time);
                Ok(())
            }
            (Call::Rmdir { dir, name }, None) => {
                self.rmdir(*dir, name, time);
                Ok(())
            }
            (Call::Truncate { file, size }, None) => {
                self.truncate(*file, *size, time);
                Ok(())
            }
            (
                Call::Rename {
                    dir,
                    name,
                    to_dir,
                    to_name,
                },
                None,
            ) => self.rename(*dir, name, *to_dir, to_name, time),
            _ => Ok(()),
        }
    }

    // Makes a new node of this name.
    fn make(&mut self, dir: DirId, name: &Name, node: Node, time: Ts) -> Result<(), NoMemory>
        requires there { IsSome (map.get self.old.dirs dir.0) }
        requires new { IsNew self.old node }
        ensures ok { OnOk result (self.new ≡ made self.old dir name.now node time) }
        ensures err { OnErr result (self.new ≡ self.old) }
    {
        let name = name.copy()?;
        self.add_node(node, time)?;
        match put_name(&mut self.dirs, dir, name, node, time) {
            Ok(()) => Ok(()),
            Err(failed) => {
                self.cut_node(node);
                Err(failed)
            }
        }
    }

    // Adds an empty node that isn't there.
    fn add_node(&mut self, node: Node, time: Ts) -> Result<(), NoMemory>
        requires { IsNew self.old node }
        ensures ok { OnOk result (self.new ≡ with_node self.old node time) }
        ensures err { OnErr result (self.new ≡ self.old) }
    {
        match node {
            Node::Dir(dir) => self.set_dir(dir, Directory::new(self.alloc, time)),
            Node::File(file) => self.add_file(file, 0, time),
        }
    }

    // Takes the node out.
    fn cut_node(&mut self, node: Node)
        ensures { self.new ≡ without_node self.old node }
    {
        match node {
            Node::Dir(dir) => {
                let _ = self.dirs.cut(dir.0);
            }
            Node::File(file) => {
                let _ = self.files.cut(file.0);
            }
        }
    }

    // Takes a file's name out. The file stays.
    fn unlink(&mut self, dir: DirId, name: &Name, time: Ts)
        requires { unlinked (node_at (map.get self.old.dirs dir.0) name.now) ≡ Moved }
        ensures { self.new ≡ unlinked_in self.old dir name.now time }
    {
        cut_name(&mut self.dirs, dir, name, time);
    }

    // Takes an empty directory and its name out.
    fn rmdir(&mut self, dir: DirId, name: &Name, time: Ts)
        requires { removed self.old (node_at (map.get self.old.dirs dir.0) name.now) ≡ Moved }
        ensures { self.new ≡ removed_in self.old dir name.now time }
    {
        let child = self.node_at(dir, name);
        cut_name(&mut self.dirs, dir, name, time);
        cut_dir(&mut self.dirs, child);
    }

    fn truncate(&mut self, file: FileId, size: u64, time: Ts)
        requires { cut_to (map.get self.old.files file.0) ≡ Moved }
        ensures { self.new ≡ truncated self.old file size time }
    {
        set_size(&mut self.files, file, size, time);
    }

    // Gives the node of one name the other name, in place of what had that. The new name is set first, since only that
    // takes memory.
    fn rename(
        &mut self,
        dir: DirId,
        name: &Name,
        to_dir: DirId,
        to_name: &Name,
        time: Ts,
    ) -> Result<(), NoMemory>
        requires { renamed self.old dir name.now to_dir to_name.now (node_at (map.get self.old.dirs dir.0) name.now) ≡ Moved }
        ensures ok { OnOk result (self.new ≡ renamed_in self.old dir name.now to_dir to_name.now time) }
        ensures err { OnErr result (self.new ≡ self.old) }
    {
        let node = self.node_at(dir, name).unwrap();
        let replaced = self.node_at(to_dir, to_name);
        put_name(&mut self.dirs, to_dir, to_name.copy()?, node, time)?;
        cut_name(&mut self.dirs, dir, name, time);
        cut_dir(&mut self.dirs, replaced);
        Ok(())
    }
}
