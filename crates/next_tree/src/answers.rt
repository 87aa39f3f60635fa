//! What the namespace answers to a call.
ghost use Rattle.std.specs.Prelude.{◌≡◌, [], IfOk, IsOk, true, false};
ghost use Rattle.std.specs.Option.{option_map};
ghost use Rattle.std.specs.FinMap as map;
ghost use Rattle.next_ids.specs.Namespace.{answer, lookup_in, list_of, dir_stat, file_stat, stat_of, create_in, mkdir_in, unlinked, is_empty, removed, cut_to, node_at, rows_of, children_of, links_of, is_listed, IsWhole};
ghost use Rattle.next_tree.specs.Memory.{takes_memory};
ghost use Rattle.next_tree.specs.Upward.{goes_upward};

use crate::namespace::Namespace;
use crate::rows::any_names_it;
use next_ids::{Call, DirId, Errno, FileId, Name, NoMemory, Node, Reply};

impl Namespace {
    /// What the call is answered, by the first line that applies (POSIX.1-2017, System Interfaces, ERRORS of `open`,
    /// `mkdir`, `unlink`, `rmdir`, `truncate`, `stat`, `opendir` and `rename`). A rename alone wants a whole namespace:
    /// - all: ENOENT where the directory, the name or the file isn't there;
    /// - `Create` and `Mkdir`: EEXIST where the name is there;
    /// - `Mkdir`: EMLINK where the directory has `LINK_MAX` links;
    /// - `Unlink`: EPERM for a directory;
    /// - `Rmdir`: ENOTDIR for a file, ENOTEMPTY for a directory that has names;
    /// - `Rename`: Kept where both names are one, ENOENT where `to_dir` isn't there, EISDIR for a file onto a directory,
    ///   ENOTDIR for a directory onto a file, ENOTEMPTY onto a directory that has names, EMLINK for a directory at a
    ///   free name of another directory, which has `LINK_MAX` links, EINVAL for a directory into itself or below.
    ///
    /// The Err is want of memory, which a list alone takes, and that one where there are names to list.
    pub fn answer(&self, call: &Call) -> Result<Reply, NoMemory>
        requires { goes_upward call.now ≡ true → IsWhole self.now }
        ensures reply { IfOk result (λ reply. reply ≡ answer self.now call.now) }
        ensures sure { takes_memory call.now ≡ false → IsOk result }
        ensures empty_list { (dir : DirId) → call.now ≡ Call.List dir → rows_of (map.get self.now.dirs dir.0) ≡ [] → IsOk result }
    {
        match call {
            Call::Lookup { dir, name } => Ok(self.answer_lookup(*dir, name)),
            Call::List { dir } => self.answer_list(*dir),
            Call::StatRoot => Ok(self.answer_stat_dir(DirId(0))),
            Call::Stat { dir, name } => Ok(self.answer_stat(*dir, name)),
            Call::Create { dir, name } => Ok(self.answer_create(*dir, name)),
            Call::Mkdir { dir, name } => Ok(self.answer_mkdir(*dir, name)),
            Call::Unlink { dir, name } => Ok(self.answer_unlink(*dir, name)),
            Call::Rmdir { dir, name } => Ok(self.answer_rmdir(*dir, name)),
            Call::Truncate { file, .. } => Ok(self.answer_truncate(*file)),
            Call::Rename {
                dir,
                name,
                to_dir,
                to_name,
            } => Ok(self.answer_rename(*dir, name, *to_dir, to_name)),
        }
    }

    fn answer_lookup(&self, dir: DirId, name: &Name) -> Reply
        ensures { result ≡ lookup_in (map.get self.now.dirs dir.0) name.now }
    {
        let Some(directory) = self.dirs.get(dir.0) else {
            return Reply::Refused(Errno::Enoent);
        };
        match directory.get(name) {
            Some(node) => Reply::Node(node),
            None => Reply::Refused(Errno::Enoent),
        }
    }

    fn answer_list(&self, dir: DirId) -> Result<Reply, NoMemory>
        ensures reply { IfOk result (λ reply. reply ≡ list_of (map.get self.now.dirs dir.0)) }
        ensures sure { rows_of (map.get self.now.dirs dir.0) ≡ [] → IsOk result }
    {
        match self.dirs.get(dir.0) {
            Some(directory) => Ok(Reply::Rows(directory.rows(self.alloc)?)),
            None => Ok(Reply::Refused(Errno::Enoent)),
        }
    }

    fn answer_stat(&self, dir: DirId, name: &Name) -> Reply
        ensures { result ≡ stat_of self.now (node_at (map.get self.now.dirs dir.0) name.now) }
    {
        match self.node_at(dir, name) {
            None => Reply::Refused(Errno::Enoent),
            Some(Node::Dir(dir)) => self.answer_stat_dir(dir),
            Some(Node::File(file)) => self.answer_stat_file(file),
        }
    }

    fn answer_stat_dir(&self, dir: DirId) -> Reply
        ensures { result ≡ dir_stat (map.get self.now.dirs dir.0) }
    {
        match self.dirs.get(dir.0) {
            Some(directory) => Reply::DirStat {
                children: directory.children(),
                links: directory.links(),
                time: directory.time(),
            },
            None => Reply::Refused(Errno::Enoent),
        }
    }

    fn answer_stat_file(&self, file: FileId) -> Reply
        ensures { result ≡ file_stat (map.get self.now.files file.0) }
    {
        match self.files.get(file.0) {
            Some(facts) => Reply::FileStat {
                size: facts.size(),
                time: facts.time(),
            },
            None => Reply::Refused(Errno::Enoent),
        }
    }

    fn answer_create(&self, dir: DirId, name: &Name) -> Reply
        ensures { result ≡ create_in (map.get self.now.dirs dir.0) name.now }
    {
        let Some(directory) = self.dirs.get(dir.0) else {
            return Reply::Refused(Errno::Enoent);
        };
        match directory.get(name) {
            Some(_) => Reply::Refused(Errno::Eexist),
            None => Reply::Moved,
        }
    }

    fn answer_mkdir(&self, dir: DirId, name: &Name) -> Reply
        ensures { result ≡ mkdir_in (map.get self.now.dirs dir.0) name.now }
    {
        let Some(directory) = self.dirs.get(dir.0) else {
            return Reply::Refused(Errno::Enoent);
        };
        match directory.get(name) {
            Some(_) => Reply::Refused(Errno::Eexist),
            None if directory.is_full() => Reply::Refused(Errno::Emlink),
            None => Reply::Moved,
        }
    }

    fn answer_unlink(&self, dir: DirId, name: &Name) -> Reply
        ensures { result ≡ unlinked (node_at (map.get self.now.dirs dir.0) name.now) }
    {
        match self.node_at(dir, name) {
            None => Reply::Refused(Errno::Enoent),
            Some(Node::Dir(_)) => Reply::Refused(Errno::Eperm),
            Some(Node::File(_)) => Reply::Moved,
        }
    }

    fn answer_rmdir(&self, dir: DirId, name: &Name) -> Reply
        ensures { result ≡ removed self.now (node_at (map.get self.now.dirs dir.0) name.now) }
    {
        match self.node_at(dir, name) {
            None => Reply::Refused(Errno::Enoent),
            Some(Node::File(_)) => Reply::Refused(Errno::Enotdir),
            Some(Node::Dir(child)) if self.is_empty(child) => Reply::Moved,
            Some(Node::Dir(_)) => Reply::Refused(Errno::Enotempty),
        }
    }

    fn answer_truncate(&self, file: FileId) -> Reply
        ensures { result ≡ cut_to (map.get self.now.files file.0) }
    {
        match self.files.get(file.0) {
            Some(_) => Reply::Moved,
            None => Reply::Refused(Errno::Enoent),
        }
    }

    // The node of the name, None where the directory or the name isn't there.
    pub(crate) fn node_at(&self, dir: DirId, name: &Name) -> Option<Node>
        ensures { result ≡ node_at (map.get self.now.dirs dir.0) name.now }
    {
        match self.dirs.get(dir.0) {
            Some(directory) => directory.get(name),
            None => None,
        }
    }

    // Whether the directory has no names.
    pub(crate) fn is_empty(&self, dir: DirId) -> bool
        ensures { result ≡ is_empty (map.get self.now.dirs dir.0) }
    {
        match self.dirs.get(dir.0) {
            Some(directory) => directory.children() == 0,
            None => true,
        }
    }

    /// How many names the directory has, and its links. None comes exactly where the directory isn't there.
    pub fn counts(&self, dir: DirId) -> Option<(u64, u64)>
        ensures { result ≡ option_map (λ d. (children_of d, links_of d)) (map.get self.now.dirs dir.0) }
    {
        match self.dirs.get(dir.0) {
            Some(directory) => Some((directory.children(), directory.links())),
            None => None,
        }
    }

    /// Whether a list names the file.
    pub fn is_named(&self, file: FileId) -> bool
        ensures { result ≡ is_listed self.now file.0 }
    {
        any_names_it(&self.dirs, file)
    }
}
