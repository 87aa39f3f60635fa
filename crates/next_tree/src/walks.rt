//! Walks through the directories, the rows and the files.
ghost use Rattle.std.specs.Prelude.{◌≡◌, ℕ, ◌^◌, ◌<◌};
ghost use Rattle.std.specs.Option.{option_map, option_copied};
ghost use Rattle.std.specs.Ordering.{nat_cmp};
ghost use Rattle.std.specs.Cmp.Lexicographic.{slice_cmp};
ghost use Rattle.std.specs.FinMap as map;
ghost use Rattle.std.specs.Map.Iter.{ShowsInOrder, deref_pair};
ghost use Rattle.next_ids.specs.declared.time.Ts.{Ts};
ghost use Rattle.next_ids.specs.Namespace.{Directory, FileFacts, rows_of};
ghost use Rattle.next_maps.specs.Walks.{entries_after, first_of};

use crate::directory::Directory;
use crate::file::FileFacts;
use crate::namespace::Namespace;
use next_ids::{DirId, FileId, Name, Node, Ts};
use std::collections::btree_map::Iter;

impl Namespace {
    /// The directories, by rising numbers.
    pub fn dirs(&self) -> Iter<'_, u64, Directory>
        ensures rest { result ≡ map.entries self.now.dirs }
        ensures runs { ShowsInOrder (deref_pair {K = ℕ} {X = Directory}) }
        ensures fits { map.len self.now.dirs < 2 ^ 63 }
    {
        self.dirs.iter()
    }

    /// The directory of the number. None comes exactly where it isn't there.
    pub fn directory(&self, dir: DirId) -> Option<&Directory>
        ensures { option_copied result ≡ map.get self.now.dirs dir.0 }
    {
        self.dirs.get(dir.0)
    }

    /// The file of the number. None comes exactly where it isn't there.
    pub fn file(&self, file: FileId) -> Option<&FileFacts>
        ensures { option_copied result ≡ map.get self.now.files file.0 }
    {
        self.files.get(file.0)
    }

    /// The files, by rising numbers.
    pub fn files(&self) -> Iter<'_, u64, FileFacts>
        ensures rest { result ≡ map.entries self.now.files }
        ensures runs { ShowsInOrder (deref_pair {K = ℕ} {X = FileFacts}) }
        ensures fits { map.len self.now.files < 2 ^ 63 }
    {
        self.files.iter()
    }

    /// The first directory above `after`, or the first of all, and its time. None comes exactly where there is none.
    pub fn next_dir(&self, after: Option<DirId>) -> Option<(DirId, Ts)>
        ensures { option_map {U = ℕ × Ts} (λ dir. (dir.0.0, dir.1)) result ≡ option_map {U = ℕ × Ts} (λ dir. (dir.0, dir.1.time)) (first_of (entries_after nat_cmp (option_map (λ dir. dir.0) after) (map.entries self.now.dirs))) }
    {
        let key = match after {
            Some(dir) => Some(dir.0),
            None => None,
        };
        match self.dirs.next(key) {
            Some((dir, directory)) => Some((DirId(dir), directory.time())),
            None => None,
        }
    }

    /// The first row of the directory whose name is above `after`, or the first of all. None comes exactly where there
    /// is none.
    pub fn next_row(&self, dir: DirId, after: Option<&Name>) -> Option<(&Name, Node)>
        ensures { option_map (λ row. (row.0.now, row.1)) result ≡ first_of (entries_after (slice_cmp nat_cmp) (option_copied after.entry) (rows_of (map.get self.now.dirs dir.0))) }
    {
        match self.dirs.get(dir.0) {
            Some(directory) => directory.next(after),
            None => None,
        }
    }

    /// The first file above `after`, or the first of all, its size and its time. None comes exactly where there is none.
    pub fn next_file(&self, after: Option<FileId>) -> Option<(FileId, u64, Ts)>
        ensures { option_map {U = ℕ × ℕ × Ts} (λ file. (file.0.0, file.1, file.2)) result ≡ option_map {U = ℕ × ℕ × Ts} (λ file. (file.0, file.1.size, file.1.time)) (first_of (entries_after nat_cmp (option_map (λ file. file.0) after) (map.entries self.now.files))) }
    {
        let key = match after {
            Some(file) => Some(file.0),
            None => None,
        };
        match self.files.next(key) {
            Some((file, facts)) => Some((FileId(file), facts.size(), facts.time())),
            None => None,
        }
    }
}
