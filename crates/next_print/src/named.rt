//! The files that the lists of a tree name.
ghost use Rattle.std.specs.Prelude.{◌≡◌, IfOk, OnOk, ◌||◌};
ghost use Rattle.std.specs.List.{list_any};
ghost use Rattle.std.specs.FinMap as map;
ghost use Rattle.next_ids.specs.Namespace.{names_file};
ghost use Rattle.next_print.specs.NamedFiles.{has_file, AreNamed};

use next_ids::{FileId, NoMemory, Node};
use next_maps::NumberMap;
use next_tree::{Directory, Namespace};
use std::alloc::Global;

/// Files by their numbers.
#[derive(Drop)]
pub struct NamedFiles {
    files: NumberMap<()>,
}

impl NamedFiles {
    /// The files that the lists of the tree name. The Err is want of memory.
    pub fn of(alloc: Global, tree: &Namespace) -> Result<NamedFiles, NoMemory>
        ensures { IfOk result (λ named. AreNamed named tree.now) }
    {
        let mut named = NamedFiles {
            files: NumberMap::new(alloc),
        };
        for (_, directory) in tree.dirs() {
            named.add_rows(directory)?;
        }
        Ok(named)
    }

    // Adds the files that the directory names.
    fn add_rows(&mut self, directory: &Directory) -> Result<(), NoMemory>
        ensures { OnOk result ((f : _) → has_file self.new f ≡ (has_file self.old f || list_any (λ row. names_file f row.1) (map.entries directory.now.names))) }
    {
        for (_, node) in directory.iter() {
            self.add(*node)?;
        }
        Ok(())
    }

    // Adds the node, where it is a file.
    fn add(&mut self, node: Node) -> Result<(), NoMemory>
        ensures { OnOk result ((f : _) → has_file self.new f ≡ (has_file self.old f || names_file f node)) }
    {
        let Node::File(file) = node else {
            return Ok(());
        };
        match self.files.set(file.0, ()) {
            Ok(_) => Ok(()),
            Err(_) => Err(NoMemory),
        }
    }

    /// Whether the file is among them.
    pub fn has(&self, file: FileId) -> bool
        ensures { result ≡ has_file self.now file.0 }
    {
        self.files.get(file.0).is_some()
    }
}
