//! The sequential namespace.
ghost use Rattle.std.specs.Prelude.{◌≡◌, IfOk};
ghost use Rattle.std.specs.FinMap as map;
ghost use Rattle.next_ids.specs.Namespace.{empty_root, IsWhole, IsNamedOnce};

use crate::directory::Directory;
use crate::file::FileFacts;
use next_ids::{NoMemory, Ts};
use next_maps::NumberMap;
use std::alloc::Global;
use std::marker::Model;

/// The directories and the files, by their numbers, and the allocator that memory is taken from.
#[derive(Drop)]
pub struct Namespace {
    pub(crate) alloc: Global,
    pub(crate) dirs: NumberMap<Directory>,
    pub(crate) files: NumberMap<FileFacts>,
}

impl Model for Namespace {
    ghost use Rattle.next_ids.specs.Namespace.{Namespace};
    ghost use Rattle.next_tree.specs.Codes.{namespace_code};

    ghost Value = { Namespace };

    ghost coded = { namespace_code };

    ghost view = { λ namespace. record { dirs = namespace.dirs; files = namespace.files } };
}

impl Namespace {
    /// No directory and no file.
    pub fn new(alloc: Global) -> Namespace
        ensures { result ≡ record { dirs = map.empty; files = map.empty } }
    {
        Namespace {
            alloc,
            dirs: NumberMap::new(alloc),
            files: NumberMap::new(alloc),
        }
    }

    /// The root, empty and at the time before the first step, and no file, which is a whole namespace. The Err is want of memory.
    pub fn empty_root(alloc: Global) -> Result<Namespace, NoMemory>
        ensures root { IfOk result (λ namespace. namespace ≡ empty_root) }
        ensures whole { IfOk result (λ namespace. IsWhole namespace) }
        ensures once { IfOk result (λ namespace. IsNamedOnce namespace) }
    {
        let start = Ts {
            moment: 0,
            number: 0,
        };
        let mut dirs = NumberMap::new(alloc);
        match dirs.set(0, Directory::new(alloc, start)) {
            Ok(_) => Ok(Namespace {
                alloc,
                dirs,
                files: NumberMap::new(alloc),
            }),
            Err(_) => Err(NoMemory),
        }
    }
}
