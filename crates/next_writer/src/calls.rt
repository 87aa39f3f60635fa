//! The calls that write, and what they keep once they have made a step.
ghost use Rattle.std.specs.Prelude.{◌≡◌, IfOk};
ghost use Rattle.next_ids.specs.declared.call.Call.TheVariants.{Rename};
ghost use Rattle.next_steps.specs.Writers.{maker};

use next_ids::{Call, DirId, FileId, Name, NoMemory, Node, Stamp, Ts};
use next_steps::maker;

/// The old and the new name of a rename.
#[derive(Drop)]
pub struct Names {
    pub dir: DirId,
    pub name: Name,
    pub to_dir: DirId,
    pub to_name: Name,
}

/// A call that writes.
#[derive(Drop)]
pub enum Writing {
    Create { dir: DirId, name: Name },
    Mkdir { dir: DirId, name: Name },
    Unlink { dir: DirId, name: Name },
    Truncate { file: FileId, size: u64 },
    Rename(Names),
}

/// A create or mkdir that has put its node: the name that the node is to have, and the first step.
#[derive(Drop)]
pub struct Making {
    pub dir: DirId,
    pub name: Name,
    pub node: Node,
    pub first: Stamp,
}

/// An unlink or rename that has taken the name of a file at the step `at`, and its time.
#[derive(Drop)]
pub struct Taking {
    pub call: Call,
    pub file: FileId,
    pub ts: Ts,
    pub first: Stamp,
    pub at: Stamp,
}

/// A rename that goes to the Renamer, and its time.
#[derive(Drop)]
pub struct Renaming {
    pub names: Names,
    pub ts: Ts,
    pub first: Stamp,
}

impl Names {
    /// A copy.
    pub fn copy(&self) -> Result<Names, NoMemory>
        ensures { IfOk result (λ copy. copy ≡ self.now) }
    {
        let name = self.name.copy()?;
        let to_name = self.to_name.copy()?;
        Ok(Names {
            dir: self.dir,
            name,
            to_dir: self.to_dir,
            to_name,
        })
    }

    /// The rename.
    pub fn into_call(self) -> Call
        ensures { result ≡ Rename self.dir self.name self.to_dir self.to_name }
    {
        Call::Rename {
            dir: self.dir,
            name: self.name,
            to_dir: self.to_dir,
            to_name: self.to_name,
        }
    }
}

impl Making {
    /// A copy.
    pub fn copy(&self) -> Result<Making, NoMemory>
        ensures { IfOk result (λ copy. copy ≡ self.now) }
    {
        Ok(Making {
            dir: self.dir,
            name: self.name.copy()?,
            node: self.node,
            first: self.first,
        })
    }

    /// The call.
    pub fn call(&self) -> Result<Call, NoMemory>
        ensures { IfOk result (λ call. call ≡ maker self.now.dir self.now.name self.now.node) }
    {
        maker(self.dir, &self.name, self.node)
    }
}

impl Taking {
    /// A copy.
    pub fn copy(&self) -> Result<Taking, NoMemory>
        ensures { IfOk result (λ copy. copy ≡ self.now) }
    {
        Ok(Taking {
            call: self.call.copy()?,
            file: self.file,
            ts: self.ts,
            first: self.first,
            at: self.at,
        })
    }
}

impl Renaming {
    /// A copy.
    pub fn copy(&self) -> Result<Renaming, NoMemory>
        ensures { IfOk result (λ copy. copy ≡ self.now) }
    {
        Ok(Renaming {
            names: self.names.copy()?,
            ts: self.ts,
            first: self.first,
        })
    }
}
