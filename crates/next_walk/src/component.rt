//! One component of a path.
ghost use Rattle.std.specs.Prelude.{◌≡◌, ◌++◌, ◌∷◌, [], length, slice_get, OnOk, OnErr, IfOk, IfErr, IsTrue};
ghost use Rattle.std.specs.Option.{option_copied};
ghost use Rattle.std.specs.List.{list_all};
ghost use Rattle.next_ids.specs.Names.{is_allowed};

use next_ids::NoMemory;
use std::alloc::{AllocError, Global};
use std::marker::Model;

/// A component of a path: bytes of 0x21 to 0x7E but the slash, or of 0x80 to 0xFF (POSIX.1-2017, Base Definitions,
/// 4.13 Pathname Resolution). It may have more bytes than a name may, and is answered ENAMETOOLONG then.
#[derive(Debug, Drop)]
pub struct Component {
    bytes: Vec<u8>,
}

impl Model for Component {
    ghost use Rattle.std.specs.Prelude.{List, ℕ, IsTrue};
    ghost use Rattle.std.specs.List.{list_all};
    ghost use Rattle.next_ids.specs.Names.{is_allowed};

    ghost Value = { List ℕ };

    ghost view = { λ component. component.bytes.items };

    ghost invariant = { λ component. IsTrue (list_all is_allowed component.bytes.items) };
}

impl Component {
    /// No bytes. No command in form has such a component.
    pub fn new(alloc: Global) -> Component
        ensures { result ≡ [] }
    {
        Component {
            bytes: Vec::new(alloc),
        }
    }

    /// How many bytes there are.
    pub fn len(&self) -> usize
        ensures { result ≡ length self.now }
    {
        self.bytes.len()
    }

    /// The byte at the index. None comes exactly at and past the length.
    pub fn get(&self, i: usize) -> Option<&u8>
        ensures { option_copied result ≡ slice_get self.now i }
    {
        self.bytes.get(i)
    }

    /// The bytes.
    pub fn as_bytes(&self) -> &[u8]
        ensures bytes { result.now ≡ self.now }
        ensures allowed { IsTrue (list_all is_allowed self.now) }
    {
        self.bytes.as_slice()
    }

    /// Adds an allowed byte behind the others. The Err is want of memory, and hands the byte back.
    pub fn push(&mut self, byte: u8) -> Result<(), u8>
        requires { IsTrue (is_allowed byte) }
        ensures ok { OnOk result (self.new ≡ self.old ++ byte ∷ []) }
        ensures err { OnErr result (self.new ≡ self.old) }
        ensures back { IfErr result (λ back. back ≡ byte) }
    {
        match self.bytes.push(byte) {
            Ok(()) => Ok(()),
            Err(failed) => Err(failed.value),
        }
    }

    /// The component of these bytes, each of which is allowed. The Err is want of memory.
    pub fn from_bytes(alloc: Global, bytes: &[u8]) -> Result<Component, NoMemory>
        requires { IsTrue (list_all is_allowed bytes.now) }
        ensures { IfOk result (λ component. component ≡ bytes.now) }
    {
        Ok(Component {
            bytes: Vec::from_slice(alloc, bytes)?,
        })
    }
}

impl Clone for Component {
    ghost is_clone = { λ component copy. copy ≡ component };

    fn clone(&self) -> Result<Self, AllocError> {
        Ok(Component {
            bytes: self.bytes.clone()?,
        })
    }
}
