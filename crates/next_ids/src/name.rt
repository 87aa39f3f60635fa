//! The name of a row.
ghost use Rattle.std.specs.Prelude.{◌≡◌, ◌==◌, not, refl, Some, IfOk, length};
ghost use Rattle.std.specs.Ordering.{nat_cmp};
ghost use Rattle.std.specs.Prelude.{nat_eq};
ghost use Rattle.std.specs.Cmp.{partial_equiv_from_equiv};
ghost use Rattle.std.specs.Cmp.Lexicographic.{pointwise, slice_cmp, nat_list_eq_equiv, nat_list_cmp_total, texts_ties, texts_po};
ghost use Rattle.next_ids.specs.Names.{is_allowed, is_name, first_bad};
ghost use Rattle.next_ids.specs.NameFaults.{ReadsName};

use crate::memory::NoMemory;
use std::alloc::{AllocError, Global};
use std::cmp::Ordering;
use std::marker::Model;

/// A name: 1 to 255 bytes of 0x21 to 0x7E but the slash, or of 0x80 to 0xFF (POSIX.1-2017, Base Definitions, 3.170
/// Filename, in this service's profile). Names are ordered by their bytes.
#[derive(Debug, Drop)]
pub struct Name {
    bytes: Vec<u8>,
}

impl Model for Name {
    ghost use Rattle.std.specs.Prelude.{List, ℕ, IsTrue};
    ghost use Rattle.next_ids.specs.Names.{is_name};

    ghost Value = { List ℕ };

    ghost view = { λ n. n.bytes.items };

    ghost invariant = { λ n. IsTrue (is_name n.bytes.items) };
}

/// Why bytes are no name.
#[derive(Clone, Copy, Debug, PartialEq, Eq)]
pub enum NameFault {
    /// There are no bytes.
    Empty,
    /// The first byte that isn't allowed is at this index.
    BadByte(usize),
    /// All bytes are allowed, and there are this many of them, over 255.
    TooLong(usize),
    NoMemory,
}

// Whether a name may have the byte.
fn allowed(byte: u8) -> bool
    ensures { result ≡ is_allowed byte }
{
    (byte >= 0x21 && byte <= 0x7e && byte != b'/') || byte >= 0x80
}

// The index of the first byte that isn't allowed.
fn bad_byte(bytes: &[u8]) -> Option<usize>
    ensures { result ≡ first_bad bytes.now }
{
    bytes.iter().position(|byte| !allowed(*byte))
}

impl Name {
    /// The name of these bytes. `NoMemory` comes only where they are a name.
    pub fn read(alloc: Global, bytes: &[u8]) -> Result<Name, NameFault>
        ensures { ReadsName bytes.now result }
    {
        if bytes.is_empty() {
            return Err(NameFault::Empty);
        }
        if let Some(index) = bad_byte(bytes) {
            return Err(NameFault::BadByte(index));
        }
        if bytes.len() > 255 {
            return Err(NameFault::TooLong(bytes.len()));
        }
        match Vec::from_slice(alloc, bytes) {
            Ok(bytes) => Ok(Name { bytes }),
            Err(_) => Err(NameFault::NoMemory),
        }
    }

    /// The bytes.
    pub fn as_bytes(&self) -> &[u8]
        ensures { result.now ≡ self.now }
    {
        self.bytes.as_slice()
    }

    /// A copy.
    pub fn copy(&self) -> Result<Name, NoMemory>
        ensures { IfOk result (λ copy. copy ≡ self.now) }
    {
        Ok(self.clone()?)
    }
}

impl Clone for Name {
    ghost is_clone = { λ name copy. copy ≡ name };

    fn clone(&self) -> Result<Self, AllocError> {
        Ok(Name {
            bytes: self.bytes.clone()?,
        })
    }
}

impl PartialEq for Name {
    ghost eq = { pointwise nat_eq };

    ghost laws = { partial_equiv_from_equiv nat_list_eq_equiv };

    fn eq(&self, other: &Name) -> bool {
        self.as_bytes() == other.as_bytes()
    }
}

impl Eq for Name {
    ghost laws = { nat_list_eq_equiv };
}

impl PartialOrd for Name {
    ghost partial_cmp = { λ x y. Some (slice_cmp nat_cmp x y) };

    ghost laws = { texts_po };

    fn partial_cmp(&self, other: &Name) -> Option<Ordering> {
        Some(self.cmp(other))
    }
}

impl Ord for Name {
    ghost cmp = { slice_cmp nat_cmp };

    ghost total = { nat_list_cmp_total };

    ghost matches_partial_cmp = { λ x y. refl };

    ghost matches_eq = { texts_ties };

    fn cmp(&self, other: &Name) -> Ordering {
        self.as_bytes().cmp(other.as_bytes())
    }
}
