//! The names in a path.
ghost use Rattle.std.specs.Prelude.{◌≡◌, nat_lt, length, false, IfOk, IsTrue};
ghost use Rattle.next_walk.specs.Paths.{is_filled};
ghost use Rattle.next_walk.specs.Walks.{is_too_long};

use crate::component::Component;
use crate::path::Path;
use next_ids::{Name, NoMemory};
use std::alloc::Global;
use std::collections::VecDeque;

// The name that a component of 1 to 255 bytes is.
fn name_of(alloc: Global, component: &Component) -> Result<Name, NoMemory>
    requires some { IsTrue (nat_lt 0 (length component.now)) }
    requires short { nat_lt 255 (length component.now) ≡ false }
    ensures { IfOk result (λ name. name ≡ component.now) }
{
    match Name::read(alloc, component.as_bytes()) {
        Ok(name) => Ok(name),
        // The bytes are a name's, so that memory alone can be wanted.
        Err(_) => Err(NoMemory),
    }
}

/// The names that a path's components are.
pub fn names_of(alloc: Global, path: &Path) -> Result<VecDeque<Name>, NoMemory>
    requires filled { IsTrue (is_filled path.now) }
    requires short { is_too_long path.now ≡ false }
    ensures { IfOk result (λ names. names.items ≡ path.now) }
{
    let mut names = VecDeque::new(alloc);
    let components = path.as_slice();
    for component in components {
        names.push_back(name_of(alloc, component)?)?;
    }
    Ok(names)
}
