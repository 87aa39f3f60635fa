//! Paths.
ghost use Rattle.std.specs.Prelude.{◌≡◌, ◌<◌, ◌++◌, ◌∷◌, [], length, slice_get, OnOk, OnErr, IfErr};
ghost use Rattle.std.specs.Option.{option_copied};
ghost use Rattle.next_walk.specs.Paths.{is_filled, names_entry};
ghost use Rattle.next_walk.specs.Walks.{is_too_long};

use crate::component::Component;
use std::alloc::{AllocError, Global};
use std::marker::Model;

/// A path from the root on, of at most 64 components. Without components it is the root, `/` (POSIX.1-2017, Base
/// Definitions, 3.271 Pathname, in this service's profile).
#[derive(Debug, Drop)]
pub struct Path {
    components: Vec<Component>,
}

impl Model for Path {
    ghost use Rattle.std.specs.Prelude.{List, ℕ, ◌≤◌, length};

    ghost Value = { List (List ℕ) };

    ghost view = { λ path. path.components.items };

    ghost invariant = { λ path. length path.components.items ≤ 64 };
}

impl Path {
    /// The root.
    pub fn new(alloc: Global) -> Path
        ensures { result ≡ [] }
    {
        Path {
            components: Vec::new(alloc),
        }
    }

    /// How many components there are.
    pub fn len(&self) -> usize
        ensures { result ≡ length self.now }
    {
        self.components.len()
    }

    /// The component at the index. None comes exactly at and past the length.
    pub fn get(&self, i: usize) -> Option<&Component>
        ensures { option_copied result ≡ slice_get self.now i }
    {
        self.components.get(i)
    }

    /// The components.
    pub fn as_slice(&self) -> &[Component]
        ensures { result.now ≡ self.now }
    {
        self.components.as_slice()
    }

    /// Whether no component is empty.
    pub fn is_filled(&self) -> bool
        ensures { result ≡ is_filled self.now }
    {
        self.components.iter().all(|component| component.len() > 0)
    }

    /// Whether there is a component, and none is empty.
    pub fn names_entry(&self) -> bool
        ensures { result ≡ names_entry self.now }
    {
        self.len() > 0 && self.is_filled()
    }

    /// Whether a component has over 255 bytes, more than a name may.
    pub fn is_too_long(&self) -> bool
        ensures { result ≡ is_too_long self.now }
    {
        self.components
            .iter()
            .any(|component| component.len() > 255)
    }

    /// Adds a component behind the others, which are fewer than 64. The Err is want of memory, and hands the component
    /// back.
    pub fn push(&mut self, component: Component) -> Result<(), Component>
        requires { length self.old < 64 }
        ensures ok { OnOk result (self.new ≡ self.old ++ component ∷ []) }
        ensures err { OnErr result (self.new ≡ self.old) }
        ensures back { IfErr result (λ back. back ≡ component) }
    {
        match self.components.push(component) {
            Ok(()) => Ok(()),
            Err(failed) => Err(failed.value),
        }
    }
}

impl Clone for Path {
    ghost is_clone = { λ path copy. copy ≡ path };

    fn clone(&self) -> Result<Self, AllocError> {
        Ok(Path {
            components: self.components.clone()?,
        })
    }
}
