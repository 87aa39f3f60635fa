//! Paths.
ghost use Rattle.std.specs.Prelude.{◌≡◌, ◌++◌, ◌∷◌, [], ◌&&◌, nat_lt, length, if◌then◌else◌, IfOk};
ghost use Rattle.std.specs.List.{list_all};
ghost use Rattle.next_ids.specs.Names.{is_allowed};
ghost use Rattle.next_grammar.specs.Words.{pieces};
ghost use Rattle.next_grammar.specs.Paths.{is_dots, is_component, components_of, path_of, place_of};

use crate::words::cut_at;
use next_ids::NoMemory;
use next_walk::{Component, Path};
use std::alloc::Global;

const MOST_BYTES: usize = 1024;

const MOST_COMPONENTS: usize = 64;

#[tactic(auto, unfolding(crate::specs::Paths::is_dots))]
fn dots(name: &[u8]) -> bool
    ensures { result ≡ is_dots name.now }
{
    name == b".".as_slice() || name == b"..".as_slice()
}

// Whether a path may have a component of these bytes.
#[tactic(auto, unfolding(crate::specs::Paths::is_component))]
fn good_component(name: &[u8]) -> bool
    ensures { result ≡ is_component name.now }
{
    !name.is_empty() && all_allowed(name) && !dots(name)
}

fn all_allowed(name: &[u8]) -> bool
    ensures { result ≡ list_all is_allowed name.now }
{
    name.iter().all(|b| allowed(*b))
}

fn allowed(byte: u8) -> bool
    ensures { result ≡ is_allowed byte }
{
    (byte >= 0x21 && byte <= 0x7e && byte != b'/') || byte >= 0x80
}

// Adds the component of these bytes, where the path may have one more.
fn add_component(alloc: Global, path: &mut Path, name: &[u8]) -> Result<bool, NoMemory>
    ensures fits { IfOk result (λ fits. fits ≡ (is_component name.now && nat_lt (length path.old) 64)) }
    ensures path { IfOk result (λ fits. path.new ≡ (if fits then path.old ++ name.now ∷ [] else path.old)) }
{
    if !good_component(name) || path.len() >= MOST_COMPONENTS {
        return Ok(false);
    }
    let component = Component::from_bytes(alloc, name)?;
    match path.push(component) {
        Ok(()) => Ok(true),
        Err(_) => Err(NoMemory),
    }
}

// The path of these components, with a slash between any two.
fn read_components(alloc: Global, text: &[u8]) -> Result<Option<Path>, NoMemory>
    ensures { IfOk result (λ path. path ≡ components_of ([] ∷ pieces 47 text.now)) }
{
    let mut path = Path::new(alloc);
    let mut rest = text;
    while let Some((name, more)) = cut_at(rest, b'/') {
        if !add_component(alloc, &mut path, name)? {
            return Ok(None);
        }
        rest = more;
    }
    if add_component(alloc, &mut path, rest)? {
        Ok(Some(path))
    } else {
        Ok(None)
    }
}

/// The path of a text, where it is one and not the root's.
#[tactic(auto, unfolding(crate::specs::Paths::path_of))]
pub fn read_path(alloc: Global, text: &[u8]) -> Result<Option<Path>, NoMemory>
    ensures { IfOk result (λ path. path ≡ path_of text.now) }
{
    if text.len() > MOST_BYTES {
        return Ok(None);
    }
    match text {
        [b'/', rest @ ..] => read_components(alloc, rest),
        _ => Ok(None),
    }
}

/// The path of a text, where it is one.
#[tactic(auto, unfolding(crate::specs::Paths::place_of))]
pub fn read_place(alloc: Global, text: &[u8]) -> Result<Option<Path>, NoMemory>
    ensures { IfOk result (λ path. path ≡ place_of text.now) }
{
    if text == b"/".as_slice() {
        return Ok(Some(Path::new(alloc)));
    }
    read_path(alloc, text)
}
