//! Whether two calls are one.
ghost use Rattle.std.specs.Prelude.{◌≡◌};
ghost use Rattle.next_ids.specs.Namespace.{is_one_name};
ghost use Rattle.next_rules.specs.SameCalls.{is_call};

use next_ids::{Call, DirId, Name};

// Whether the two names are one.
fn is_one_name(dir: DirId, name: &Name, other_dir: DirId, other: &Name) -> bool
    ensures { result ≡ is_one_name dir name.now other_dir other.now }
{
    dir == other_dir && name == other
}

/// Whether the two calls are one.
pub(crate) fn is_call(call: &Call, other: &Call) -> bool
    ensures { result ≡ is_call call.now other.now }
{
    match (call, other) {
        (Call::Lookup { dir, name }, Call::Lookup { dir: d, name: n })
        | (Call::Stat { dir, name }, Call::Stat { dir: d, name: n })
        | (Call::Create { dir, name }, Call::Create { dir: d, name: n })
        | (Call::Mkdir { dir, name }, Call::Mkdir { dir: d, name: n })
        | (Call::Unlink { dir, name }, Call::Unlink { dir: d, name: n })
        | (Call::Rmdir { dir, name }, Call::Rmdir { dir: d, name: n }) => {
            is_one_name(*dir, name, *d, n)
        }
        (Call::List { dir }, Call::List { dir: d }) => dir == d,
        (Call::StatRoot, Call::StatRoot) => true,
        (Call::Truncate { file, size }, Call::Truncate { file: f, size: s }) => {
            file == f && size == s
        }
        (
            Call::Rename {
                dir,
                name,
                to_dir,
                to_name,
            },
            Call::Rename {
                dir: d,
                name: n,
                to_dir: td,
                to_name: tn,
            },
        ) => is_one_name(*dir, name, *d, n) && is_one_name(*to_dir, to_name, *td, tn),
        _ => false,
    }
}
