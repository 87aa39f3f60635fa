//! A walk through the names of all directories, by directory and then by name.
ghost use Rattle.std.specs.Prelude.{◌≡◌, ◌∷◌, Some};
ghost use Rattle.std.specs.Option.{option_map};
ghost use Rattle.std.specs.Ordering.{nat_cmp};
ghost use Rattle.std.specs.Cmp.Lexicographic.{slice_cmp};
ghost use Rattle.std.specs.FinMap as map;
ghost use Rattle.next_ids.specs.Maps.{row_key};
ghost use Rattle.next_maps.specs.Nested.{names_of};
ghost use Rattle.next_maps.specs.Walks.{entries_after, first_of};
ghost use Rattle.next_table.specs.Flat.{flattened, flat};

use next_ids::{DirId, Name};
use next_maps::{NameMap, NumberMap};

// The first entry of the directories above `after`, or of all. None comes exactly where they have none.
fn first_in<V>(maps: &NumberMap<NameMap<V>>, after: Option<u64>) -> Option<(u64, &Name, &V)>
    ensures { option_map (λ entry. (entry.0 ∷ entry.1.now, entry.2.now)) result ≡ first_of (flattened (entries_after nat_cmp after (map.entries maps.now))) }
{
    let mut at = after;
    while let Some((dir, names)) = maps.next(at) {
        if let Some((name, value)) = names.next(None) {
            return Some((dir, name, value));
        }
        at = Some(dir);
    }
    None
}

// The first entry of the directory whose name is above `after`.
fn next_name<'a, V>(
    maps: &'a NumberMap<NameMap<V>>,
    dir: u64,
    after: &Name,
) -> Option<(&'a Name, &'a V)>
    ensures { option_map (λ entry. (entry.0.now, entry.1.now)) result ≡ first_of (entries_after (slice_cmp nat_cmp) (Some after.now) (map.entries (names_of (map.get maps.now dir)))) }
{
    match maps.get(dir) {
        Some(names) => names.next(Some(after)),
        None => None,
    }
}

// The first entry above the name `after` of the directory. None comes exactly where there is none.
fn above_in<'a, V>(
    maps: &'a NumberMap<NameMap<V>>,
    dir: u64,
    after: &Name,
) -> Option<(u64, &'a Name, &'a V)>
    ensures { option_map (λ entry. (entry.0 ∷ entry.1.now, entry.2.now)) result ≡ first_of (entries_after (slice_cmp nat_cmp) (Some (dir ∷ after.now)) (map.entries (flat maps.now))) }
{
    match next_name(maps, dir, after) {
        Some((name, value)) => Some((dir, name, value)),
        None => first_in(maps, Some(dir)),
    }
}

/// The first entry above the name of the directory, or the first of all: by rising directories, and in each by rising
/// names. None comes exactly where there is no such entry.
pub fn next_in<'a, V>(
    maps: &'a NumberMap<NameMap<V>>,
    after: Option<(DirId, &Name)>,
) -> Option<(DirId, &'a Name, &'a V)>
    ensures { option_map (λ entry. (row_key entry.0 entry.1.now, entry.2.now)) result ≡ first_of (entries_after (slice_cmp nat_cmp) (option_map (λ place. row_key place.0 place.1.now) after.entry) (map.entries (flat maps.now))) }
{
    let found = match after {
        Some((dir, name)) => above_in(maps, dir.0, name),
        None => first_in(maps, None),
    };
    match found {
        Some((dir, name, value)) => Some((DirId(dir), name, value)),
        None => None,
    }
}
