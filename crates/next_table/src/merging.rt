//! How pending changes are worked in.
ghost use Rattle.std.specs.Prelude.{◌≡◌, ℕ, Some};
ghost use Rattle.std.specs.FinMap as map;
ghost use Rattle.next_ids.specs.Attributes.{CanFold};
ghost use Rattle.next_ids.specs.Maps.{map_values};
ghost use Rattle.next_steps.specs.declared.contents.DirRec.{DirRec};
ghost use Rattle.next_rules.specs.Changes.{merged};
ghost use Rattle.next_rules.specs.Owning.{merged_at, merge};
ghost use Rattle.next_rules.specs.Strays.{dir_of_number, lies_here};
ghost use Rattle.next_table.specs.Tables.{contents_of};
ghost use Rattle.next_table.specs.Records.{changed_at};

use crate::table::Table;
use next_ids::{DirId, Node, PlaceNo, fold};
use next_maps::NumberMap;
use next_steps::{DirRec, home_of};

// Works the pending changes of a record into its base.
fn work_in(rec: &mut DirRec)
    requires { CanFold rec.old.base rec.old.pending }
    ensures { rec.new ≡ merged rec.old }
{
    rec.base = fold(rec.base, rec.pending.as_slice());
    rec.pending.clear();
}

// Whether the directory's record lies in the place.
fn lies_here(place: PlaceNo, dir: u64) -> bool
    ensures { result ≡ lies_here place (dir_of_number dir) }
{
    home_of(Node::Dir(DirId(dir))).0 == place.0
}

// Works the pending changes of a directory's record in, where it lies in the place.
fn merge_at(recs: &mut NumberMap<DirRec>, place: PlaceNo, dir: u64)
    requires { (r : DirRec) → map.get recs.old dir ≡ Some r → CanFold r.base r.pending }
    ensures { recs.new ≡ changed_at recs.old dir (merged_at place dir) (map.get recs.old dir) }
{
    if !lies_here(place, dir) {
        return;
    }
    if let Some(rec) = recs.get_mut(dir) {
        work_in(rec);
    }
}

// Works the pending changes of all records that lie in the place in, one after the other.
fn merge_all(recs: &mut NumberMap<DirRec>, place: PlaceNo)
    requires { (d : ℕ) (r : DirRec) → map.get recs.old d ≡ Some r → CanFold r.base r.pending }
    ensures { recs.new ≡ map_values (merged_at place) recs.old }
{
    let mut at = None;
    while let Some((dir, _)) = recs.next(at) {
        merge_at(recs, place, dir);
        at = Some(dir);
    }
}

impl Table {
    /// Works the pending changes of each record that lies in the place into its base. It needs that those of each record
    /// can be folded, and takes no memory.
    pub fn merge(&mut self, place: PlaceNo)
        requires { (d : ℕ) (r : DirRec) → map.get (contents_of self.old).recs d ≡ Some r → CanFold r.base r.pending }
        ensures { contents_of self.new ≡ (merge (contents_of self.old) place).contents }
    {
        merge_all(&mut self.recs, place);
    }
}
