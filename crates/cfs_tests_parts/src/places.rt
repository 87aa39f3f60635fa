//! Places: what is left to do and whether counts and attributes hold after steps, and the readers of the places.
ghost use Rattle.std.specs.Prelude.{◌<◌, ◌≤◌, IfOk};
ghost use Rattle.cfs_view.specs.Views.{IsService};

use crate::calls::named;
use Step::{End, Insert, Put, PutDir, Settle, TakeBack};
use cfs_desk::Desk;
use cfs_ids::{Actor, Client, DirId, FileId, Name, NoMemory, Node, PlaceNo, Stamp};
use cfs_shard::{Row, Shard};
use cfs_steps::{Answer, Ask, ServeFault};
use cfs_store::{FileRec, Store};
use cfs_view::{Place, PlaceList, Places, attributes_hold, counts_hold, tally};
use std::alloc::Global;

const ROOT: DirId = DirId(0);

const DIR: DirId = DirId(65);

const FILE: FileId = FileId(64);

const CLIENT: Client = Client(7);

// A step of client 7: a put in a place, and a row of a directory with a letter.
#[derive(Clone, Copy)]
enum Step {
    Put(u32),
    PutDir(u32),
    Insert(DirId, u8, Node),
    Settle(Node),
    TakeBack(Node),
    End,
}

// What is seen after a step: how many nodes are owed and how many stray, and whether counts and attributes hold.
type Seen = (u64, u64, bool, bool);

// A file is put, named and settled. Then a row names a file that there is not.
const NAMED_FILE: [(Step, Seen); 4] = [
    (Put(64), (1, 0, true, true)),
    (Insert(ROOT, b'a', Node::File(FILE)), (1, 0, true, true)),
    (Settle(Node::File(FILE)), (0, 0, true, true)),
    (
        Insert(ROOT, b'b', Node::File(FileId(128))),
        (0, 0, true, false),
    ),
];

const STRAY_FILE: [(Step, Seen); 2] = [(Put(64), (1, 0, true, true)), (End, (1, 1, true, true))];

const STRAY_DIRECTORY: [(Step, Seen); 2] = [
    (PutDir(1), (1, 0, true, true)),
    (End, (1, 1, true, true)),
];

const TAKEN_BACK: [(Step, Seen); 3] = [
    (PutDir(1), (1, 0, true, true)),
    (Insert(DIR, b'e', Node::Dir(ROOT)), (1, 0, true, true)),
    (TakeBack(Node::Dir(DIR)), (0, 0, true, true)),
];

fn ask_of(alloc: Global, step: Step) -> Result<Ask, NoMemory> {
    let client = CLIENT;
    Ok(match step {
        Put(place) => Ask::Put {
            client,
            at: PlaceNo(place),
            home: ROOT,
        },
        PutDir(place) => Ask::PutDir {
            client,
            at: PlaceNo(place),
            dir: ROOT,
            name: named(alloc, b'd')?,
        },
        Insert(dir, letter, node) => Ask::Insert {
            client,
            dir,
            name: named(alloc, letter)?,
            node,
            ts: 1,
        },
        Settle(node) => Ask::Settle { node },
        TakeBack(node) => Ask::TakeBack { client, node },
        End => Ask::End { client },
    })
}

// Serves the ask, where its place is there; `last` is the client's last number.
fn serve(places: &mut Places, last: u64, ask: &Ask) -> Result<(), ServeFault>
    requires { IsService places.old }
    ensures { IsService places.new }
{
    if places.get(ask.place()).is_none() {
        return Ok(());
    }
    let _ = places.serve(Actor::Client(CLIENT), last, ask)?;
    Ok(())
}

fn seen_of(places: &Places) -> Seen
    requires { IsService places.now }
{
    let left = tally(places);
    (
        left.owed,
        left.strays,
        counts_hold(places),
        attributes_hold(places),
    )
}

// Whether this is seen after the steps, each with a number above those before it.
fn are_seen(alloc: Global, places: &mut Places, steps: &[(Step, Seen)]) -> Result<bool, ServeFault>
    requires { IsService places.old }
    ensures { IsService places.new }
{
    let mut last = 0u64;
    for (step, seen) in steps {
        serve(places, last, &ask_of(alloc, *step)?)?;
        if seen_of(places) != *seen {
            return Ok(false);
        }
        last = last.saturating_add(1);
    }
    Ok(true)
}

#[test]
fn what_is_owed_and_strays_and_holds_after_each_step(rt: HostRuntime) -> Result<(), ServeFault> {
    let tables = [
        ("a named file", NAMED_FILE.as_slice()),
        ("a stray file", STRAY_FILE.as_slice()),
        ("a stray directory", STRAY_DIRECTORY.as_slice()),
        ("a directory taken back", TAKEN_BACK.as_slice()),
    ];
    for (table, steps) in tables {
        let mut places = Places::new(rt.alloc(), 2, 1)?;
        assert!(rt; are_seen(rt.alloc(), &mut places, steps)?, "{table}");
    }
    Ok(())
}

// A file that two rows of the root name: b, and then a.
const TWO_ROWS: [(Step, Seen); 3] = [
    (Put(64), (1, 0, true, true)),
    (Insert(ROOT, b'b', Node::File(FILE)), (1, 0, true, true)),
    (Insert(ROOT, b'a', Node::File(FILE)), (1, 0, true, true)),
];

// Two shards and a store with these rows.
fn with_rows(alloc: Global) -> Result<Places, ServeFault>
    ensures { IfOk result (λ places. IsService places) }
{
    let mut places = Places::new(alloc, 2, 1)?;
    let _ = are_seen(alloc, &mut places, &TWO_ROWS)?;
    Ok(places)
}

// The row of file 64 that this step of shard 0 set.
fn row_of(number: u64) -> Row {
    Row {
        node: Node::File(FILE),
        stamp: Stamp {
            number,
            place: PlaceNo(0),
        },
    }
}

// Whether the rows of the shard are a and b.
fn has_rows(shard: &Shard, a: &Name, b: &Name) -> bool {
    shard.next_row(None) == Some((ROOT, a, &row_of(3)))
        && shard.next_row(Some((ROOT, a))) == Some((ROOT, b, &row_of(2)))
        && shard.next_row(Some((ROOT, b))).is_none()
}

// Whether the root with two names has the one record of the shard, which names file 64 and no directory and has no
// lock.
fn has_root(shard: &Shard) -> bool {
    let rec = shard.rec(ROOT);
    let first = shard.next_rec(None);
    let names = (shard.names_file(FILE), shard.names_dir(DIR));
    names == (true, false)
        && rec.is_some_and(|rec| rec.attr.children == 2)
        && first.is_some_and(|first| first.0 == ROOT)
        && shard.next_rec(Some(ROOT)).is_none()
        && shard.next_lock(None).is_none()
}

// Whether file 64 of the client is the store's one file.
fn has_file(store: &Store) -> bool {
    let want = FileRec {
        size: 0,
        time: 1,
        owner: Some(CLIENT),
        home: ROOT,
    };
    store.next_file(None) == Some((FILE, &want))
        && store.next_file(Some(FILE)).is_none()
        && store.file(FILE) == Some(&want)
        && store.file(FileId(0)).is_none()
}

#[test]
fn a_shard_and_a_store_are_read(rt: HostRuntime) -> Result<(), ServeFault> {
    let places = with_rows(rt.alloc())?;
    let (a, b) = (named(rt.alloc(), b'a')?, named(rt.alloc(), b'b')?);
    match places.get(PlaceNo(0)) {
        Some(Place::Shard(shard)) => {
            assert!(rt; has_rows(shard, &a, &b));
            assert!(rt; has_root(shard));
        }
        _ => assert!(rt; false, "a shard"),
    }
    match places.get(PlaceNo(64)) {
        Some(Place::Store(store)) => assert!(rt; has_file(store)),
        _ => assert!(rt; false, "a store"),
    }
    Ok(())
}

fn letter_of(place: Option<&Place>) -> u8 {
    match place {
        Some(Place::Shard(_)) => b's',
        Some(Place::Store(_)) => b'f',
        Some(Place::Desk(_)) => b'd',
        Some(Place::Roster(_)) => b'r',
        None => b'-',
    }
}

// What each place is: a shard, a file store, the desk, the roster or none.
const PLACES: [(u32, u8); 8] = [
    (1, b's'),
    (2, b'-'),
    (63, b'-'),
    (64, b'f'),
    (65, b'-'),
    (128, b'd'),
    (129, b'r'),
    (130, b'-'),
];

#[test]
fn each_place_has_its_number_also_through_a_list(rt: HostRuntime) -> Result<(), ServeFault> {
    let list = with_rows(rt.alloc())?.into_list();
    assert!(rt; list.len() == 5 && letter_of(list.get(2)) == b'f' && list.get(5).is_none());
    let mut places = Places::from_list(list);
    for (place, letter) in PLACES {
        assert!(rt; letter_of(places.get(PlaceNo(place))) == letter, "{place}");
    }
    let roster = places.get_mut(PlaceNo(129));
    assert!(rt; matches!(roster, Some(Place::Roster(_))));
    Ok(())
}

#[test]
fn the_desk_logs_what_it_does_not_answer(rt: HostRuntime) -> Result<(), ServeFault> {
    let mut places = Places::new(rt.alloc(), 1, 1)?;
    serve(&mut places, 7, &ask_of(rt.alloc(), Put(128))?)?;
    let Some(desk) = places.get(PlaceNo(128)) else {
        assert!(rt; false, "the desk");
        return Ok(());
    };
    assert!(rt; (desk.count(), desk.last()) == (1, 8));
    let entry = desk.entry(0);
    assert!(rt; entry.is_some_and(|entry| matches!(&entry.answer, Answer::None)));
    Ok(())
}

#[test]
fn a_list_of_places_is_as_pushed(rt: HostRuntime) -> Result<(), ServeFault> {
    let mut list = PlaceList::new(rt.alloc());
    let pushed = list.push(Place::Desk(Desk::new(rt.alloc())?)).is_ok();
    assert!(rt; pushed && letter_of(list.get(0)) == b'd');
    Ok(())
}
