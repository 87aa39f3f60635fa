//! What is cut out of tables and maps.
use crate::calls::named;
use cfs_ids::{DirAttr, DirId, FileId, Node, PlaceNo, Stamp};
use cfs_maps::NumberMap;
use cfs_table::{DirRec, Row, Table};
use std::alloc::Global;
use std::test::Fail;

// The row of a file that the step 2 of shard 0 set.
fn row_of(file: u64) -> Row {
    Row {
        node: Node::File(FileId(file)),
        stamp: Stamp {
            number: 2,
            place: PlaceNo(0),
        },
    }
}

// A record with two rows.
fn rec_of_two() -> DirRec {
    DirRec {
        attr: DirAttr {
            children: 2,
            subdirs: 0,
            time: 3,
        },
        back: None,
        owner: None,
        lock: None,
    }
}

// A table with the rows a of file 64 and b of file 128, and the record of the root.
fn two_rows(alloc: Global) -> Result<Table, Fail> {
    let mut table = Table::new(alloc);
    table.set_row(DirId(0), named(alloc, b'a')?, row_of(64))?;
    table.set_row(DirId(0), named(alloc, b'b')?, row_of(128))?;
    table.set_rec(DirId(0), rec_of_two())?;
    Ok(table)
}

#[test]
fn cuts_the_row_and_no_other(rt: HostRuntime) -> Result<(), Fail> {
    let mut table = two_rows(rt.alloc())?;
    let (a, b) = (named(rt.alloc(), b'a')?, named(rt.alloc(), b'b')?);
    let cut = table.cut_row(DirId(0), &a);
    assert!(rt; cut == Some(row_of(64)));
    let none = [table.cut_row(DirId(0), &a), table.cut_row(DirId(64), &b)];
    assert!(rt; none == [None, None]);
    assert!(rt; table.row(DirId(0), &b) == Some(&row_of(128)));
    Ok(())
}

#[test]
fn a_key_goes_with_its_last_name(rt: HostRuntime) -> Result<(), Fail> {
    let mut rows = NumberMap::new(rt.alloc());
    let (a, b) = (named(rt.alloc(), b'a')?, named(rt.alloc(), b'b')?);
    rows.set_name(rt.alloc(), 64, named(rt.alloc(), b'a')?, 1u64)?;
    rows.set_name(rt.alloc(), 64, named(rt.alloc(), b'b')?, 2)?;
    if let Some(names) = rows.get_mut(64) {
        if let Some(value) = names.get_mut(&b) {
            *value = 5;
        }
    }
    assert!(rt; rows.cut_name(64, &a) == Some(1));
    assert!(rt; rows.len() == 1);
    assert!(rt; rows.cut_name(64, &b) == Some(5));
    assert!(rt; rows.len() == 0);
    Ok(())
}
