//! Bytes that are no name, words of errnos, and attributes with what is pending.
use cfs_ids::{Delta, DirAttr, Errno, Name, NameFault, errno_of, fold};

#[test]
fn bytes_that_are_no_name_have_their_fault(rt: HostRuntime) {
    let bytes = [b'a'; 256];
    let faults = [
        (bytes.as_slice(), NameFault::TooLong(256)),
        (b"a/b".as_slice(), NameFault::BadByte(1)),
        (b" ".as_slice(), NameFault::BadByte(0)),
        (b"ab\x7f".as_slice(), NameFault::BadByte(2)),
        (b"".as_slice(), NameFault::Empty),
    ];
    for (bytes, want) in faults {
        let read = Name::read(rt.alloc(), bytes);
        assert!(rt; matches!(&read, Err(fault) if *fault == want), "{want:?}");
    }
}

#[test]
fn words_of_errnos_are_read(rt: HostRuntime) {
    let words = [
        (b"ENOENT".as_slice(), Some(Errno::Enoent)),
        (b"EEXIST".as_slice(), Some(Errno::Eexist)),
        (b"ENOTDIR".as_slice(), Some(Errno::Enotdir)),
        (b"EISDIR".as_slice(), Some(Errno::Eisdir)),
        (b"ENOTEMPTY".as_slice(), Some(Errno::Enotempty)),
        (b"EPERM".as_slice(), Some(Errno::Eperm)),
        (b"EINVAL".as_slice(), Some(Errno::Einval)),
        (b"ENAMETOOLONG".as_slice(), Some(Errno::Enametoolong)),
        (b"EEXISTS".as_slice(), None),
    ];
    for (word, errno) in words {
        assert!(rt; errno_of(word) == errno, "{errno:?}");
    }
}

#[test]
fn deltas_change_the_counts_and_the_time_is_the_greatest(rt: HostRuntime) {
    let base = DirAttr {
        children: 2,
        subdirs: 1,
        time: 5,
    };
    let one_more = Delta {
        children: 1,
        subdirs: 0,
        time: 3,
    };
    let two_less = Delta {
        children: -2,
        subdirs: -1,
        time: 9,
    };
    let after = DirAttr {
        children: 1,
        subdirs: 0,
        time: 9,
    };
    assert!(rt; fold(base, &[one_more, two_less]) == after);
    assert!(rt; fold(base, &[]) == base);
}
