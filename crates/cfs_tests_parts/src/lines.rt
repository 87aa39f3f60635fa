//! Lines of each kind, in pieces of each size, and with reads that fail.
ghost use Rattle.std.specs.Prelude.{◌<◌, ◌^◌};

use Want::{End, Fault, Line, Long, Past, TooLong};
use cfs_io::{LineFault, LineGot, LineReader, MemSource, Source, StdSource, TextLine};
use std::alloc::Global;
use std::test::Fail;

// What a reader answers: a line of these bytes or of so many, or another answer.
#[derive(Clone, Copy)]
enum Want {
    Line(&'static [u8]),
    Long(usize),
    TooLong,
    Past,
    End,
    Fault,
}

// A text: so many x and these bytes behind them, read up to a limit. Then what its reader answers.
type Row = (usize, &'static [u8], u64, &'static [Want]);

// Lines have their bytes without the LF, in any pieces.
const LINES: [Row; 3] = [
    (
        0,
        b"ab\n\nc\r\nd",
        100,
        &[Line(b"ab"), Line(b""), Line(b"c\r"), Line(b"d"), End],
    ),
    (0, b"a\n", 100, &[Line(b"a"), End]),
    (0, b"", 100, &[End]),
];

// A line has 4,096 bytes at most.
const LONG: [Row; 6] = [
    (4096, b"\na", 9999, &[Long(4096), Line(b"a"), End]),
    (4097, b"\na", 9999, &[TooLong, Line(b"a"), End]),
    (4096, b"\r\n", 9999, &[TooLong, End]),
    (4096, b"", 9999, &[Long(4096), End]),
    (4097, b"", 9999, &[TooLong, End]),
    (9000, b"\n\nb", 9999, &[TooLong, Line(b""), Line(b"b"), End]),
];

// The byte past the limit counts with its line.
const PAST: [Row; 9] = [
    (0, b"ab\ncd\n", 6, &[Line(b"ab"), Line(b"cd"), End]),
    (0, b"ab\ncd\n", 5, &[Line(b"ab"), Past]),
    (0, b"ab\ncd\n", 3, &[Line(b"ab"), Past]),
    (0, b"ab\ncd\n", 2, &[Past]),
    (0, b"ab\ncd", 5, &[Line(b"ab"), Line(b"cd"), End]),
    (0, b"ab\ncd", 4, &[Line(b"ab"), Past]),
    (0, b"", 0, &[End]),
    (4097, b"", 4097, &[TooLong, End]),
    (4097, b"", 4096, &[Past]),
];

// Of the reads of "ab", LF and c in pieces of 3, this one fails.
const FAULTS: [(u64, &[Want]); 4] = [
    (1, &[Fault]),
    (2, &[Line(b"ab"), Fault]),
    (3, &[Line(b"ab"), Fault]),
    // The third read tells the end, so there is no fourth.
    (4, &[Line(b"ab"), Line(b"c"), End]),
];

fn is_line(line: &TextLine, want: Want) -> bool {
    match want {
        Line(bytes) => line.as_slice() == bytes && line.get(bytes.len()).is_none(),
        Long(count) => line.len() == count,
        _ => false,
    }
}

fn is_answer(answer: &Result<(u64, LineGot), LineFault>, number: u64, want: Want) -> bool {
    match (answer, want) {
        (Ok((at, LineGot::Line(line))), want) => *at == number && is_line(line, want),
        (Ok((at, LineGot::TooLong)), TooLong) => *at == number,
        (Ok((at, LineGot::PastLimit)), Past) => *at == number,
        (Ok((at, LineGot::End)), End) => *at == number,
        (Err(LineFault::Read), Fault) => true,
        _ => false,
    }
}

// How many of the answers of a reader over the source are as wanted, from the first on.
fn answered<S: Source>(
    alloc: Global,
    source: &mut S,
    most: u64,
    wants: &[Want],
) -> Result<u64, Fail>
    requires { most < 2 ^ 63 }
{
    let mut reader = LineReader::new(alloc, source, most)?;
    let mut count = 0u64;
    for want in wants {
        let answer = reader.next_line();
        let goes_on = matches!(answer, Ok((_, LineGot::Line(_) | LineGot::TooLong)));
        let number = count.saturating_add(1);
        if !is_answer(&answer, number, *want) {
            break;
        }
        count = number;
        if !goes_on {
            break;
        }
    }
    Ok(count)
}

// Whether a reader over these bytes answers so, in pieces of this size and with this read failing.
fn answers(
    alloc: Global,
    bytes: &[u8],
    most: u64,
    piece: usize,
    fails: u64,
    wants: &[Want],
) -> Result<bool, Fail>
    requires some { 0 < piece }
    requires small { most < 2 ^ 63 }
{
    let bytes = Vec::from_slice(alloc, bytes)?;
    let fails = Vec::from_slice(alloc, &[fails])?;
    let mut source = MemSource::new(bytes, piece, fails);
    let count = answered(alloc, &mut source, most, wants)?;
    Ok(count == wants.len() as u64)
}

// Whether the reader of a row answers so in pieces of any size.
fn goes(alloc: Global, row: Row) -> Result<bool, Fail> {
    let (len, rest, most, wants) = row;
    let mut bytes = vec![in alloc; b'x'; len]?;
    bytes.extend_from_slice(rest)?;
    let mut all = most < 10_000;
    for piece in [1usize, 3, 5000] {
        all = all && most < 10_000 && answers(alloc, bytes.as_slice(), most, piece, 0, wants)?;
    }
    Ok(all)
}

// The index of the first row whose reader answers otherwise.
fn first_otherwise(alloc: Global, rows: &[Row]) -> Result<Option<usize>, Fail> {
    for (i, row) in rows.iter().enumerate() {
        if !goes(alloc, *row)? {
            return Ok(Some(i));
        }
    }
    Ok(None)
}

#[test]
fn lines_are_told_with_their_numbers_in_any_pieces(rt: HostRuntime) -> Result<(), Fail> {
    for table in [LINES.as_slice(), LONG.as_slice(), PAST.as_slice()] {
        let otherwise = first_otherwise(rt.alloc(), table)?;
        assert!(rt; otherwise.is_none(), "row {otherwise:?}");
    }
    Ok(())
}

#[test]
fn a_read_that_fails_ends_the_lines(rt: HostRuntime) -> Result<(), Fail> {
    for (fails, wants) in FAULTS {
        assert!(rt;
            answers(rt.alloc(), b"ab\nc", 100, 3, fails, wants)?,
            "{fails}"
        );
    }
    Ok(())
}

#[test]
fn one_byte_past_the_limit_is_read(rt: HostRuntime) -> Result<(), Fail> {
    let mut source = StdSource::new(b"abcdef".as_slice());
    assert!(rt; answered(rt.alloc(), &mut source, 2, &[Past])? == 1);
    assert!(rt; source.read(&mut [0; 10]) == Ok(3));
    Ok(())
}
