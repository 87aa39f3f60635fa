//! Writing the parts of a line into any sink, a page at a time. None of these takes memory.
ghost use Rattle.std.specs.Prelude.{◌≡◌, [], OnOk, decimal, flat_map};
ghost use Rattle.std.specs.Io.KnownBytes.{Appends};
ghost use Rattle.next_io.specs.Causes.{HasCause};
ghost use Rattle.next_io.specs.Output.{AppendsFront};
ghost use Rattle.next_print.specs.Passing.{Adds, AddsFront};
ghost use Rattle.next_print.specs.Pieces.{piece_text, position_text, node_text, lettered};

use arrayvec::ArrayVec;
use itoa::Buffer;
use next_ids::{DirId, FileId, Node};
use next_io::{Failed, Sink};

/// A part of a line: bytes as they are, a number, a position or a node. What is missing is printed as `-`.
#[derive(Clone, Copy)]
pub(crate) enum Piece<'a> {
    Text(&'a [u8]),
    Number(u64),
    Position(Option<u64>),
    Node(Option<Node>),
}

/// Bytes that a sink is given next, all at once.
pub(crate) type Page = ArrayVec<u8, 4096>;

// Writes all of the bytes. After `Failed` a front of them was taken.
#[tactic(auto, using(next_io::proofs::Written::writing))]
fn hand_over<K: Sink>(sink: &mut K, bytes: &[u8]) -> Result<(), Failed>
    ensures ok { OnOk result (Appends (K.taken sink.old) (K.taken sink.new) bytes.now) }
    ensures front { AppendsFront (K.taken sink.old) (K.taken sink.new) bytes.now }
    ensures cause { HasCause (K.faults sink.old) (K.faults sink.new) result }
{
    let mut at = 0;
    while at < bytes.len() {
        at += sink.write(&bytes[at..])?;
    }
    Ok(())
}

/// Hands the page over, and begins it anew. After `Failed` a front of it was taken.
pub(crate) fn turn_page<K: Sink>(sink: &mut K, page: &mut Page) -> Result<(), Failed>
    ensures ok { OnOk result (Appends (K.taken sink.old) (K.taken sink.new) page.old.items) }
    ensures empty { OnOk result (page.new.items ≡ []) }
    ensures front { AppendsFront (K.taken sink.old) (K.taken sink.new) page.old.items }
    ensures cause { HasCause (K.faults sink.old) (K.faults sink.new) result }
{
    hand_over(sink, page.as_slice())?;
    page.clear();
    Ok(())
}

// Hands the page over, and then the bytes.
#[tactic(auto, using(crate::proofs::Passed::paging))]
fn put_past<K: Sink>(sink: &mut K, page: &mut Page, bytes: &[u8]) -> Result<(), Failed>
    ensures ok { OnOk result (Adds (K.taken sink.old) page.old.items (K.taken sink.new) page.new.items bytes.now) }
    ensures front { AddsFront (K.taken sink.old) page.old.items (K.taken sink.new) bytes.now }
    ensures cause { HasCause (K.faults sink.old) (K.faults sink.new) result }
{
    turn_page(sink, page)?;
    hand_over(sink, bytes)
}

/// Adds the bytes to the page, which is handed over first where they find no room in it. After `Failed` a front of the
/// page and the bytes was taken.
#[tactic(auto, using(crate::proofs::Passed::paging))]
pub(crate) fn put<K: Sink>(sink: &mut K, page: &mut Page, bytes: &[u8]) -> Result<(), Failed>
    ensures ok { OnOk result (Adds (K.taken sink.old) page.old.items (K.taken sink.new) page.new.items bytes.now) }
    ensures front { AddsFront (K.taken sink.old) page.old.items (K.taken sink.new) bytes.now }
    ensures cause { HasCause (K.faults sink.old) (K.faults sink.new) result }
{
    match page.try_extend_from_slice(bytes) {
        Ok(()) => Ok(()),
        Err(_) => put_past(sink, page, bytes),
    }
}

#[tactic(auto, using(crate::proofs::Passed::passing))]
fn put_number<K: Sink>(sink: &mut K, page: &mut Page, number: u64) -> Result<(), Failed>
    ensures ok { OnOk result (Adds (K.taken sink.old) page.old.items (K.taken sink.new) page.new.items (decimal number)) }
    ensures front { AddsFront (K.taken sink.old) page.old.items (K.taken sink.new) (decimal number) }
    ensures cause { HasCause (K.faults sink.old) (K.faults sink.new) result }
{
    let mut buffer = Buffer::new();
    put(sink, page, buffer.format(number).as_bytes())
}

#[tactic(auto, using(crate::proofs::Passed::passing), unfolding(crate::specs::Pieces::position_text))]
fn put_position<K: Sink>(sink: &mut K, page: &mut Page, position: Option<u64>) -> Result<(), Failed>
    ensures ok { OnOk result (Adds (K.taken sink.old) page.old.items (K.taken sink.new) page.new.items (position_text position)) }
    ensures front { AddsFront (K.taken sink.old) page.old.items (K.taken sink.new) (position_text position) }
    ensures cause { HasCause (K.faults sink.old) (K.faults sink.new) result }
{
    match position {
        Some(position) => put_number(sink, page, position),
        None => put(sink, page, b"-"),
    }
}

#[tactic(auto, using(crate::proofs::Passed::passing), unfolding(crate::specs::Pieces::lettered))]
fn put_lettered<K: Sink>(
    sink: &mut K,
    page: &mut Page,
    letter: &[u8],
    number: u64,
) -> Result<(), Failed>
    ensures ok { OnOk result (Adds (K.taken sink.old) page.old.items (K.taken sink.new) page.new.items (lettered letter.now number)) }
    ensures front { AddsFront (K.taken sink.old) page.old.items (K.taken sink.new) (lettered letter.now number) }
    ensures cause { HasCause (K.faults sink.old) (K.faults sink.new) result }
{
    put(sink, page, letter)?;
    put_number(sink, page, number)
}

#[tactic(auto, using(crate::proofs::Passed::passing), unfolding(crate::specs::Pieces::node_text))]
fn put_node<K: Sink>(sink: &mut K, page: &mut Page, node: Option<Node>) -> Result<(), Failed>
    ensures ok { OnOk result (Adds (K.taken sink.old) page.old.items (K.taken sink.new) page.new.items (node_text node)) }
    ensures front { AddsFront (K.taken sink.old) page.old.items (K.taken sink.new) (node_text node) }
    ensures cause { HasCause (K.faults sink.old) (K.faults sink.new) result }
{
    match node {
        None => put(sink, page, b"-"),
        Some(Node::Dir(DirId(dir))) => put_lettered(sink, page, b"d", dir),
        Some(Node::File(FileId(file))) => put_lettered(sink, page, b"f", file),
    }
}

#[tactic(auto, using(crate::proofs::Passed::passing))]
fn put_piece<K: Sink>(sink: &mut K, page: &mut Page, piece: Piece) -> Result<(), Failed>
    ensures ok { OnOk result (Adds (K.taken sink.old) page.old.items (K.taken sink.new) page.new.items (piece_text piece.entry)) }
    ensures front { AddsFront (K.taken sink.old) page.old.items (K.taken sink.new) (piece_text piece.entry) }
    ensures cause { HasCause (K.faults sink.old) (K.faults sink.new) result }
{
    match piece {
        Piece::Text(bytes) => put(sink, page, bytes),
        Piece::Number(number) => put_number(sink, page, number),
        Piece::Position(position) => put_position(sink, page, position),
        Piece::Node(node) => put_node(sink, page, node),
    }
}

/// Writes the pieces one after another. After `Failed` a front of their text was taken.
#[tactic(auto, using(crate::proofs::Passed::passing))]
pub(crate) fn put_all<K: Sink>(
    sink: &mut K,
    page: &mut Page,
    pieces: &[Piece],
) -> Result<(), Failed>
    ensures ok { OnOk result (Adds (K.taken sink.old) page.old.items (K.taken sink.new) page.new.items (flat_map piece_text pieces.now)) }
    ensures front { AddsFront (K.taken sink.old) page.old.items (K.taken sink.new) (flat_map piece_text pieces.now) }
    ensures cause { HasCause (K.faults sink.old) (K.faults sink.new) result }
{
    for piece in pieces {
        put_piece(sink, page, *piece)?;
    }
    Ok(())
}
