//! The bytes that move at one read.
ghost use Rattle.std.specs.Prelude.{◌≡◌, ◌≤◌, ◌<◌, ◌==◌, [], if◌then◌else◌, take, length, min};
ghost use Rattle.next_io.specs.Causes.{one_more};

/// The most bytes that are asked of a source at one read.
pub const PIECE: usize = 4096;

// Copies a first piece of `left` to the front of `buf`, and says how long it is.
pub fn move_piece(left: &[u8], piece: usize, buf: &mut [u8]) -> usize
    requires { 0 < piece }
    ensures count { result ≡ min (min piece (length buf.old)) (length left.now) }
    ensures fits { result ≤ length left.now }
    ensures bound { result ≤ length buf.new }
    ensures front { take result buf.new ≡ take result left.now }
    ensures end { result ≡ 0 → 0 < length buf.new → left.now ≡ [] }
{
    let count = piece.min(buf.len()).min(left.len());
    buf[..count].copy_from_slice(&left[..count]);
    count
}

// How often the end was told, with a read that gave so many bytes.
pub fn ends_with(before: u64, count: usize) -> u64
    ensures { result ≡ (if count == 0 then one_more before else before) }
{
    if count == 0 {
        before.saturating_add(1)
    } else {
        before
    }
}
