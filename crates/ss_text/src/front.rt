//! The front of a text: a number by which most texts compare.
ghost use Rattle.std.specs.Prelude.{◌≡◌, slice_index_or};
ghost use Rattle.ss_text.specs.Front.{front_of, first_of, AreDigits, is_whole};

use crate::Row;

/// The first seven bytes of a text as the digits of a number, 0 for each that is missing, and behind them its
/// length, where it is at most 7. Texts compare as their fronts do; where two fronts are the same, the texts are
/// the same too if they are that short.
pub fn front_of(bytes: &[u8]) -> u64
    ensures front { result ≡ front_of 7 bytes.now }
    ensures digits { AreDigits 7 bytes.now }
{
    u64::from_be_bytes([
        byte_at(bytes, 0),
        byte_at(bytes, 1),
        byte_at(bytes, 2),
        byte_at(bytes, 3),
        byte_at(bytes, 4),
        byte_at(bytes, 5),
        byte_at(bytes, 6),
        bytes.len().min(8) as u8,
    ])
}

/// The front of the first text of a row, or of an empty text. Rows compare as these do, where they differ.
pub fn first_front(row: &Row) -> u64
    ensures front { result ≡ front_of 7 (first_of row.now) }
    ensures digits { AreDigits 7 (first_of row.now) }
{
    match row.cells() {
        [first, ..] => front_of(first.as_slice()),
        [] => front_of(&[]),
    }
}

/// Whether a front holds all of its text.
pub fn is_whole(front: u64) -> bool
    ensures { result ≡ is_whole 7 front }
{
    front % 256 < 8
}

// The byte at a place, or 0.
fn byte_at(bytes: &[u8], place: usize) -> u8
    ensures { result ≡ slice_index_or bytes.now place 0 }
{
    bytes.get(place).copied().unwrap_or(0)
}
