//! What stands first in the bytes of a journal from a place on.
ghost use Rattle.std.specs.Prelude.{◌≡◌, ℕ, ◌<◌, ◌≤◌, ◌^◌, length};
ghost use Rattle.change_journal.specs.Entries.{number_of};
ghost use Rattle.change_journal.specs.Opening.{mark_of};

/// What stands first.
#[derive(Clone, Copy, Debug, PartialEq, Eq)]
pub(crate) enum Mark {
    /// A byte 0.
    End,
    /// Another byte, and the length of the text behind it.
    Sized(u64),
    /// Less than that.
    Nothing,
}

impl Mark {
    /// The first of these bytes, of which five are enough.
    pub(crate) fn of(bytes: &[u8]) -> Mark
        ensures value { result ≡ mark_of bytes.now }
        ensures sized { (n : ℕ) → result ≡ Mark.Sized n → (5 ≤ length bytes.now) × (n < 2 ^ 32) }
    {
        match bytes {
            [0, ..] => Mark::End,
            [_, a, b, c, d, ..] => Mark::Sized(number_of(*a, *b, *c, *d)),
            _ => Mark::Nothing,
        }
    }
}

// Four bytes as a number, the high one first.
fn number_of(a: u8, b: u8, c: u8, d: u8) -> u64
    ensures value { result ≡ number_of a b c d }
    ensures few { result < 2 ^ 32 }
{
    ((u64::from(a) * 256 + u64::from(b)) * 256 + u64::from(c)) * 256 + u64::from(d)
}
