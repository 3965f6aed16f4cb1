//! The bytes of a short text.
ghost use Rattle.std.specs.Prelude.{◌≡◌, ◌<◌, ◌%◌, ◌++◌, take};
ghost use Rattle.std.specs.Int.{w64, to_be_bytes};

use std::marker::Model;

/// The bytes of a text of at most seven, in place: whoever has them need not read the text.
#[derive(Drop)]
pub struct Short {
    bytes: [u8; 8],
    count: usize,
}

impl Model for Short {
    ghost use Rattle.std.specs.Prelude.{◌<◌, List, ℕ, take};

    ghost Value = { List ℕ };

    ghost view = { λ s. take s.count s.bytes };

    ghost invariant = { λ s. s.count < 8 };
}

impl Short {
    /// The bytes that a front has, which holds all of its text.
    pub(crate) fn of(front: u64) -> Short
        requires { front % 256 < 8 }
        ensures { result ≡ take (front % 256) (to_be_bytes w64 front) }
    {
        Short {
            bytes: front.to_be_bytes(),
            count: (front % 256) as usize,
        }
    }

    /// The bytes.
    pub fn as_slice(&self) -> &[u8]
        ensures { result.now ≡ self.now }
    {
        &self.bytes[..self.count]
    }
}

/// The bytes of a text of at most fourteen, in place.
#[derive(Drop)]
pub struct ShortFirst {
    bytes: [u8; 14],
    count: usize,
}

impl Model for ShortFirst {
    ghost use Rattle.std.specs.Prelude.{◌<◌, List, ℕ, take};

    ghost Value = { List ℕ };

    ghost view = { λ s. take s.count s.bytes };

    ghost invariant = { λ s. s.count < 15 };
}

impl ShortFirst {
    /// The bytes that a front has, which holds all of its text.
    pub(crate) fn of(front: u64) -> ShortFirst
        requires { front % 256 < 8 }
        ensures { result ≡ take (front % 256) (to_be_bytes w64 front) }
    {
        let bytes = front.to_be_bytes();
        ShortFirst {
            bytes: [
                bytes[0], bytes[1], bytes[2], bytes[3], bytes[4], bytes[5], bytes[6], 0, 0, 0, 0,
                0, 0, 0,
            ],
            count: (front % 256) as usize,
        }
    }

    /// The seven bytes that a front has, and those that the front of the rest has, which holds all of it.
    pub(crate) fn of_both(front: u64, next: u64) -> ShortFirst
        requires { next % 256 < 8 }
        ensures { result ≡ take 7 (to_be_bytes w64 front) ++ take (next % 256) (to_be_bytes w64 next) }
    {
        let bytes = front.to_be_bytes();
        let rest = next.to_be_bytes();
        ShortFirst {
            bytes: [
                bytes[0], bytes[1], bytes[2], bytes[3], bytes[4], bytes[5], bytes[6], rest[0],
                rest[1], rest[2], rest[3], rest[4], rest[5], rest[6],
            ],
            count: 7 + (next % 256) as usize,
        }
    }

    /// The bytes.
    pub fn as_slice(&self) -> &[u8]
        ensures { result.now ≡ self.now }
    {
        &self.bytes[..self.count]
    }
}
