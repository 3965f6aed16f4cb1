//! The bytes of a short text.
ghost use Rattle.std.specs.Prelude.{◌≡◌, ◌≤◌, [], length};

use std::marker::Model;

/// A text of at most so many bytes needs no allocation of its own. Most cells are that short.
pub(crate) const SHORT: usize = 22;

/// At most 22 bytes, in place.
#[derive(Clone, Debug, Drop)]
pub(crate) struct Short {
    count: u8,
    bytes: [u8; SHORT],
}

impl Model for Short {
    ghost use Rattle.std.specs.Prelude.{◌≤◌, List, ℕ, take};

    ghost Value = { List ℕ };

    ghost view = { λ s. take s.count s.bytes };

    ghost invariant = { λ s. s.count ≤ 22 };
}

impl Short {
    /// No bytes.
    pub(crate) fn empty() -> Short
        ensures { result ≡ [] }
    {
        Short {
            count: 0,
            bytes: [0; SHORT],
        }
    }

    /// These bytes.
    pub(crate) fn of(given: &[u8]) -> Short
        requires { length given.now ≤ 22 }
        ensures { result ≡ given.now }
    {
        let mut bytes = [0; SHORT];
        bytes[..given.len()].copy_from_slice(given);
        Short {
            count: given.len() as u8,
            bytes,
        }
    }

    /// The bytes.
    pub(crate) fn as_slice(&self) -> &[u8]
        ensures { result.now ≡ self.now }
    {
        &self.bytes[..self.count as usize]
    }
}
