//! A key that is sought among many.
ghost use Rattle.std.specs.Prelude.{◌≡◌};

use ss_text::{Row, first_front};
use std::marker::Model;

/// A key, which contracts see as its row, with the front of its first text.
#[derive(Drop)]
pub(crate) struct SoughtKey<'k> {
    pub(crate) front: u64,
    pub(crate) key: &'k Row,
}

impl<'k> Model for SoughtKey<'k> {
    ghost use Rattle.ss_text.specs.Texts.{Row};
    ghost use Rattle.row_shelves.specs.Fronts.{IsFrontOf};

    ghost Value = { Row };

    ghost view = { λ s. s.key.now };

    ghost invariant = { λ s. IsFrontOf s.front s.key.now };
}

impl<'k> SoughtKey<'k> {
    /// This key.
    pub(crate) fn of(key: &'k Row) -> SoughtKey<'k>
        ensures { result ≡ key.now }
    {
        SoughtKey {
            front: first_front(key),
            key,
        }
    }
}
