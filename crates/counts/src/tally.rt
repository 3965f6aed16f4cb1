//! How often one key comes and goes.
ghost use Rattle.std.specs.Prelude.{◌≡◌, ◌+◌, ◌-◌, ◌^◌, ◌<◌, ◌≤◌, if◌then◌else◌};

use crate::moves::{Key, Move};

/// A key, with how often it comes and how often it goes.
#[derive(Drop)]
pub struct Tally<K: Drop> {
    pub key: K,
    pub ups: u128,
    pub downs: u128,
}

impl<K: Key> Tally<K> {
    // What one move of its key comes to.
    pub(crate) fn of(m: Move<K>) -> Tally<K>
        ensures { result ≡ record { key = m.key; ups = if m.up then 1 else 0; downs = if m.up then 0 else 1 } }
    {
        let (ups, downs) = if m.up { (1, 0) } else { (0, 1) };
        Tally {
            key: m.key,
            ups,
            downs,
        }
    }

    // Counts one more move of the key.
    pub(crate) fn count(&mut self, up: bool)
        requires ups { self.old.ups + 1 < 2 ^ 128 }
        requires downs { self.old.downs + 1 < 2 ^ 128 }
        ensures { self.new ≡ record { key = self.old.key; ups = self.old.ups + (if up then 1 else 0); downs = self.old.downs + (if up then 0 else 1) } }
    {
        if up {
            self.ups += 1;
        } else {
            self.downs += 1;
        }
    }

    // The count of the key after its moves, where this is its count before.
    pub(crate) fn after(&self, kept: u128) -> u128
        requires enough { self.now.downs ≤ kept + self.now.ups }
        requires small { kept + self.now.ups < 2 ^ 128 + self.now.downs }
        ensures { result ≡ (kept + self.now.ups) - self.now.downs }
    {
        if self.ups >= self.downs {
            kept + (self.ups - self.downs)
        } else {
            kept - (self.downs - self.ups)
        }
    }
}
