//! The positions of a key's cells.
ghost use Rattle.std.specs.Prelude.{◌≡◌, IfOk};

use smallvec::SmallVec;
use ss_text::NoMemory;
use std::alloc::Global;
use std::marker::Model;

// Most keys are this short, and need no allocation of their own.
const SHORT: usize = 4;

/// The positions of a key's cells in a row, in order. A cell behind the row's end is none, and equals another such cell.
#[derive(Debug)]
pub struct KeyPlaces {
    places: SmallVec<usize, SHORT>,
}

impl Drop for KeyPlaces {
    fn drop(self) {
        let KeyPlaces { places } = self;
        drop(places);
    }
}

impl Model for KeyPlaces {
    ghost use Rattle.std.specs.Prelude.{List, ℕ};

    ghost Value = { List ℕ };

    ghost view = { λ k. k.places.items };
}

impl KeyPlaces {
    /// The key of these positions.
    pub fn of(alloc: Global, places: &[usize]) -> Result<KeyPlaces, NoMemory>
        ensures { IfOk result (λ key. key ≡ places.now) }
    {
        Ok(KeyPlaces {
            places: SmallVec::from_slice(alloc, places)?,
        })
    }

    /// Its positions.
    pub fn as_slice(&self) -> &[usize]
        ensures { result.now ≡ self.now }
    {
        self.places.as_slice()
    }
}
