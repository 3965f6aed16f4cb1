//! Why a catalogue could not be loaded.
ghost use Rattle.std.specs.Prelude.{◌≡◌};
ghost use Rattle.csv_catalog.specs.declared.fault.LoadFault.TheVariants.{NoMemory};

use schema_model::Which;
use ss_text::Text;
use std::alloc::{AllocError, AllocFailed};

/// Why a catalogue could not be loaded.
#[derive(Debug, Drop)]
pub enum LoadFault {
    /// A file has no record.
    NoHeader {
        db: Text,
        file: Text,
    },
    /// A header gives a name twice. It is that of the first place whose name stands earlier too.
    NameTwice {
        db: Text,
        file: Text,
        name: Text,
    },
    /// A record has `got` fields where the header has `want`. Records are counted from 1, the header being 1.
    Ragged {
        db: Text,
        file: Text,
        nth: u64,
        want: usize,
        got: usize,
    },
    /// There are more of these than a catalogue may hold.
    Limit {
        which: Which,
    },
    /// A call on the store failed.
    ReadFault,
    NoMemory,
}

impl From<ss_text::NoMemory> for LoadFault {
    ghost from_gives = { λ _ e. e ≡ NoMemory };

    fn from(_: ss_text::NoMemory) -> Self {
        LoadFault::NoMemory
    }
}

impl From<AllocError> for LoadFault {
    ghost from_gives = { λ _ e. e ≡ NoMemory };

    fn from(_: AllocError) -> Self {
        LoadFault::NoMemory
    }
}

impl<T: Drop> From<AllocFailed<T>> for LoadFault {
    ghost from_gives = { λ _ e. e ≡ NoMemory };

    fn from(_: AllocFailed<T>) -> Self {
        LoadFault::NoMemory
    }
}
