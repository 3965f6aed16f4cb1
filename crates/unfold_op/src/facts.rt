//! What is kept of the facts of one table, and what a change comes to.
ghost use Rattle.std.specs.Prelude.{[], IfOk};
ghost use Rattle.unfold_op.specs.Moves.{Stands};

use counts::Net;
use indexmap::IndexMap;
use ss_text::{NoMemory, Row, Seed, Text};
use std::alloc::Global;

/// How often the facts name each key and each column, and the value of each place that has one, with how often they have it.
#[derive(Drop)]
pub struct FactCounts {
    pub keys: IndexMap<Row, u128, Seed>,
    pub columns: IndexMap<Text, u128, Seed>,
    pub cells: IndexMap<(Row, Text), (Text, u128), Seed>,
}

impl FactCounts {
    /// The counts of no facts, in maps that hash by a seed.
    pub fn new(alloc: Global, seed: Seed) -> FactCounts
        ensures { Stands result [] }
    {
        FactCounts {
            keys: IndexMap::with_hasher(alloc, seed),
            columns: IndexMap::with_hasher(alloc, seed),
            cells: IndexMap::with_hasher(alloc, seed),
        }
    }

    /// The same, with room for so many keys, and for the values of so many places.
    pub fn with_room(
        alloc: Global,
        seed: Seed,
        keys: usize,
        places: usize,
    ) -> Result<FactCounts, NoMemory>
        ensures { IfOk result (λ counts. Stands counts []) }
    {
        Ok(FactCounts {
            keys: IndexMap::with_capacity_and_hasher(alloc, keys, seed)?,
            columns: IndexMap::with_hasher(alloc, seed),
            cells: IndexMap::with_capacity_and_hasher(alloc, places, seed)?,
        })
    }

    /// The seed by which the maps hash.
    pub fn seed(&self) -> Seed {
        *self.keys.hasher()
    }
}

/// What the moves of keys, of columns and of entries come to.
#[derive(Drop)]
pub struct Nets {
    pub keys: Net<Row>,
    pub columns: Net<Text>,
    pub entries: Net<((Row, Text), Text)>,
}
