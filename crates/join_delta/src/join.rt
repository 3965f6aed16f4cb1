//! The join of two kept sides.
ghost use Rattle.std.specs.Prelude.{◌≡◌, [], ◌∷◌, None, IfOk};
ghost use Rattle.row_links.specs.AllChains.{key_lists};
ghost use Rattle.row_links.specs.Live.{LinkedRows};
ghost use Rattle.join_delta.specs.Joins.{JoinValue};

use crate::kept::Waiting;
use crate::key_places::KeyPlaces;
use row_links::Linked;
use ss_text::{NoMemory, Seed};
use std::alloc::Global;
use std::marker::Model;

/// Joins two bags of rows by key cells, and keeps both. A joined row is the first side's cells, then the second's.
pub struct Join {
    pub(crate) left_key: KeyPlaces,
    pub(crate) right_key: KeyPlaces,
    pub(crate) left: Linked,
    pub(crate) right: Linked,
    pub(crate) waiting: Option<Waiting>,
}

impl Drop for Join {
    fn drop(self) {
        let Join {
            left_key,
            right_key,
            left,
            right,
            waiting,
        } = self;
        drop(left_key);
        drop(right_key);
        drop(left);
        drop(right);
        drop(waiting);
    }
}

impl Model for Join {
    ghost use Rattle.join_delta.specs.Joins.{JoinValue};

    ghost Value = { JoinValue };

    ghost use Rattle.join_delta.specs.JoinFields.{seen, IsJoin};

    ghost view = { seen };

    ghost invariant = { IsJoin };
}

/// No rows, to be found by the cells of this key.
pub(crate) fn no_rows(alloc: Global, seed: Seed, key: &KeyPlaces) -> Result<Linked, NoMemory>
    ensures { IfOk result (λ rows. rows ≡ record { keys = key.now ∷ []; live = []; waiting = [] }) }
{
    let mut positions = Vec::new(alloc);
    positions.extend_from_slice(key.as_slice())?;
    let mut keys = Vec::new(alloc);
    keys.push(positions)?;
    Ok(Linked::new(alloc, seed, keys))
}

impl Join {
    /// Joins rows whose cells at these positions are equal, the first with the first, and so on. It keeps no rows. Where both
    /// keys are empty all rows are joined. Rows are hashed by a seed.
    pub fn new(
        alloc: Global,
        seed: Seed,
        left: KeyPlaces,
        right: KeyPlaces,
    ) -> Result<Join, NoMemory>
        ensures { IfOk result (λ join. join ≡ record { left_key = left; right_key = right; left = []; right = []; waiting = None }) }
    {
        let left_rows = no_rows(alloc, seed, &left)?;
        let right_rows = no_rows(alloc, seed, &right)?;
        Ok(Join {
            left_key: left,
            right_key: right,
            left: left_rows,
            right: right_rows,
            waiting: None,
        })
    }

    /// The seed by which its rows are hashed.
    pub fn seed(&self) -> Seed {
        self.left.seed()
    }
}
