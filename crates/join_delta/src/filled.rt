//! Joins of rows that are all given at once.
ghost use Rattle.std.specs.Prelude.{◌≡◌, ◌<◌, [], ◌∷◌, ◌++◌, IfOk, OnOk, None, filter, map, length, slice_index_or};
ghost use Rattle.row_links.specs.Live.{LinkedRows};
ghost use Rattle.join_delta.specs.Joined.{matches, joined};
ghost use Rattle.join_delta.specs.Joins.{JoinValue};
ghost use Rattle.join_delta.specs.Walks.{rows_of};

use crate::Join;
use crate::join::no_rows;
use crate::key_places::KeyPlaces;
use crate::partners::joined_row;
use crate::side::add_all;
use row_links::Linked;
use ss_text::{NoMemory, Row, Seed};
use std::alloc::Global;

// These rows, to be found by the cells of this key. They are moved.
fn kept_rows(alloc: Global, seed: Seed, key: &KeyPlaces, rows: Vec<Row>) -> Result<Linked, NoMemory>
    ensures rows { IfOk result (λ kept. rows_of kept.live ≡ rows.items) }
    ensures keys { IfOk result (λ kept. kept.keys ≡ key.now ∷ []) }
{
    let count = rows.len();
    let mut kept = no_rows(alloc, seed, key)?;
    kept.reserve(alloc, rows)?;
    add_all(&mut kept, count);
    // The list that they waited in is given back.
    kept.reserve(alloc, Vec::new(alloc))?;
    Ok(kept)
}

// Adds the rows that a row makes with the kept rows that have its key cells.
fn add_beside(
    alloc: Global,
    kept: &Linked,
    positions: &[usize],
    row: &Row,
    out: &mut Vec<Row>,
) -> Result<(), NoMemory>
    requires { 0 < length kept.now.keys }
    ensures { let key = slice_index_or kept.now.keys 0 [] in OnOk result (out.new.items ≡ out.old.items
        ++ map (λ y. row.now ++ y) (filter (matches positions.now key row.now) (rows_of kept.now.live))) }
{
    let mut at = kept.chain_like(0, positions, row);
    while let Some(place) = at {
        out.push(joined_row(alloc, row, kept.row(place))?)?;
        at = kept.beside(place, 0);
    }
    Ok(())
}

// The rows that some rows make so, in their order.
fn joined_rows(
    alloc: Global,
    kept: &Linked,
    positions: &[usize],
    rows: &[Row],
) -> Result<Vec<Row>, NoMemory>
    requires { 0 < length kept.now.keys }
    ensures { let key = slice_index_or kept.now.keys 0 [] in IfOk result (λ out. out.items ≡ joined (matches positions.now key) rows.now (rows_of kept.now.live)) }
{
    let mut out = Vec::new(alloc);
    for row in rows {
        add_beside(alloc, kept, positions, row, &mut out)?;
    }
    Ok(out)
}

impl Join {
    // A join by the same keys that keeps these rows of the first side, and the rows of the second that are found already.
    fn filled_beside(&self, alloc: Global, left: Vec<Row>, right: Linked) -> Result<Join, NoMemory>
        requires { right.keys ≡ self.now.right_key ∷ [] }
        ensures { IfOk result (λ join. join ≡ record { left_key = self.now.left_key; right_key = self.now.right_key; left = left.items; right = rows_of right.live; waiting = None }) }
    {
        let left_key = KeyPlaces::of(alloc, self.left_key.as_slice())?;
        let right_key = KeyPlaces::of(alloc, self.right_key.as_slice())?;
        let left = kept_rows(alloc, self.left.seed(), &left_key, left)?;
        Ok(Join {
            left_key,
            right_key,
            left,
            right,
            waiting: None,
        })
    }

    /// A join by the same keys that keeps these rows of both sides, which are moved into it. The rows that this join keeps
    /// stay.
    pub fn filled(&self, alloc: Global, left: Vec<Row>, right: Vec<Row>) -> Result<Join, NoMemory>
        ensures keeps { IfOk result (λ join. join ≡ record { left_key = self.now.left_key; right_key = self.now.right_key; left = left.items; right = right.items; waiting = None }) }
    {
        let right = kept_rows(alloc, self.left.seed(), &self.right_key, right)?;
        let join = self.filled_beside(alloc, left, right)?;
        Ok(join)
    }

    /// The same, and the rows that it gives: those of each first row in turn. No step is counted.
    pub fn filled_and_joined(
        &self,
        alloc: Global,
        left: Vec<Row>,
        right: Vec<Row>,
    ) -> Result<(Join, Vec<Row>), NoMemory>
        ensures keeps { IfOk result (λ r. r.0 ≡ record { left_key = self.now.left_key; right_key = self.now.right_key; left = left.items; right = right.items; waiting = None }) }
        ensures gives { let equal = matches self.now.left_key self.now.right_key in IfOk result (λ r. r.1.items ≡ joined equal left.items right.items) }
    {
        let right = kept_rows(alloc, self.left.seed(), &self.right_key, right)?;
        let rows = joined_rows(alloc, &right, self.left_key.as_slice(), &left)?;
        let join = self.filled_beside(alloc, left, right)?;
        Ok((join, rows))
    }
}
