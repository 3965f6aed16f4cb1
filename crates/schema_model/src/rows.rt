//! The rows of a relation: in a list, and linked once a row is to be found by its cells.
ghost use Rattle.std.specs.Prelude.{◌≡◌, ◌∷◌, ◌++◌, [], IfOk, OnOk, OnErr, IsTrue, length, count_by, nat_lt, drop, remove};
ghost use Rattle.std.specs.List.{list_any, position_or_len};
ghost use Rattle.ss_text.specs.Texts.{row_eq};
ghost use Rattle.schema_model.specs.Placed.{ArePlaces, placed_rows, first_place, after_place, row_at, is_place};
ghost use Rattle.schema_model.specs.ListedRows.{IsNext};
ghost use Rattle.schema_model.specs.RowsKept.{placed_in, waiting_in};

use crate::listed::Listed;
use row_links::Linked;
use ss_text::{NoMemory, Row, Seed};
use std::alloc::Global;
use std::snapshot::Snapshot;

/// Rows in order, each at a place of its own.
pub(crate) enum Rows {
    /// A row is found by a walk of all.
    Listed(Listed),
    /// A row is found without one.
    Linked(Linked),
}

impl Drop for Rows {
    fn drop(self) {
        match self {
            Rows::Listed(part) => drop(part),
            Rows::Linked(part) => drop(part),
        }
    }
}

impl Rows {
    /// How many there are.
    #[tactic(auto, using(crate::proofs::NumberedLemmas::rows_numbered, crate::proofs::NumberedLemmas::places_numbered, crate::proofs::LinkedLemmas::once_linked))]
    pub(crate) fn count(&self) -> usize
        ensures count { result ≡ length (placed_rows (placed_in self.now)) }
        ensures places { ArePlaces (placed_in self.now) }
    {
        match self {
            Rows::Listed(listed) => listed.count(),
            Rows::Linked(linked) => linked.count(),
        }
    }

    /// The place of the first row.
    #[tactic(auto, using(crate::proofs::LinkedLemmas::first_linked))]
    pub(crate) fn first(&self) -> Option<usize>
        ensures { result ≡ first_place (placed_in self.now) }
    {
        match self {
            Rows::Listed(listed) => listed.first(),
            Rows::Linked(linked) => linked.first(),
        }
    }

    /// The place of the row after the one at this place.
    #[tactic(auto, using(crate::proofs::LinkedLemmas::after_linked, crate::proofs::LinkedLemmas::place_linked))]
    pub(crate) fn after(&self, place: usize) -> Option<usize>
        requires { IsTrue (is_place place (placed_in self.now)) }
        ensures { result ≡ first_place (after_place place (placed_in self.now)) }
    {
        match self {
            Rows::Listed(listed) => listed.after(place),
            Rows::Linked(linked) => linked.after(place),
        }
    }

    /// The row at a place.
    #[tactic(auto, using(crate::proofs::LinkedLemmas::row_linked, crate::proofs::LinkedLemmas::place_linked))]
    pub(crate) fn row(&self, place: usize) -> &Row
        requires { IsTrue (is_place place (placed_in self.now)) }
        ensures { result.now ≡ row_at place (placed_in self.now) }
    {
        match self {
            Rows::Listed(listed) => listed.row(place),
            Rows::Linked(linked) => linked.row(place),
        }
    }

    /// Whether some row equals this one.
    #[tactic(auto, using(crate::proofs::NumberedLemmas::rows_numbered, crate::proofs::LinkedLemmas::has_linked))]
    pub(crate) fn has(&self, row: &Row) -> bool
        ensures { result ≡ list_any (row_eq row.now) (placed_rows (placed_in self.now)) }
    {
        match self {
            Rows::Listed(listed) => listed.has(row),
            Rows::Linked(linked) => linked.find(row).is_some(),
        }
    }

    /// Whether more than so many rows equal this one.
    #[tactic(auto, using(crate::proofs::NumberedLemmas::rows_numbered, crate::proofs::LinkedLemmas::copies_linked))]
    pub(crate) fn has_more(&self, row: &Row, count: u128) -> bool
        ensures { result ≡ nat_lt count (count_by (row_eq row.now) (placed_rows (placed_in self.now))) }
    {
        match self {
            Rows::Listed(listed) => listed.has_more(row, count),
            Rows::Linked(linked) => linked.has_more_like(row, count),
        }
    }

    /// Puts a row last.
    #[tactic(auto, using(crate::proofs::NumberedLemmas::rows_numbered))]
    pub(crate) fn put(&mut self, alloc: Global, row: Row) -> Result<(), NoMemory>
        ensures ok { OnOk result (placed_rows (placed_in self.new) ≡ placed_rows (placed_in self.old) ++ row ∷ []) }
        ensures err { OnErr result (placed_rows (placed_in self.new) ≡ placed_rows (placed_in self.old)) }
    {
        match self {
            Rows::Listed(listed) => listed.put(row),
            Rows::Linked(linked) => put_linked(alloc, linked, row),
        }
    }

    /// Makes a row ready to be put last: takes all memory that this needs. It waits alone then.
    #[tactic(auto, using(crate::proofs::NumberedLemmas::rows_numbered))]
    pub(crate) fn reserve(&mut self, alloc: Global, row: Row) -> Result<(), NoMemory>
        ensures rows { placed_rows (placed_in self.new) ≡ placed_rows (placed_in self.old) }
        ensures ok { OnOk result (waiting_in self.new ≡ row ∷ []) }
    {
        match self {
            Rows::Listed(listed) => listed.reserve(row),
            Rows::Linked(linked) => reserve_linked(alloc, linked, row),
        }
    }

    /// Makes one more row ready to be put last, before those that wait already: takes all memory that this needs.
    #[tactic(auto, using(crate::proofs::NumberedLemmas::rows_numbered))]
    pub(crate) fn wait(&mut self, alloc: Global, row: Row) -> Result<(), NoMemory>
        ensures rows { placed_rows (placed_in self.new) ≡ placed_rows (placed_in self.old) }
        ensures ok { OnOk result (waiting_in self.new ≡ row ∷ waiting_in self.old) }
    {
        match self {
            Rows::Listed(listed) => listed.wait(row),
            Rows::Linked(linked) => linked.wait(alloc, row),
        }
    }

    /// Lets no row wait.
    #[tactic(auto, using(crate::proofs::NumberedLemmas::rows_numbered))]
    pub(crate) fn forget(&mut self, alloc: Global) -> Result<(), NoMemory>
        ensures rows { placed_rows (placed_in self.new) ≡ placed_rows (placed_in self.old) }
        ensures ok { OnOk result (waiting_in self.new ≡ []) }
    {
        match self {
            Rows::Listed(listed) => {
                listed.forget();
                Ok(())
            }
            Rows::Linked(linked) => linked.reserve(alloc, Vec::new(alloc)),
        }
    }

    /// Links them, where they are not linked yet, so that a row is found and taken out without a walk of all. No row
    /// waits then. Where there is no memory they stay in the list.
    #[tactic(auto, using(crate::proofs::NumberedLemmas::rows_numbered))]
    pub(crate) fn link(&mut self, alloc: Global, seed: Seed) -> Result<(), NoMemory>
        ensures { placed_rows (placed_in self.new) ≡ placed_rows (placed_in self.old) }
    {
        let linked = match self {
            Rows::Listed(listed) => listed.link(alloc, seed)?,
            Rows::Linked(_) => return Ok(()),
        };
        *self = Rows::Linked(linked);
        Ok(())
    }

    /// Puts others in their place. This takes no memory.
    #[tactic(auto, using(crate::proofs::NumberedLemmas::rows_numbered))]
    pub(crate) fn replace(&mut self, rows: Vec<Row>)
        ensures rows { placed_rows (placed_in self.new) ≡ rows.items }
        ensures waiting { waiting_in self.new ≡ [] }
    {
        *self = Rows::Listed(Listed::of(rows));
    }

    /// Puts the first row that waits last. This takes no memory.
    #[tactic(auto, using(crate::proofs::NumberedLemmas::rows_numbered, crate::proofs::LinkedLemmas::next_linked, crate::proofs::LinkedLemmas::left_linked))]
    pub(crate) fn add(&mut self, row: Snapshot<Row>)
        requires { IsNext row.value (waiting_in self.old) }
        ensures rows { placed_rows (placed_in self.new) ≡ placed_rows (placed_in self.old) ++ row.value ∷ [] }
        ensures waiting { waiting_in self.new ≡ drop 1 (waiting_in self.old) }
    {
        match self {
            Rows::Listed(listed) => listed.add(row),
            Rows::Linked(linked) => linked.add(),
        }
    }

    /// Takes the first row out that equals this one, if one does. This takes no memory.
    #[tactic(auto, using(crate::proofs::NumberedLemmas::rows_numbered))]
    pub(crate) fn take(&mut self, row: &Row)
        ensures rows { placed_rows (placed_in self.new) ≡ remove (placed_rows (placed_in self.old)) (position_or_len (row_eq row.now) (placed_rows (placed_in self.old))) }
        ensures waiting { waiting_in self.new ≡ waiting_in self.old }
    {
        match self {
            Rows::Listed(listed) => listed.take(row),
            Rows::Linked(linked) => take_linked(linked, row),
        }
    }
}

fn one_row(alloc: Global, row: Row) -> Result<Vec<Row>, NoMemory>
    ensures { IfOk result (λ rows. rows.items ≡ row ∷ []) }
{
    let mut rows = Vec::new(alloc);
    rows.push(row)?;
    Ok(rows)
}

fn reserve_linked(alloc: Global, linked: &mut Linked, row: Row) -> Result<(), NoMemory>
    ensures rows { linked.new.live ≡ linked.old.live }
    ensures ok { OnOk result (linked.new.waiting ≡ row ∷ []) }
{
    let waiting = one_row(alloc, row)?;
    linked.reserve(alloc, waiting)
}

#[tactic(auto, using(crate::proofs::LinkedLemmas::added_linked))]
fn put_linked(alloc: Global, linked: &mut Linked, row: Row) -> Result<(), NoMemory>
    ensures ok { OnOk result (placed_rows linked.new.live ≡ placed_rows linked.old.live ++ row ∷ []) }
    ensures err { OnErr result (placed_rows linked.new.live ≡ placed_rows linked.old.live) }
{
    reserve_linked(alloc, linked, row)?;
    linked.add();
    Ok(())
}

#[tactic(auto, using(crate::proofs::LinkedLemmas::taken_linked))]
fn take_linked(linked: &mut Linked, row: &Row)
    ensures waiting { linked.new.waiting ≡ linked.old.waiting }
    ensures rows { placed_rows linked.new.live ≡ remove (placed_rows linked.old.live) (position_or_len (row_eq row.now) (placed_rows linked.old.live)) }
{
    linked.take_first(row);
}
