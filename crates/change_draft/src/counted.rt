//! How often changes bring and take each row.
ghost use Rattle.std.specs.Prelude.{◌≡◌, ◌+◌, ◌-◌, ◌<◌, ◌≤◌, ◌^◌, ◌++◌, ◌∷◌, [], List, None, OnOk, OnErr, IsTrue, length, count_by, if◌then◌else◌, ◌&&◌, nat_le};
ghost use Rattle.counts.specs.Counted.{counted};
ghost use Rattle.ss_text.specs.Texts.{row_eq};
ghost use Rattle.schema_model.specs.Changes.{after_all};
ghost use Rattle.schema_model.specs.Refusals.{fault, group_fault};
ghost use Rattle.schema_model.specs.States.{plain_relation};
ghost use Rattle.schema_model.specs.declared.change.Change.{Change as Changes};
ghost use Rattle.schema_model.specs.declared.change.Change.TheVariants as change_is;
ghost use Rattle.change_draft.specs.Named.{NamedRow, named, named_eq};
ghost use Rattle.change_draft.specs.Counted.{is_of_rows, AreCounted};

use crate::named::Named;
use counts::{add_one, count_of};
use indexmap::IndexMap;
use schema_model::{Catalogue, Change, MOST_ROWS, Refusal, Relation, Which};
use ss_text::{NoMemory, Row, Seed, Text};
use std::alloc::Global;

/// How often changes of rows bring and take each row that they name, and how many they bring and take in all.
pub(crate) struct RowCounts {
    came: IndexMap<Named<'static>, u128, Seed>,
    went: IndexMap<Named<'static>, u128, Seed>,
    come: usize,
    gone: usize,
}

impl Drop for RowCounts {
    fn drop(self) {
        let RowCounts {
            came,
            went,
            come: _,
            gone: _,
        } = self;
        drop(came);
        drop(went);
    }
}

/// Whether a change inserts or deletes a row.
pub(crate) fn is_of_rows(change: &Change) -> bool
    ensures { result ≡ is_of_rows change.now }
{
    matches!(change, Change::Insert { .. } | Change::Delete { .. })
}

impl RowCounts {
    // Where there are no changes. Rows are hashed by a seed.
    pub(crate) fn none(alloc: Global, seed: Seed) -> RowCounts
        ensures { AreCounted result [] }
    {
        RowCounts {
            came: IndexMap::with_hasher(alloc, seed),
            went: IndexMap::with_hasher(alloc, seed),
            come: 0,
            gone: 0,
        }
    }

    // Counts one more change of rows. After `NoMemory` the counts are as before.
    pub(crate) fn count(&mut self, change: &Change) -> Result<(), NoMemory>
        requires few { (gs : List Changes) × AreCounted self.old gs × (length gs + 1 < 2 ^ 64) }
        requires of_rows { IsTrue (is_of_rows change.now) }
        ensures counted { OnOk result ((gs : List Changes) → AreCounted self.old gs → AreCounted self.new (gs ++ change.now ∷ [])) }
        ensures same { OnErr result ((gs : List Changes) → AreCounted self.old gs → AreCounted self.new gs) }
    {
        match change {
            Change::Insert { db, rel, row } => {
                once_more(&mut self.came, db, rel, row)?;
                self.come += 1;
            }
            Change::Delete { db, rel, row } => {
                once_more(&mut self.went, db, rel, row)?;
                self.gone += 1;
            }
            _ => unreachable!(),
        }
        Ok(())
    }

    // The first refusal of a change behind those that are counted.
    pub(crate) fn judge(&self, base: &Catalogue, change: &Change) -> Option<Refusal>
        ensures { (gs : List Changes) → AreCounted self.now gs → group_fault base.now.databases gs ≡ None → result ≡ fault (after_all base.now.databases gs) change.now }
    {
        match change {
            Change::Insert { db, rel, row } => self.judge_insert(base, db, rel, row),
            Change::Delete { db, rel, row } => self.judge_delete(base, db, rel, row),
            _ => base.judge(change),
        }
    }

    fn judge_insert(&self, base: &Catalogue, db: &Text, rel: &Text, row: &Row) -> Option<Refusal>
        ensures { (gs : List Changes) → AreCounted self.now gs → group_fault base.now.databases gs ≡ None → result ≡ fault (after_all base.now.databases gs) (change_is.Insert db.now rel.now row.now) }
    {
        match base.relation_for(db, rel, row) {
            Err(refusal) => Some(refusal),
            Ok(_) if self.fills(MOST_ROWS - base.row_count()) => Some(Refusal::Limit {
                which: Which::Rows,
            }),
            Ok(_) => None,
        }
    }

    fn judge_delete(&self, base: &Catalogue, db: &Text, rel: &Text, row: &Row) -> Option<Refusal>
        ensures { (gs : List Changes) → AreCounted self.now gs → group_fault base.now.databases gs ≡ None → result ≡ fault (after_all base.now.databases gs) (change_is.Delete db.now rel.now row.now) }
    {
        match base.relation_for(db, rel, row) {
            Err(refusal) => Some(refusal),
            Ok(relation) if self.takes_all(relation, db, rel, row) => Some(Refusal::NoRow),
            Ok(_) => None,
        }
    }

    // Whether the changes bring so many rows more than they take.
    fn fills(&self, room: usize) -> bool
        ensures { result ≡ nat_le (self.now.gone + room) self.now.come }
    {
        self.come >= self.gone && self.come - self.gone >= room
    }

    // Whether the changes take as many of such rows as there are in the relation, and as many as they bring. No more rows
    // are looked at than tell.
    fn takes_all(&self, relation: &Relation, db: &Text, rel: &Text, row: &Row) -> bool
        ensures { let n = named db.now rel.now row.now in
            result ≡ nat_le (count_by (row_eq row.now) (plain_relation relation.now).rows + counted named_eq self.now.came n) (counted named_eq self.now.went n) }
    {
        let key = Named::lent(db, rel, row);
        let (came, went) = (count_of(&self.came, &key), count_of(&self.went, &key));
        drop(key);
        went >= came && !relation.has_more(row, went - came)
    }
}

// Counts a row once more. After `NoMemory` the counts are as before.
fn once_more(
    counts: &mut IndexMap<Named<'static>, u128, Seed>,
    db: &Text,
    rel: &Text,
    row: &Row,
) -> Result<(), NoMemory>
    requires { counted named_eq counts.old (named db.now rel.now row.now) + 1 < 2 ^ 128 }
    ensures more { OnOk result ((n : NamedRow) → counted named_eq counts.new n ≡ counted named_eq counts.old n + (if named_eq (named db.now rel.now row.now) n then 1 else 0)) }
    ensures same { OnErr result ((n : NamedRow) → counted named_eq counts.new n ≡ counted named_eq counts.old n) }
{
    let key = Named::owned(db, rel, row)?;
    add_one(counts, key)?;
    Ok(())
}
