//! Rows in a list, each at its number.
ghost use Rattle.std.specs.Prelude.{◌≡◌, ◌∷◌, ◌++◌, [], IfOk, OnOk, OnErr, IsTrue, length, count_by, nat_lt, remove, vec_len, vec_capacity, ◌≤◌, ◌-◌, drop};
ghost use Rattle.std.specs.List.{list_any, position, position_or_len};
ghost use Rattle.ss_text.specs.Texts.{row_eq};
ghost use Rattle.schema_model.specs.Placed.{placed_rows, first_place, after_place, row_at, is_place, numbered};
ghost use Rattle.schema_model.specs.ListedRows.{listed_rows, IsNext};

use row_links::Linked;
use ss_text::{NoMemory, Row, Seed};
use std::alloc::Global;
use std::marker::Model;
use std::snapshot::Snapshot;

/// Rows in a list, which contracts see as the list and the rows that wait to be added, the first to be added first.
pub(crate) struct Listed {
    rows: Vec<Row>,
    // The first to be added is the last.
    waiting: Vec<Row>,
}

impl Drop for Listed {
    fn drop(self) {
        let Listed { rows, waiting } = self;
        drop(rows);
        drop(waiting);
    }
}

impl Model for Listed {
    ghost use Rattle.std.specs.Prelude.{◌≤◌, ◌-◌, reverse, length, vec_len, vec_capacity};
    ghost use Rattle.schema_model.specs.ListedRows.{ListedRows, listed_rows};

    ghost Value = { ListedRows };

    ghost view = { λ l. listed_rows l.rows.items (reverse l.waiting.items) };

    ghost invariant = { λ l. length l.waiting.items ≤ vec_capacity l.rows - vec_len l.rows };
}

impl Listed {
    /// These rows.
    pub(crate) fn of(rows: Vec<Row>) -> Listed
        ensures { result ≡ listed_rows rows.items [] }
    {
        let alloc = *rows.allocator();
        Listed {
            rows,
            waiting: Vec::new(alloc),
        }
    }

    /// How many there are.
    pub(crate) fn count(&self) -> usize
        ensures { result ≡ length self.now.rows }
    {
        self.rows.len()
    }

    /// The place of the first row.
    pub(crate) fn first(&self) -> Option<usize>
        ensures { result ≡ first_place (numbered 0 self.now.rows) }
    {
        if self.rows.is_empty() { None } else { Some(0) }
    }

    /// The place of the row after the one at this place.
    pub(crate) fn after(&self, place: usize) -> Option<usize>
        requires { IsTrue (is_place place (numbered 0 self.now.rows)) }
        ensures { result ≡ first_place (after_place place (numbered 0 self.now.rows)) }
    {
        let count = self.rows.len();
        if place + 1 < count {
            Some(place + 1)
        } else {
            None
        }
    }

    /// The row at a place.
    pub(crate) fn row(&self, place: usize) -> &Row
        requires { IsTrue (is_place place (numbered 0 self.now.rows)) }
        ensures { result.now ≡ row_at place (numbered 0 self.now.rows) }
    {
        &self.rows[place]
    }

    /// Whether some row equals this one.
    pub(crate) fn has(&self, row: &Row) -> bool
        ensures { result ≡ list_any (row_eq row.now) self.now.rows }
    {
        self.rows.iter().any(|kept| row == kept)
    }

    /// Whether more than so many rows equal this one.
    pub(crate) fn has_more(&self, row: &Row, count: u128) -> bool
        ensures { result ≡ nat_lt count (count_by (row_eq row.now) self.now.rows) }
    {
        has_more(&self.rows, row, count)
    }

    /// Puts a row last.
    pub(crate) fn put(&mut self, row: Row) -> Result<(), NoMemory>
        ensures ok { OnOk result (self.new.rows ≡ self.old.rows ++ row ∷ []) }
        ensures err { OnErr result (self.new.rows ≡ self.old.rows) }
    {
        self.waiting.clear();
        self.rows.push(row)?;
        Ok(())
    }

    /// Makes a row ready to be put last: takes all memory that this needs. It waits alone then, or after `NoMemory`
    /// none does.
    pub(crate) fn reserve(&mut self, row: Row) -> Result<(), NoMemory>
        ensures rows { self.new.rows ≡ self.old.rows }
        ensures ok { OnOk result (self.new.waiting ≡ row ∷ []) }
    {
        self.waiting.clear();
        self.wait(row)
    }

    /// Makes one more row ready to be put last, before those that wait already: takes all memory that this needs.
    pub(crate) fn wait(&mut self, row: Row) -> Result<(), NoMemory>
        ensures rows { self.new.rows ≡ self.old.rows }
        ensures ok { OnOk result (self.new.waiting ≡ row ∷ self.old.waiting) }
    {
        let more = self.waiting.len() + 1;
        self.rows.reserve(more)?;
        self.waiting.push(row)?;
        Ok(())
    }

    /// No row waits from now on.
    pub(crate) fn forget(&mut self)
        ensures { self.new ≡ listed_rows self.old.rows [] }
    {
        self.waiting.clear();
    }

    /// Puts the first row that waits last. This takes no memory.
    pub(crate) fn add(&mut self, row: Snapshot<Row>)
        requires { IsNext row.value self.old.waiting }
        ensures { self.new ≡ listed_rows (self.old.rows ++ row.value ∷ []) (drop 1 self.old.waiting) }
    {
        let Some(waiting) = self.waiting.pop() else {
            unreachable!()
        };
        let Ok(()) = self.rows.push(waiting) else {
            unreachable!()
        };
    }

    /// Takes the first row out that equals this one, if one does. This takes no memory.
    pub(crate) fn take(&mut self, row: &Row)
        ensures { self.new ≡ listed_rows (remove self.old.rows (position_or_len (row_eq row.now) self.old.rows)) self.old.waiting }
    {
        take_first(&mut self.rows, row);
    }

    /// The same rows, linked by their hashes. They are taken out of the list, but for want of memory.
    pub(crate) fn link(&mut self, alloc: Global, seed: Seed) -> Result<Linked, NoMemory>
        ensures linked { IfOk result (λ linked. placed_rows linked.live ≡ self.old.rows) }
        ensures kept { OnErr result (self.new.rows ≡ self.old.rows) }
    {
        self.waiting.clear();
        Linked::of_rows(alloc, seed, &mut self.rows)
    }
}

// Whether more than so many rows equal this one: those behind the first that tells are not looked at.
fn has_more(rows: &[Row], row: &Row, count: u128) -> bool
    ensures { result ≡ nat_lt count (count_by (row_eq row.now) rows.now) }
{
    let mut left = count;
    for kept in rows {
        if row == kept {
            if left == 0 {
                return true;
            }
            left -= 1;
        }
    }
    false
}

// Takes the first row out that equals this one, if one does.
fn take_first(rows: &mut Vec<Row>, row: &Row)
    ensures rows { rows.new.items ≡ remove rows.old.items (position_or_len (row_eq row.now) rows.old.items) }
    ensures room { vec_capacity rows.old - vec_len rows.old ≤ vec_capacity rows.new - vec_len rows.new }
{
    if let Some(place) = position(rows, row) {
        rows.remove(place);
    }
}

fn position(rows: &Vec<Row>, row: &Row) -> Option<usize>
    ensures { result ≡ position (row_eq row.now) rows.now.items }
{
    rows.iter().position(|kept| row == kept)
}
