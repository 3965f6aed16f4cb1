//! Rows linked by index.
ghost use Rattle.std.specs.Prelude.{◌≡◌, ◌<◌, ◌+◌, ℕ, List, [], ◌∷◌, ◌++◌, Option, None, Some, IsSome, IfOk, OnOk, OnErr, MatchOption, length, slice_index_or, is_some, nat_lt};
ghost use Rattle.row_links.specs.Live.{LinkedRows, AddsFirst, rows_alone, first_place, following, at_place, rows_like, rows_with, rows_beside, rows_like_at, without_first, without_place};
ghost use Rattle.std.specs.List.{list_any};
ghost use Rattle.ss_text.specs.Texts.{Row, row_eq};
ghost use Rattle.row_links.specs.Links.{IsOnce};
ghost use Rattle.row_links.specs.Chained.{places};
ghost use Rattle.row_links.specs.AllChains.{key_lists};

use crate::chains::Chains;
use crate::part::{Part, mark};
use crate::seek::{after, has_more, seek};
use slab::Slab;
use ss_text::{NoMemory, Row, Seed, Steps};
use std::alloc::Global;
use std::marker::Model;
use std::mem;
use std::sync::ledger::Ledger;

/// Rows in order of adding, each at a place that it keeps until it is taken away. Rows that are equal, and rows with the
/// same cells at the positions of a key, are found without a walk of the others. Memory is taken by `reserve` alone.
pub struct Linked {
    keys: Vec<Vec<usize>>,
    rows: Slab<Row>,
    chains: Chains,
    // The first to be added is the last.
    waiting: Vec<Row>,
}

impl Drop for Linked {
    fn drop(self) {
        let Linked {
            keys,
            rows,
            chains,
            waiting,
        } = self;
        drop(keys);
        drop(rows);
        drop(chains);
        drop(waiting);
    }
}

impl Model for Linked {
    ghost use Rattle.row_links.specs.Live.{LinkedRows};

    ghost Value = { LinkedRows };

    ghost use Rattle.row_links.specs.LinkedFields.{seen, IsLinked, live_of};
    ghost use Rattle.row_links.specs.AllChains.{key_lists};

    ghost view = { λ l. seen l.keys.items l.rows l.chains l.waiting.items };

    ghost invariant = { λ l. IsLinked (key_lists l.keys.items) l.rows l.chains l.waiting.items (live_of l.rows l.chains) };
}

impl Linked {
    /// No rows, to be found by the cells at each of these lists of positions, which are hashed by a seed.
    pub fn new(alloc: Global, seed: Seed, keys: Vec<Vec<usize>>) -> Linked
        ensures { result ≡ record { keys = key_lists keys.items; live = []; waiting = [] } }
    {
        Linked {
            keys,
            rows: Slab::new(alloc),
            chains: Chains::new(alloc, seed),
            waiting: Vec::new(alloc),
        }
    }

    /// The rows of a list, which are taken out of it, in its order and without keys. Where there is no memory the list
    /// keeps them.
    pub fn of_rows(alloc: Global, seed: Seed, rows: &mut Vec<Row>) -> Result<Linked, NoMemory>
        ensures live { IfOk result (λ linked. rows_alone linked.live ≡ rows.old.items) }
        ensures kept { OnErr result (rows.new ≡ rows.old) }
    {
        let count = rows.len();
        let mut linked = Linked::new(alloc, seed, Vec::new(alloc));
        linked.reserve_moved(alloc, rows)?;
        add_all(&mut linked, count);
        Ok(linked)
    }

    /// The seed by which they are hashed.
    pub fn seed(&self) -> Seed {
        self.chains.seed
    }

    /// The number of live rows.
    pub fn count(&self) -> usize
        ensures count { result ≡ length self.now.live }
        ensures once { IsOnce (places self.now.live) }
    {
        self.rows.len()
    }

    /// The place of the first live row.
    pub fn first(&self) -> Option<usize>
        ensures { result ≡ first_place self.now.live }
    {
        match self.chains.ends {
            Some(ends) => Some(ends.first),
            None => None,
        }
    }

    /// The place of the next live row.
    pub fn after(&self, place: usize) -> Option<usize>
        requires { IsSome (at_place place self.now.live) }
        ensures { result ≡ first_place (following place self.now.live) }
    {
        after(&self.chains.order, place)
    }

    /// The row at a place.
    pub fn row(&self, place: usize) -> &Row
        requires { IsSome (at_place place self.now.live) }
        ensures { at_place place self.now.live ≡ Some result.now }
    {
        &self.rows[place]
    }

    /// The place of the first live row that equals a row.
    pub fn find(&self, row: &Row) -> Option<usize>
        ensures found { result ≡ first_place (rows_like row.now self.now.live) }
        ensures once { IsOnce (places self.now.live) }
    {
        let from = self
            .chains
            .same
            .first(mark(self.chains.seed, Part::Whole, row));
        seek(
            &self.rows,
            &self.chains.same.links,
            from,
            Part::Whole,
            Part::Whole,
            row,
        )
    }

    /// Whether more than so many live rows equal a row. It looks at no more of them than tell.
    pub fn has_more_like(&self, row: &Row, count: u128) -> bool
        ensures { result ≡ nat_lt count (length (rows_like row.now self.now.live)) }
    {
        let from = self
            .chains
            .same
            .first(mark(self.chains.seed, Part::Whole, row));
        has_more(&self.rows, &self.chains.same.links, from, row, count)
    }

    /// The place of the first live row with these cells at a key's positions.
    pub fn chain(&self, key: usize, value: &Row) -> Option<usize>
        requires { key < length self.now.keys }
        ensures { result ≡ first_place (rows_with (slice_index_or self.now.keys key []) value.now self.now.live) }
    {
        match self.chains.keyed.get(key) {
            Some(chain) => seek(
                &self.rows,
                &chain.links,
                chain.first(mark(self.chains.seed, Part::Whole, value)),
                Part::Cells(&self.keys[key]),
                Part::Whole,
                value,
            ),
            None => None,
        }
    }

    /// The place of the first live row that has at a key's positions the cells that a row has at other positions.
    pub fn chain_like(&self, key: usize, positions: &[usize], row: &Row) -> Option<usize>
        requires { key < length self.now.keys }
        ensures found { result ≡ first_place (rows_like_at (slice_index_or self.now.keys key []) positions.now row.now self.now.live) }
        ensures once { IsOnce (places self.now.live) }
    {
        match self.chains.keyed.get(key) {
            Some(chain) => seek(
                &self.rows,
                &chain.links,
                chain.first(mark(self.chains.seed, Part::Cells(positions), row)),
                Part::Cells(&self.keys[key]),
                Part::Cells(positions),
                row,
            ),
            None => None,
        }
    }

    /// The place of the next live row with the same cells at a key's positions. No step is counted: it is for joins of rows
    /// that are all given at once, and what answers a change walks by `next`.
    pub fn beside(&self, place: usize, key: usize) -> Option<usize>
        requires place { IsSome (at_place place self.now.live) }
        requires key { key < length self.now.keys }
        ensures { (row : Row) → at_place place self.now.live ≡ Some row → result ≡ first_place (rows_beside (slice_index_or self.now.keys key []) row (following place self.now.live)) }
    {
        match self.chains.keyed.get(key) {
            Some(chain) => seek(
                &self.rows,
                &chain.links,
                after(&chain.links, place),
                Part::Cells(&self.keys[key]),
                Part::Cells(&self.keys[key]),
                &self.rows[place],
            ),
            None => None,
        }
    }

    /// The place of the next live row with the same cells at a key's positions, or where no key is given of the next live
    /// row. This is a step.
    pub fn next<L: Ledger>(
        &self,
        place: usize,
        key: Option<usize>,
        steps: &mut Steps<L>,
    ) -> Option<usize>
        requires place { IsSome (at_place place self.now.live) }
        requires key { MatchOption key (Unit {0}) (λ k. k < length self.now.keys) }
        ensures next { MatchOption key (result ≡ first_place (following place self.now.live)) (λ k. (row : Row) → at_place place self.now.live ≡ Some row
            → result ≡ first_place (rows_beside (slice_index_or self.now.keys k []) row (following place self.now.live))) }
        ensures step { steps.new ≡ steps.old + 1 }
    {
        steps.tick();
        match key {
            None => self.after(place),
            Some(key) => self.beside(place, key),
        }
    }

    /// Takes all memory that adding these rows needs. They wait in place of those that waited before. Where there is no
    /// memory no row waits, and the live rows stay.
    pub fn reserve(&mut self, alloc: Global, rows: Vec<Row>) -> Result<(), NoMemory>
        ensures ok { OnOk result (self.new ≡ record self.old { waiting = rows.items }) }
        ensures err { OnErr result (self.new ≡ record self.old { waiting = [] }) }
    {
        let mut rows = rows;
        self.reserve_moved(alloc, &mut rows)
    }

    // The same of rows that are taken out of a list, which keeps them where there is no memory.
    fn reserve_moved(&mut self, alloc: Global, rows: &mut Vec<Row>) -> Result<(), NoMemory>
        ensures ok { OnOk result (self.new ≡ record self.old { waiting = rows.old.items }) }
        ensures err { OnErr result (self.new ≡ record self.old { waiting = [] }) }
        ensures kept { OnErr result (rows.new ≡ rows.old) }
    {
        self.waiting.clear();
        let more = rows.len();
        self.rows.reserve(more)?;
        let below = self.rows.capacity();
        self.chains.reserve(alloc, self.keys.len(), below, more)?;
        let mut waiting = mem::replace(rows, Vec::new(alloc));
        waiting.reverse();
        self.waiting = waiting;
        Ok(())
    }

    /// Takes all memory that adding one more row needs, which waits before those that wait already. Where there is no
    /// memory no row waits, and the live rows stay.
    pub fn wait(&mut self, alloc: Global, row: Row) -> Result<(), NoMemory>
        ensures ok { OnOk result (self.new ≡ record self.old { waiting = row ∷ self.old.waiting }) }
        ensures err { OnErr result (self.new ≡ record self.old { waiting = [] }) }
    {
        let mut waiting = mem::replace(&mut self.waiting, Vec::new(alloc));
        waiting.push(row)?;
        let more = waiting.len();
        self.rows.reserve(more)?;
        let below = self.rows.capacity();
        self.chains.reserve(alloc, self.keys.len(), below, more)?;
        self.waiting = waiting;
        Ok(())
    }

    /// Adds the first waiting row as the last live one. This takes no memory.
    pub fn add(&mut self)
        requires { 0 < length self.old.waiting }
        ensures { AddsFirst self.old self.new }
    {
        if let Some(row) = self.waiting.pop() {
            let place = self.rows.insert_reserved(row);
            self.chains.add(&self.keys, place, &self.rows[place]);
        }
    }

    /// Takes the first live row away that equals a row, and answers whether there was one. This takes no memory.
    pub fn take_first(&mut self, row: &Row) -> bool
        ensures found { result ≡ list_any (λ e. row_eq e.1 row.now) self.old.live }
        ensures taken { self.new ≡ record self.old { live = without_first row.now self.old.live } }
    {
        match self.find(row) {
            Some(place) => {
                self.take(place);
                true
            }
            None => false,
        }
    }

    // Takes the row at a place away.
    fn take(&mut self, place: usize)
        requires { IsSome (at_place place self.old.live) }
        ensures { self.new ≡ record self.old { live = without_place place self.old.live } }
    {
        self.chains.remove(place);
        self.rows.remove(place);
    }
}

// Adds all rows that wait, of which there are so many.
fn add_all(linked: &mut Linked, count: usize)
    requires { count ≡ length linked.old.waiting }
    ensures { rows_alone linked.new.live ≡ rows_alone linked.old.live ++ linked.old.waiting }
{
    for _ in 0..count {
        linked.add();
    }
}
