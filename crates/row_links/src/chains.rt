//! All chains of some rows: in order of adding, of equal rows, and of equal cells at each key's positions.
ghost use Rattle.std.specs.Prelude.{◌≡◌, ◌≤◌, ◌<◌, ◌+◌, ℕ, List, [], ◌∷◌, ◌++◌, None, Some, OnOk, length, map, slice_get};
ghost use Rattle.ss_text.specs.Texts.{Row};
ghost use Rattle.row_links.specs.Links.{IsAbsent, IsOnce};
ghost use Rattle.row_links.specs.Chained.{Placed, places, IsChained, HasRoom};
ghost use Rattle.row_links.specs.AllChains.{AllChained, AllHaveRoom, AddsByKey, Stays, TakesFrom, Each, key_lists};

use crate::chain::{Chain, grow};
use crate::link::{Ends, Link, append, take_from};
use crate::part::{Part, mark};
use ss_text::{NoMemory, Row, Seed};
use std::alloc::Global;

/// The chains of some rows, and the seed of their marks.
pub(crate) struct Chains {
    pub seed: Seed,
    pub order: Vec<Link>,
    pub ends: Option<Ends>,
    pub same: Chain,
    pub keyed: Vec<Chain>,
}

impl Drop for Chains {
    fn drop(self) {
        let Chains {
            seed: _,
            order,
            ends: _,
            same,
            keyed,
        } = self;
        drop(order);
        drop(same);
        drop(keyed);
    }
}

impl Chains {
    /// No chains yet.
    pub(crate) fn new(alloc: Global, seed: Seed) -> Chains
        ensures chained { (keys : List (List ℕ)) → AllChained result keys [] }
        ensures none { length result.keyed.items ≡ 0 }
        ensures no_ends { result.ends ≡ None }
    {
        Chains {
            seed,
            order: Vec::new(alloc),
            ends: None,
            same: Chain::new(alloc),
            keyed: Vec::new(alloc),
        }
    }

    /// Adds a row as the last of its chains.
    pub(crate) fn add(&mut self, keys: &Vec<Vec<usize>>, place: usize, row: &Row)
        requires room { AllHaveRoom self.old (place + 1) 1 }
        requires chained { (live : Placed) × AllChained self.old (key_lists keys.now.items) live }
        requires count { length self.old.keyed.items ≤ length keys.now.items }
        ensures chained { (live : Placed) → AllChained self.old (key_lists keys.now.items) live → IsAbsent place (places live) → IsOnce (places live)
            → AllChained self.new (key_lists keys.now.items) (live ++ (place, row.now) ∷ []) }
        ensures room { (a b : ℕ) → AllHaveRoom self.old a (b + 1) → AllHaveRoom self.new a b }
        ensures count { length self.new.keyed.items ≡ length self.old.keyed.items }
    {
        self.ends = Some(append(&mut self.order, self.ends, place, 0));
        self.same.add(place, mark(self.seed, Part::Whole, row));
        add_to_each(&mut self.keyed, self.seed, keys, place, row);
    }

    /// Takes the row at a place out of its chains.
    pub(crate) fn remove(&mut self, place: usize)
        requires { (keys : List (List ℕ)) × (earlier : Placed) × (row : Row) × (later : Placed) × AllChained self.old keys (earlier ++ (place, row) ∷ later)
            × (length self.old.keyed.items ≤ length keys) }
        ensures chained { (keys : List (List ℕ)) (earlier : Placed) (row : Row) (later : Placed) → AllChained self.old keys (earlier ++ (place, row) ∷ later)
            → IsOnce (places (earlier ++ (place, row) ∷ later)) → AllChained self.new keys (earlier ++ later) }
        ensures room { (a b : ℕ) → AllHaveRoom self.old a b → AllHaveRoom self.new a b }
        ensures count { length self.new.keyed.items ≡ length self.old.keyed.items }
    {
        self.ends = take_from(&mut self.order, self.ends, place);
        self.same.remove(place);
        take_from_each(&mut self.keyed, place);
    }

    /// Makes room for places below this number and for so many more rows, with a chain for each of so many keys.
    pub(crate) fn reserve(
        &mut self,
        alloc: Global,
        keys: usize,
        below: usize,
        more: usize,
    ) -> Result<(), NoMemory>
        requires { length self.old.keyed.items ≤ keys }
        ensures chained { (lists : List (List ℕ)) (live : Placed) → (length self.old.keyed.items < keys → live ≡ []) → AllChained self.old lists live → AllChained self.new lists live }
        ensures room { OnOk result (AllHaveRoom self.new below more) }
        ensures count { length self.new.keyed.items ≤ keys }
        ensures full { OnOk result (length self.new.keyed.items ≡ keys) }
        ensures kept { length self.old.keyed.items ≤ length self.new.keyed.items }
    {
        grow(&mut self.order, below)?;
        self.same.reserve(below, more)?;
        make_chains(alloc, &mut self.keyed, keys)?;
        reserve_each(&mut self.keyed, below, more)
    }
}

// Makes chains without rows, up to so many.
fn make_chains(alloc: Global, chains: &mut Vec<Chain>, count: usize) -> Result<(), NoMemory>
    requires { length chains.old.items ≤ count }
    ensures chained { (i : ℕ) (now : Chain) → slice_get chains.new.items i ≡ Some now → i < length chains.old.items → slice_get chains.old.items i ≡ Some now }
    ensures new { (i : ℕ) (now : Chain) → slice_get chains.new.items i ≡ Some now → length chains.old.items ≤ i → IsChained now [] }
    ensures count { length chains.new.items ≤ count }
    ensures kept { length chains.old.items ≤ length chains.new.items }
    ensures full { OnOk result (length chains.new.items ≡ count) }
{
    while chains.len() < count {
        chains.push(Chain::new(alloc))?;
    }
    Ok(())
}

// Makes room in each chain.
fn reserve_each(chains: &mut Vec<Chain>, below: usize, more: usize) -> Result<(), NoMemory>
    ensures same { Each Stays chains.old.items chains.new.items }
    ensures room { OnOk result ((i : ℕ) (now : Chain) → slice_get chains.new.items i ≡ Some now → HasRoom now below more) }
{
    for i in 0..chains.len() {
        chains[i].reserve(below, more)?;
    }
    Ok(())
}

// Adds a row to the chain of each key.
fn add_to_each(chains: &mut Vec<Chain>, seed: Seed, keys: &Vec<Vec<usize>>, place: usize, row: &Row)
    requires count { length chains.old.items ≤ length keys.now.items }
    requires room { (i : ℕ) (was : Chain) → slice_get chains.old.items i ≡ Some was → HasRoom was (place + 1) 1 }
    requires chained { (i : ℕ) (was : Chain) → slice_get chains.old.items i ≡ Some was → (marks : List (ℕ × ℕ)) × IsChained was marks }
    ensures added { Each (AddsByKey seed (key_lists keys.now.items) place row.now) chains.old.items chains.new.items }
{
    for i in 0..chains.len() {
        chains[i].add(place, mark(seed, Part::Cells(&keys[i]), row));
    }
}

// Takes a place out of each chain.
fn take_from_each(chains: &mut Vec<Chain>, place: usize)
    requires { (i : ℕ) (was : Chain) → slice_get chains.old.items i ≡ Some was → (m : ℕ) × (earlier : List (ℕ × ℕ)) × (later : List (ℕ × ℕ)) × IsChained was (earlier ++ (place, m) ∷ later) }
    ensures taken { Each (TakesFrom place) chains.old.items chains.new.items }
{
    for i in 0..chains.len() {
        chains[i].remove(place);
    }
}
