//! Rows that come on one side of a join, whose other side keeps rows.
ghost use Rattle.std.specs.Prelude.{◌≡◌, ◌<◌, [], true, List, IfOk};
ghost use Rattle.ss_text.specs.Texts.{Row as RowValue};
ghost use Rattle.operator_law.specs.Bags.{all_signed};

use crate::made::{one, rows};
use join_delta::{Join, KeyPlaces};
use operator_law::{Delta, Kept, Operator};
use ss_text::{NoMemory, Row, Seed, Steps};
use std::alloc::Global;
use std::marker::Brand;
use std::sync::ledger::{Blank, Ledger};

/// How many rows come in the join of so many kept rows of one side, as so many rows come on the other, one after another,
/// each with three partners.
pub(crate) fn come(alloc: Global, kept: u32, changes: u32) -> Result<usize, NoMemory> {
    let mut join = by_first_cells(alloc)?;
    let count = come_in(alloc, &mut join, kept, changes);
    drop(join);
    count
}

fn come_in(alloc: Global, join: &mut Join, kept: u32, changes: u32) -> Result<usize, NoMemory> {
    keep(alloc, join, rows(alloc, kept)?)?;
    let mut count: usize = 0;
    for number in 0..changes {
        let key = number % (kept / 3).max(1);
        let more = meet(alloc, join, one(alloc, key, number)?)?;
        count = count.saturating_add(more);
    }
    Ok(count)
}

fn by_first_cells(alloc: Global) -> Result<Join, NoMemory> {
    let left = KeyPlaces::of(alloc, &[0])?;
    match KeyPlaces::of(alloc, &[0]) {
        Ok(right) => Join::new(alloc, Seed::fixed(), left, right),
        Err(fault) => {
            drop(left);
            Err(fault)
        }
    }
}

// Adds these rows to the first side.
fn keep(alloc: Global, join: &mut Join, rows: Vec<Row>) -> Result<(), NoMemory> {
    let change = change(alloc, rows, Vec::new(alloc))?;
    let made = make(alloc, join, &change);
    drop(change);
    made
}

// Adds these rows to the second side, and says how many come in the join.
fn meet(alloc: Global, join: &mut Join, rows: Vec<Row>) -> Result<usize, NoMemory> {
    let change = change(alloc, Vec::new(alloc), rows)?;
    let count = moved(alloc, join, &change);
    let made = make(alloc, join, &change);
    drop(change);
    made?;
    count
}

// All rows of both sides come.
fn change(alloc: Global, left: Vec<Row>, right: Vec<Row>) -> Result<(Delta, Delta), NoMemory>
    ensures { IfOk result (λ d. (d.0 ≡ all_signed true left.items) × (d.1 ≡ all_signed true right.items)) }
{
    let left = Delta::of(alloc, left, true)?;
    match Delta::of(alloc, right, true) {
        Ok(right) => Ok((left, right)),
        Err(fault) => {
            drop(left);
            Err(fault)
        }
    }
}

// Makes a change by which all rows come.
fn make(alloc: Global, join: &mut Join, change: &(Delta, Delta)) -> Result<(), NoMemory>
    requires { (xs : List RowValue) × (ys : List RowValue) × (change.now.0 ≡ all_signed true xs) × (change.now.1 ≡ all_signed true ys) }
{
    let ready = join.reserve(alloc, change)?;
    join.commit(ready);
    Ok(())
}

// How many moves of the join a change makes.
fn moves<L: Ledger>(
    alloc: Global,
    join: &Join,
    change: &(Delta, Delta),
    blank: Blank,
) -> Result<usize, NoMemory>
    requires name { blank.name ≡ L.name }
    requires parts { blank.parts ≡ L.parts }
    requires some { 0 < L.parts }
{
    let mut steps = Steps::<L>::of(blank);
    match join.prepare(alloc, &(), change, &mut steps) {
        Ok(delta) => Ok(delta.moves.len()),
        Err(fault) => Err(fault),
    }
}

fn moved(alloc: Global, join: &Join, change: &(Delta, Delta)) -> Result<usize, NoMemory> {
    moves::<Brand>(alloc, join, change, Blank::new(1))
}
