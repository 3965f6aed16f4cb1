//! Rows of one key: its chain, the order after a row is taken away, and many rows at once.
ghost use Rattle.std.specs.Prelude.{◌≡◌, ◌≤◌, ◌<◌, length, IfOk};
ghost use Rattle.row_links.specs.Live.{LinkedRows};

use row_links::Linked;
use ss_text::{NoMemory, Row, Seed, Steps, Text};
use std::alloc::Global;
use std::marker::Brand;
use std::sync::ledger::{Blank, Ledger};
use std::test::Fail;

fn row(alloc: Global, first: &str, second: &str) -> Result<Row, NoMemory> {
    let mut cells = Vec::new(alloc);
    cells.push(Text::of(alloc, first.as_bytes())?)?;
    cells.push(Text::of(alloc, second.as_bytes())?)?;
    Ok(Row::of(cells))
}

// A row of one cell with the number's four bytes.
fn numbered(alloc: Global, number: u32) -> Result<Row, NoMemory> {
    let cell = Text::of(alloc, &number.to_be_bytes())?;
    Ok(Row::of(vec![in alloc; cell]?))
}

// Adds so many of the rows that wait.
#[tactic(auto, using(row_links::proofs::Places::one_added, row_links::proofs::Places::same_keys))]
fn add_waiting(linked: &mut Linked, count: usize)
    requires { count ≤ length linked.old.waiting }
    ensures { linked.new.keys ≡ linked.old.keys }
{
    for _ in 0..count {
        linked.add();
    }
}

// Adds these rows, and answers how many there were.
fn added(alloc: Global, linked: &mut Linked, rows: Vec<Row>) -> Result<usize, NoMemory>
    ensures { linked.new.keys ≡ linked.old.keys }
{
    let count = rows.len();
    linked.reserve(alloc, rows)?;
    add_waiting(linked, count);
    Ok(count)
}

// Writes all live rows, each as its two cells.
#[tactic(auto, using(row_links::proofs::Places::first_live, row_links::proofs::Places::first_behind))]
fn show(linked: &Linked, out: &mut Vec<u8>) -> Result<(), NoMemory> {
    let mut next = linked.first();
    for _ in 0..linked.count() {
        let Some(place) = next else {
            break;
        };
        for cell in linked.row(place).cells() {
            out.extend_from_slice(cell.as_slice())?;
        }
        out.push(b' ')?;
        next = linked.after(place);
    }
    out.push(b';')?;
    Ok(())
}

// Writes a `+` for each live row with these cells at the only key.
#[tactic(auto, using(row_links::proofs::Places::first_passing, row_links::proofs::Places::passing_behind))]
fn walk<L: Ledger>(
    linked: &Linked,
    value: &Row,
    blank: Blank,
    out: &mut Vec<u8>,
) -> Result<(), NoMemory>
    requires name { blank.name ≡ L.name }
    requires parts { blank.parts ≡ L.parts }
    requires some { 0 < L.parts }
    requires key { length linked.now.keys ≡ 1 }
{
    let mut steps = Steps::<L>::of(blank);
    let mut next = linked.chain(0, value);
    for _ in 0..linked.count() {
        let Some(place) = next else {
            break;
        };
        out.push(b'+')?;
        next = linked.next(place, Some(0), &mut steps);
    }
    Ok(())
}

fn walk_once(linked: &Linked, value: &Row, out: &mut Vec<u8>) -> Result<(), NoMemory>
    requires { length linked.now.keys ≡ 1 }
{
    walk::<Brand>(linked, value, Blank::new(1), out)
}

// No rows, found by their first cell.
fn by_first_cell(alloc: Global) -> Result<Linked, NoMemory>
    ensures { IfOk result (λ linked. length linked.keys ≡ 1) }
{
    let mut key = Vec::new(alloc);
    key.push(0usize)?;
    let mut keys = Vec::new(alloc);
    keys.push(key)?;
    Ok(Linked::new(alloc, Seed::of(1), keys))
}

// Four rows, of which three have the same first cell.
fn four_rows(alloc: Global) -> Result<Vec<Row>, NoMemory> {
    let mut rows = Vec::new(alloc);
    rows.push(row(alloc, "a", "1")?)?;
    rows.push(row(alloc, "b", "1")?)?;
    rows.push(row(alloc, "a", "2")?)?;
    rows.push(row(alloc, "a", "1")?)?;
    Ok(rows)
}

// The cell that three have.
fn first_cell(alloc: Global) -> Result<Row, NoMemory> {
    let mut value = Vec::new(alloc);
    value.push(Text::of(alloc, b"a")?)?;
    Ok(Row::of(value))
}

// Writes the four rows that come, and those that are left once one of two equal ones is taken away.
fn tell(alloc: Global, linked: &mut Linked, out: &mut Vec<u8>) -> Result<(), NoMemory>
    requires { length linked.old.keys ≡ 1 }
{
    added(alloc, linked, four_rows(alloc)?)?;
    walk_once(linked, &first_cell(alloc)?, out)?;
    show(linked, out)?;
    linked.take_first(&row(alloc, "a", "1")?);
    linked.take_first(&row(alloc, "c", "1")?);
    show(linked, out)
}

fn story(alloc: Global) -> Result<Vec<u8>, NoMemory> {
    let mut linked = by_first_cell(alloc)?;
    let mut out = Vec::new(alloc);
    let told = tell(alloc, &mut linked, &mut out);
    drop(linked);
    told?;
    Ok(out)
}

#[test]
fn equal_cells_are_walked(rt: HostRuntime) -> Result<(), Fail> {
    let story = story(rt.alloc())?;
    assert_eq!(rt; story.as_slice(), b"+++a1 b1 a2 a1 ;b1 a2 a1 ;".as_slice());
    Ok(())
}

fn numbered_rows(alloc: Global, count: u32) -> Result<Vec<Row>, NoMemory> {
    let mut rows = Vec::new(alloc);
    for number in 0..count {
        rows.push(numbered(alloc, number)?)?;
    }
    Ok(rows)
}

// So many rows come, and all go again.
fn come_and_go(alloc: Global, linked: &mut Linked, count: u32) -> Result<(), NoMemory> {
    added(alloc, linked, numbered_rows(alloc, count)?)?;
    for number in 0..count {
        linked.take_first(&numbered(alloc, number)?);
    }
    Ok(())
}

// How many rows are left after so many came and went.
fn left(alloc: Global, count: u32) -> Result<usize, NoMemory> {
    let mut linked = by_first_cell(alloc)?;
    let moved = come_and_go(alloc, &mut linked, count);
    let count = linked.count();
    drop(linked);
    moved?;
    Ok(count)
}

#[test]
fn many_rows_come_and_go(rt: HostRuntime) -> Result<(), Fail> {
    assert_eq!(rt; left(rt.alloc(), 100_000)?, 0);
    Ok(())
}
