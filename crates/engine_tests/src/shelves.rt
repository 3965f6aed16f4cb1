//! Rows on shelves: keys that come in any order, some of which go, with memory taken for each alone and for many together.

use row_shelves::RowShelves;
use ss_text::{NoMemory, Row, Text};
use std::alloc::Global;
use std::test::Fail;

// A key of three digits.
fn key(alloc: Global, number: usize) -> Result<Row, NoMemory> {
    let digits = [
        b'0' + (number / 100 % 10) as u8,
        b'0' + (number / 10 % 10) as u8,
        b'0' + (number % 10) as u8,
    ];
    let mut cells = Vec::new(alloc);
    cells.push(Text::of(alloc, &digits)?)?;
    Ok(Row::of(cells))
}

fn put(alloc: Global, rows: &mut RowShelves, number: usize) -> Result<(), NoMemory> {
    let key = key(alloc, number)?;
    rows.expect_row(alloc)?;
    if !rows.has(&key) {
        rows.add_row(key, 0);
    }
    Ok(())
}

fn take(alloc: Global, rows: &mut RowShelves, number: usize) -> Result<(), NoMemory> {
    let key = key(alloc, number)?;
    if rows.has(&key) {
        rows.remove_row(&key);
    }
    Ok(())
}

// The digits of all keys, shelf by shelf.
fn written(alloc: Global, rows: &RowShelves) -> Result<Vec<u8>, NoMemory> {
    let mut out = Vec::new(alloc);
    for shelf in rows.shelves() {
        for row in shelf.rows() {
            for cell in row.key().cells() {
                out.extend_from_slice(cell.as_slice())?;
            }
        }
    }
    Ok(out)
}

// The digits of the numbers below 300 that three does not divide, each once, in order.
fn wanted(alloc: Global) -> Result<Vec<u8>, NoMemory> {
    let mut out = Vec::new(alloc);
    for number in 0..300 {
        if number % 3 != 0 {
            for cell in key(alloc, number)?.cells() {
                out.extend_from_slice(cell.as_slice())?;
            }
        }
    }
    Ok(out)
}

// Takes the memory for so many rows together. Then all numbers below 300 come, and each third goes.
fn put_and_take(alloc: Global, rows: &mut RowShelves, together: usize) -> Result<(), NoMemory> {
    for _ in 0..together {
        rows.expect_row(alloc)?;
    }
    for step in 0..300 {
        put(alloc, rows, step * 7 % 300)?;
    }
    for step in 0..100 {
        take(alloc, rows, step * 3)?;
    }
    Ok(())
}

fn kept(alloc: Global, together: usize) -> Result<Vec<u8>, NoMemory> {
    let mut rows = RowShelves::new(alloc);
    let done = put_and_take(alloc, &mut rows, together);
    let out = written(alloc, &rows);
    drop(rows);
    done?;
    out
}

#[test]
fn keys_come_back_in_order(rt: HostRuntime) -> Result<(), Fail> {
    let kept = kept(rt.alloc(), 0)?;
    let wanted = wanted(rt.alloc())?;
    assert_eq!(rt; kept.as_slice(), wanted.as_slice());
    Ok(())
}

#[test]
fn rows_share_shelves(rt: HostRuntime) -> Result<(), Fail> {
    let kept = kept(rt.alloc(), 300)?;
    let wanted = wanted(rt.alloc())?;
    assert_eq!(rt; kept.as_slice(), wanted.as_slice());
    Ok(())
}
