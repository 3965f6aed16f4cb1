//! How many changes a journal holds, and the lines of an input.
ghost use Rattle.std.specs.Prelude.{◌≡◌, false};
ghost use Rattle.tab_lines.specs.Lines.{has_feed};

use change_journal::{Journal, JournalFault, NextEntry};
use disk::Disk;
use outside::Source;
use schema_model::Change;
use std::alloc::Global;
use tab_lines::{Lines, Next, ReadStop, read_line};

/// How many changes the entries of a journal have.
pub(crate) fn entries<D: Disk>(alloc: Global, disk: &mut D) -> Result<usize, JournalFault> {
    let mut entries = Journal::open(alloc, disk)?;
    let mut count: usize = 0;
    'reading: loop {
        match entries.next(alloc, disk)? {
            NextEntry::Entry(group) => count = count.saturating_add(group.len()),
            NextEntry::End(_) => return Ok(count),
        }
    }
}

/// How many lines of an input come before the first that says no change.
pub(crate) fn lines<S: Source>(alloc: Global, source: &mut S) -> Result<usize, ReadStop> {
    let mut lines = Lines::new(alloc)?;
    let mut count: usize = 0;
    for _ in 0..u64::MAX {
        let Next::Line(line) = lines.next(source)? else {
            break;
        };
        if !is_change(alloc, line.as_slice()) {
            break;
        }
        count = count.saturating_add(1);
    }
    Ok(count)
}

fn is_change(alloc: Global, line: &[u8]) -> bool
    requires { has_feed line.now ≡ false }
{
    match read_line(alloc, line) {
        Ok(row) => Change::read(alloc, &row).is_ok(),
        Err(_) => false,
    }
}
