//! Journals that are read to their end and added to, with their groups as text.
ghost use Rattle.std.specs.Prelude.{◌≡◌, false, IfOk, IsTrue};
ghost use Rattle.schema_model.specs.Changes.{is_well_formed};
ghost use Rattle.change_journal.specs.Journals.{IsOpenAt};

mod failing;
mod host;
mod images;
mod rows;

use change_journal::{Journal, JournalFault, NextEntry};
use disk::{Disk, MemDisk};
use schema_model::{Change, ChangeFault};
use ss_text::{NoMemory, Row, Text};
use std::alloc::Global;
use std::test::Fail;

/// A group of one change or of two, as lines with tabs between their fields.
pub type Lines = (&'static str, Option<&'static str>);

/// A disk of these bytes, whose call with this number fails. Calls are counted from 1.
pub fn disk_of(alloc: Global, bytes: &[u8], failing: u8) -> Result<MemDisk, NoMemory> {
    let bytes = Text::of(alloc, bytes)?;
    let fails = vec![in alloc; u64::from(failing)]?;
    Ok(MemDisk::of(alloc, bytes, fails))
}

// Puts the fields of each change on a line, and an empty line behind the group.
fn put_group(alloc: Global, said: &mut Vec<u8>, group: &[Change]) -> Result<(), NoMemory> {
    for change in group {
        let line = change.write(alloc)?;
        for cell in line.cells() {
            said.extend_from_slice(cell.as_slice())?;
            said.push(b'\t')?;
        }
        said.push(b'\n')?;
    }
    said.push(b'\n')?;
    Ok(())
}

/// What a journal says, and the journal, open.
pub fn open<D: Disk>(alloc: Global, disk: &mut D) -> Result<(Vec<u8>, Journal), JournalFault>
    ensures open { IfOk result (λ opened. opened.1.is_shut ≡ false) }
    ensures place { IfOk result (λ opened. IsOpenAt opened.1.end ((D.state disk.new).content)) }
{
    let mut entries = Journal::open(alloc, disk)?;
    let mut said = Vec::new(alloc);
    'reading: loop {
        match entries.next(alloc, disk)? {
            NextEntry::Entry(group) => put_group(alloc, &mut said, &group)?,
            NextEntry::End(journal) => return Ok((said, journal)),
        }
    }
}

fn fields(alloc: Global, line: &str) -> Result<Row, NoMemory> {
    let mut cells = Vec::new(alloc);
    for cell in line.split('\t') {
        cells.push(Text::of(alloc, cell.as_bytes())?)?;
    }
    Ok(Row::of(cells))
}

// The change that a line says.
fn change_of(alloc: Global, line: &str) -> Result<Change, ChangeFault>
    ensures { IfOk result (λ change. IsTrue (is_well_formed change)) }
{
    let fields = fields(alloc, line)?;
    Change::read(alloc, &fields)
}

/// Adds a group, and gives the answer of the journal.
pub fn add<D: Disk>(
    alloc: Global,
    journal: &mut Journal,
    disk: &mut D,
    lines: Lines,
) -> Result<Result<(), JournalFault>, ChangeFault>
    requires { journal.old.is_shut ≡ false → IsOpenAt journal.old.end ((D.state disk.old).content) }
    ensures { journal.new.is_shut ≡ false → IsOpenAt journal.new.end ((D.state disk.new).content) }
{
    let first = change_of(alloc, lines.0)?;
    match lines.1 {
        None => Ok(journal.append(alloc, disk, &[first])),
        Some(line) => {
            let second = change_of(alloc, line)?;
            Ok(journal.append(alloc, disk, &[first, second]))
        }
    }
}

/// Opens the journal of a disk and adds a group. Gives the answer.
pub fn add_once<D: Disk>(
    alloc: Global,
    disk: &mut D,
    lines: Lines,
) -> Result<Result<(), JournalFault>, Fail> {
    let (_said, mut journal) = open(alloc, disk)?;
    Ok(add(alloc, &mut journal, disk, lines)?)
}

/// Opens the journal of a disk and adds two groups. Gives both answers.
pub fn add_twice<D: Disk>(
    alloc: Global,
    disk: &mut D,
    first: Lines,
    second: Lines,
) -> Result<[Result<(), JournalFault>; 2], Fail> {
    let (_said, mut journal) = open(alloc, disk)?;
    let one = add(alloc, &mut journal, disk, first)?;
    let other = add(alloc, &mut journal, disk, second)?;
    Ok([one, other])
}
