//! What the text of an entry says.
ghost use Rattle.std.specs.Prelude.{◌≡◌, false, option_map, IfOk};
ghost use Rattle.tab_lines.specs.Lines.{has_feed};
ghost use Rattle.change_journal.specs.Spelled.{said_by_line, group_of};

use schema_model::{Change, ChangeFault};
use ss_text::NoMemory;
use std::alloc::Global;
use tab_lines::{LineFault, read_line, split_once};

/// The changes whose text this is, if it is the text of some.
pub(crate) fn read_group(alloc: Global, text: &[u8]) -> Result<Option<Vec<Change>>, NoMemory>
    ensures { IfOk result (λ group. option_map (λ changes. changes.items) group ≡ group_of text.now) }
{
    let mut changes = Vec::new(alloc);
    let mut rest = text;
    while let Some((line, after)) = split_once(rest, b'\n') {
        match read_change(alloc, line)? {
            Some(change) => changes.push(change)?,
            None => return Ok(None),
        }
        rest = after;
    }
    match read_change(alloc, rest)? {
        Some(change) => changes.push(change)?,
        None => return Ok(None),
    }
    Ok(Some(changes))
}

// The change that a line spells, if it spells one.
fn read_change(alloc: Global, line: &[u8]) -> Result<Option<Change>, NoMemory>
    requires { has_feed line.now ≡ false }
    ensures { IfOk result (λ change. change ≡ said_by_line line.now) }
{
    let row = match read_line(alloc, line) {
        Ok(row) => row,
        Err(LineFault::BadEscape { .. }) => return Ok(None),
        Err(LineFault::NoMemory) => return Err(NoMemory),
    };
    match Change::read(alloc, &row) {
        Ok(change) => Ok(Some(change)),
        Err(ChangeFault::UnknownVerb) => Ok(None),
        Err(ChangeFault::FieldCount { .. }) => Ok(None),
        Err(ChangeFault::NoMemory) => Err(NoMemory),
    }
}
