//! Texts, one after another, each behind its length.
ghost use Rattle.std.specs.Prelude.{◌≡◌, ◌++◌, IfOk, OnOk};
ghost use Rattle.feed_core.specs.Packed.{length_bytes, packed_text, packed_row, packed_rows};

use ss_text::{NoMemory, Row, Text};
use std::alloc::Global;

/// Rows, each packed as one text.
pub(crate) fn pack_rows(alloc: Global, rows: &[Row]) -> Result<Vec<u8>, NoMemory>
    ensures { IfOk result (λ bytes. bytes.items ≡ packed_rows rows.now) }
{
    let mut bytes = Vec::new(alloc);
    for row in rows {
        let packed = pack_row(alloc, row.cells())?;
        push_text(&mut bytes, &packed)?;
    }
    Ok(bytes)
}

// The texts of a row.
fn pack_row(alloc: Global, texts: &[Text]) -> Result<Vec<u8>, NoMemory>
    ensures { IfOk result (λ bytes. bytes.items ≡ packed_row texts.now) }
{
    let mut bytes = Vec::new(alloc);
    for text in texts {
        push_text(&mut bytes, text.as_slice())?;
    }
    Ok(bytes)
}

// Adds a text behind its length.
fn push_text(bytes: &mut Vec<u8>, text: &[u8]) -> Result<(), NoMemory>
    ensures { OnOk result (bytes.new.items ≡ bytes.old.items ++ packed_text text.now) }
{
    push_length(bytes, text.len())?;
    bytes.extend_from_slice(text)?;
    Ok(())
}

// Adds a length.
fn push_length(bytes: &mut Vec<u8>, length: usize) -> Result<(), NoMemory>
    ensures { OnOk result (bytes.new.items ≡ bytes.old.items ++ length_bytes length) }
{
    if length <= 254 {
        bytes.push(length as u8)?;
        return Ok(());
    }
    bytes.push(255)?;
    bytes.extend_from_slice(&(length as u64).to_le_bytes())?;
    Ok(())
}
