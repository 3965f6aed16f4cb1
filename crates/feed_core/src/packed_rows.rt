//! Rows that are kept compactly.
ghost use Rattle.std.specs.Prelude.{◌≡◌, ◌∷◌, ◌++◌, map, IfOk};
ghost use Rattle.feed_core.specs.Packed.{is_first};

use crate::packed_reading::{are_packed, split_text, unpack_row};
use crate::packing::pack_rows;
use ss_text::{NoMemory, Row, Text};
use std::alloc::Global;
use std::marker::Model;

/// Rows, which contracts see as the list of them. They take one piece of memory: their bytes, one more for each text and
/// each row, or nine for one of 255 bytes or more.
#[derive(Debug, Drop)]
pub struct PackedRows {
    bytes: Vec<u8>,
}

impl Model for PackedRows {
    ghost use Rattle.std.specs.Prelude.{List};
    ghost use Rattle.ss_text.specs.Texts.{Row};
    ghost use Rattle.feed_core.specs.Packed.{unpacked_rows};

    ghost Value = { List Row };

    ghost view = { λ p. unpacked_rows p.bytes.items };
}

impl PackedRows {
    /// These rows.
    #[tactic(auto, using(crate::proofs::PackedLemmas::rows_back))]
    pub fn of(alloc: Global, rows: &[Row]) -> Result<PackedRows, NoMemory>
        ensures { IfOk result (λ packed. packed ≡ rows.now) }
    {
        let packed = pack_rows(alloc, rows)?;
        // A copy takes no more memory than it has bytes.
        let bytes = Vec::from_slice(alloc, packed.as_slice())?;
        Ok(PackedRows { bytes })
    }

    /// The rows.
    pub fn rows(&self, alloc: Global) -> Result<Vec<Row>, NoMemory>
        ensures { IfOk result (λ rows. rows.items ≡ self.now) }
    {
        let packed = unpack_row(alloc, &self.bytes)?;
        let mut rows = Vec::with_capacity(alloc, packed.cells().len())?;
        for row in packed.cells() {
            rows.push(unpack_row(alloc, row.as_slice())?)?;
        }
        Ok(rows)
    }

    /// Whether the first row is a word, some texts and some more. It takes no memory.
    #[tactic(auto, using(crate::proofs::PackedLemmas::first_row))]
    pub fn first_is(&self, word: &[u8], texts: &[&Text], more: &[Text]) -> bool
        ensures { result ≡ is_first (word.now ∷ (map (λ t. t.now) texts.now ++ more.now)) self.now }
    {
        if self.bytes.is_empty() {
            return false;
        }
        let (first, _) = split_text(&self.bytes);
        are_packed(first, word, texts, more)
    }
}
