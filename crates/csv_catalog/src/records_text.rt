//! The text of records that are written one after another.
ghost use Rattle.std.specs.Prelude.{◌≡◌, ◌≢◌, ◌++◌, [], IfOk};
ghost use Rattle.csv_catalog.specs.RecordText.{record_text};

use crate::write::{new_writer, text_of, write_row};
use csv::Writer;
use ss_text::{NoMemory, Row, Text};
use std::alloc::Global;
use std::marker::Model;

/// Records that were written one after another, which contracts see as their canonical text. The writer is large, and
/// stands apart so that it need not move with each record.
#[derive(Drop)]
pub struct RecordsText {
    writer: Box<Writer<Vec<u8>>>,
}

impl Model for RecordsText {
    ghost use Rattle.std.specs.Prelude.{List, ℕ};

    ghost Value = { List ℕ };

    ghost use Rattle.csv_catalog.specs.Written.{written, IsBetweenRecords};

    ghost view = { λ t. written t.writer.value };

    ghost invariant = { λ t. IsBetweenRecords t.writer.value };
}

impl RecordsText {
    /// No record.
    pub fn new(alloc: Global) -> Result<RecordsText, NoMemory>
        ensures { IfOk result (λ text. text ≡ []) }
    {
        let writer = Box::new(alloc, new_writer(alloc))?;
        Ok(RecordsText { writer })
    }

    /// One more record, which has a field.
    pub fn with(mut self, row: &Row) -> Result<RecordsText, NoMemory>
        requires { row.now ≢ [] }
        ensures { IfOk result (λ text. text ≡ self ++ record_text row.now) }
    {
        write_row(&mut self.writer, row)?;
        Ok(self)
    }

    /// The text of the records.
    pub fn into_text(self) -> Result<Text, NoMemory>
        ensures { IfOk result (λ text. text ≡ self) }
    {
        text_of(Box::into_inner(self.writer))
    }
}
