//! Records that are written field by field into memory.
ghost use Rattle.std.specs.Prelude.{◌≡◌, ◌≢◌, ◌∷◌, ◌++◌, [], ℕ, List, IfOk, OnOk};
ghost use Rattle.ss_text.specs.Texts.{Row};
ghost use Rattle.csv_catalog.specs.RecordText.{record_text};
ghost use Rattle.view_folder.specs.Fields.{IsWithin};

use csv::{Writer, WriterBuilder};
use ss_text::{NoMemory, Text};
use std::alloc::Global;

/// A writer of no record.
pub(crate) fn new_writer(alloc: Global) -> Writer<Vec<u8>>
    ensures { IsWithin [] [] result }
{
    WriterBuilder::new().from_writer(Vec::new(alloc))
}

/// Writes one more field.
pub(crate) fn put_field(writer: &mut Writer<Vec<u8>>, bytes: &[u8]) -> Result<(), NoMemory>
    ensures { (ended : List ℕ) (fields : Row) → IsWithin ended fields writer.old → OnOk result (IsWithin ended (fields ++ bytes.now ∷ []) writer.new) }
{
    let Ok(()) = writer.write_field(bytes) else {
        return Err(NoMemory);
    };
    Ok(())
}

/// Ends a record that has a field.
pub(crate) fn end_record(writer: &mut Writer<Vec<u8>>) -> Result<(), NoMemory>
    ensures { (ended : List ℕ) (fields : Row) → fields ≢ [] → IsWithin ended fields writer.old → OnOk result (IsWithin (ended ++ record_text fields) [] writer.new) }
{
    let Ok(()) = writer.end_record() else {
        return Err(NoMemory);
    };
    Ok(())
}

/// The text of the records.
pub(crate) fn into_text(writer: Writer<Vec<u8>>) -> Result<Text, NoMemory>
    ensures { (ended : List ℕ) → IsWithin ended [] writer → IfOk result (λ text. text ≡ ended) }
{
    match writer.into_inner() {
        Ok(bytes) => Text::of_vec(bytes),
        Err(_) => Err(NoMemory),
    }
}
