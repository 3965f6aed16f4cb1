//! The fields of a journal that is refused.
ghost use Rattle.std.specs.Prelude.{◌≡◌, ◌∷◌, [], IfOk, decimal};
ghost use Rattle.journal_answers.specs.Fields.{journal_fields};

use journal_log::JournalRefusal;
use ss_print::number_text;
use ss_text::{NoMemory, Row, Text};
use std::alloc::Global;

/// The name and the fields of a journal that is refused.
pub(crate) fn journal_fields(alloc: Global, refusal: JournalRefusal) -> Result<Row, NoMemory>
    ensures { IfOk result (λ row. row ≡ journal_fields refusal) }
{
    match refusal {
        JournalRefusal::BadJournal { at } => numbered(alloc, b"bad-journal", at),
        JournalRefusal::Stale { number } => numbered(alloc, b"journal-stale", number),
    }
}

// A name and a number.
fn numbered(alloc: Global, name: &[u8], number: u64) -> Result<Row, NoMemory>
    ensures { IfOk result (λ row. row ≡ name.now ∷ decimal number ∷ []) }
{
    let mut fields = Vec::new(alloc);
    fields.push(Text::of(alloc, name)?)?;
    fields.push(number_text(alloc, number as usize)?)?;
    Ok(Row::of(fields))
}
