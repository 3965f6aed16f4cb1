//! What a line says.
ghost use Rattle.std.specs.Prelude.{◌≡◌, ◌≤◌, false, IsTrue, IfOk};
ghost use Rattle.tab_lines.specs.Lines.{has_feed};
ghost use Rattle.schema_model.specs.Changes.{is_well_formed};
ghost use Rattle.schema_model.specs.Reading.{change_of};
ghost use Rattle.feed_answers.specs.Lines.{IsAnswer, IfArrives, by_read, feed_of, said_by_line, said_by_row, sync_of, wrong_count};

use crate::FeedFault;
use crate::number::number_of;
use feed_core::Arrival;
use schema_model::{Change, ChangeFault};
use ss_text::{NoMemory, Row, Text};
use std::alloc::Global;
use tab_lines::{LineFault, read_line};

/// What a line of a feed says.
#[derive(Debug, Drop)]
pub enum FeedLine {
    Sync,
    Arrives(Arrival),
}

/// What a line says: `sync`, or `feed` with a source, a number and the fields of a change. Its faults are looked for in
/// this order: of its spelling, its word, how many fields it has, its number, and its change.
pub fn read_feed_line(alloc: Global, line: &[u8]) -> Result<FeedLine, FeedFault>
    requires { has_feed line.now ≡ false }
    ensures answer { IsAnswer (said_by_line line.now) result }

    // An arrival can be answered.
    ensures number { IfOk result (λ said. IfArrives said (λ a. 1 ≤ a.number)) }
    ensures well_formed { IfOk result (λ said. IfArrives said (λ a. IsTrue (is_well_formed a.change))) }
{
    match read_line(alloc, line) {
        Ok(row) => read_row(alloc, &row),
        Err(LineFault::BadEscape { at }) => Err(FeedFault::BadEscape { at }),
        Err(LineFault::NoMemory) => Err(FeedFault::NoMemory),
    }
}

// What a row of fields says.
fn read_row(alloc: Global, row: &Row) -> Result<FeedLine, FeedFault>
    ensures answer { IsAnswer (said_by_row row.now) result }
    ensures number { IfOk result (λ said. IfArrives said (λ a. 1 ≤ a.number)) }
    ensures well_formed { IfOk result (λ said. IfArrives said (λ a. IsTrue (is_well_formed a.change))) }
{
    let [word, fields @ ..] = row.cells() else {
        return Err(FeedFault::UnknownVerb {
            verb: Text::empty(alloc),
        });
    };
    match word.as_slice() {
        b"sync" => read_sync(word, fields),
        b"feed" => read_feed(alloc, word, fields),
        _ => Err(FeedFault::UnknownVerb { verb: word.copy()? }),
    }
}

// What the fields behind `sync` say.
fn read_sync(word: &Text, fields: &[Text]) -> Result<FeedLine, FeedFault>
    ensures { IsAnswer (sync_of word.now fields.now) result }
{
    match fields {
        [] => Ok(FeedLine::Sync),
        _ => Err(wrong_count(word, fields)?),
    }
}

// What the fields behind `feed` say.
fn read_feed(alloc: Global, word: &Text, fields: &[Text]) -> Result<FeedLine, FeedFault>
    ensures answer { IsAnswer (feed_of word.now fields.now) result }
    ensures number { IfOk result (λ said. IfArrives said (λ a. 1 ≤ a.number)) }
    ensures well_formed { IfOk result (λ said. IfArrives said (λ a. IsTrue (is_well_formed a.change))) }
{
    let [source, spelled, change @ ..] = fields else {
        return Err(wrong_count(word, fields)?);
    };
    let [verb, ..] = change else {
        return Err(wrong_count(word, fields)?);
    };
    let Some(number) = number_of(spelled) else {
        return Err(FeedFault::BadNumber {
            number: spelled.copy()?,
        });
    };
    let change = read_change(alloc, verb, change)?;
    Ok(FeedLine::Arrives(Arrival {
        source: source.copy()?,
        number,
        change,
    }))
}

// The change that some fields say, of which the first is the verb.
fn read_change(alloc: Global, verb: &Text, fields: &[Text]) -> Result<Change, FeedFault>
    ensures answer { IsAnswer (by_read verb.now (change_of fields.now)) result }
    ensures well_formed { IfOk result (λ change. IsTrue (is_well_formed change)) }
{
    let line = Row::of_copies(alloc, fields)?;
    match Change::read(alloc, &line) {
        Ok(change) => Ok(change),
        Err(ChangeFault::UnknownVerb) => Err(FeedFault::UnknownVerb { verb: verb.copy()? }),
        Err(ChangeFault::FieldCount { got }) => Err(FeedFault::FieldCount {
            verb: verb.copy()?,
            got,
        }),
        Err(ChangeFault::NoMemory) => Err(FeedFault::NoMemory),
    }
}

// A word with a wrong number of fields behind it.
fn wrong_count(word: &Text, fields: &[Text]) -> Result<FeedFault, NoMemory>
    ensures { IfOk result (λ fault. fault ≡ wrong_count word.now fields.now) }
{
    Ok(FeedFault::FieldCount {
        verb: word.copy()?,
        got: fields.len() + 1,
    })
}
