//! What the row of a line asks for.
ghost use Rattle.std.specs.Prelude.{◌≡◌, true, IfOk, None, Some};
ghost use Rattle.ss_print.specs.Fields.{first_field};
ghost use Rattle.opened_view.specs.Answers.{by_first, by_word, in_group, syncing, syncing_view, word_in};
ghost use Rattle.opened_view.specs.Limits as limits;
ghost use Rattle.journal_answers.specs.Steps.{Asks};

use opened_view::{OpenView, Word, word_of};
use schema_model::{Change, ChangeFault};
use ss_text::{NoMemory, Row};
use std::alloc::Global;

/// What the row of a line asks for.
#[derive(Drop)]
pub(crate) enum Asked {
    /// A change, where no group is open.
    Change(Change),
    /// The end of the open group, in which no line was refused.
    Group,
    /// A sync, where no group is open.
    Sync,
    /// Something that makes no change and syncs nothing.
    Other,
}

/// What a row asks for.
pub(crate) fn asked_by_row(alloc: Global, view: &OpenView, row: &Row) -> Result<Asked, NoMemory>
    ensures { IfOk result (Asks view.now row.now (by_first syncing_view view.now row.now (word_in (first_field row.now)))
        (by_first syncing view.now row.now (word_in (first_field row.now))) (limits.by_first view.now row.now (word_in (first_field row.now)))) }
{
    match word_of(row) {
        Some(word) => Ok(asked_by_word(view, row, word)),
        None => asked_change(alloc, view, row),
    }
}

// What a row asks for that begins with a word.
#[tactic(auto, using(crate::proofs::AskLemmas::asks_alone, crate::proofs::AskLemmas::asks_more))]
fn asked_by_word(view: &OpenView, row: &Row, word: Word) -> Asked
    ensures { Asks view.now row.now (by_first syncing_view view.now row.now (Some word)) (by_first syncing view.now row.now (Some word)) (limits.by_first view.now row.now (Some word)) result }
{
    let count = row.cells().len();
    if count == 1 {
        asked_alone(view, row, word)
    } else {
        Asked::Other
    }
}

// What a word alone asks for.
#[tactic(auto, using(crate::proofs::AskLemmas::asks_begin, crate::proofs::AskLemmas::asks_abort))]
fn asked_alone(view: &OpenView, row: &Row, word: Word) -> Asked
    ensures { Asks view.now row.now (by_word syncing_view view.now row.now word) (by_word syncing view.now row.now word) (limits.by_word view.now word) result }
{
    match word {
        Word::Begin => Asked::Other,
        Word::Commit => asked_commit(view, row),
        Word::Abort => Asked::Other,
        Word::Sync => asked_sync(view, row),
    }
}

// What `commit` alone asks for.
#[tactic(auto, using(crate::proofs::AskLemmas::asks_no_group))]
fn asked_commit(view: &OpenView, row: &Row) -> Asked
    ensures { Asks view.now row.now (by_word syncing_view view.now row.now Word.Commit) (by_word syncing view.now row.now Word.Commit) (limits.by_word view.now Word.Commit) result }
{
    if view.in_group() {
        asked_end(view, row)
    } else {
        Asked::Other
    }
}

// What the end of the open group asks for.
#[tactic(auto, using(crate::proofs::AskLemmas::asks_group, crate::proofs::AskLemmas::asks_broken))]
fn asked_end(view: &OpenView, row: &Row) -> Asked
    requires { in_group view.now ≡ true }
    ensures { Asks view.now row.now (by_word syncing_view view.now row.now Word.Commit) (by_word syncing view.now row.now Word.Commit) (limits.by_word view.now Word.Commit) result }
{
    if view.broken == 0 {
        Asked::Group
    } else {
        Asked::Other
    }
}

// What `sync` alone asks for.
#[tactic(auto, using(crate::proofs::AskLemmas::asks_sync, crate::proofs::AskLemmas::asks_no_sync))]
fn asked_sync(view: &OpenView, row: &Row) -> Asked
    ensures { Asks view.now row.now (by_word syncing_view view.now row.now Word.Sync) (by_word syncing view.now row.now Word.Sync) (limits.by_word view.now Word.Sync) result }
{
    if view.in_group() {
        Asked::Other
    } else {
        Asked::Sync
    }
}

// What a row asks for that begins with no word. In a group a change is only held.
#[tactic(auto, using(crate::proofs::AskLemmas::asks_held, crate::proofs::AskLemmas::asks_unread, crate::proofs::AskLemmas::asks_change))]
fn asked_change(alloc: Global, view: &OpenView, row: &Row) -> Result<Asked, NoMemory>
    ensures { IfOk result (Asks view.now row.now (by_first syncing_view view.now row.now None) (by_first syncing view.now row.now None) (limits.by_first view.now row.now None)) }
{
    if view.in_group() {
        return Ok(Asked::Other);
    }
    match Change::read(alloc, row) {
        Ok(change) => Ok(Asked::Change(change)),
        Err(ChangeFault::NoMemory) => Err(NoMemory),
        Err(_) => Ok(Asked::Other),
    }
}
