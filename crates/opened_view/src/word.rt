//! The words that stand alone on their lines.
ghost use Rattle.std.specs.Prelude.{◌≡◌};
ghost use Rattle.ss_print.specs.Fields.{first_field};
ghost use Rattle.opened_view.specs.Answers.{word_in};

use ss_text::{Row, Text};

/// A word that stands alone on its line.
#[derive(Clone, Copy)]
pub enum Word {
    Begin,
    Commit,
    Abort,
    Sync,
}

/// The word that a line begins with.
pub fn word_of(row: &Row) -> Option<Word>
    ensures { result ≡ word_in (first_field row.now) }
{
    match row.cells() {
        [first, ..] => word_in(first),
        [] => None,
    }
}

// The word that a field is.
fn word_in(field: &Text) -> Option<Word>
    ensures { result ≡ word_in field.now }
{
    let field = field.as_slice();
    if field == b"begin".as_slice() {
        Some(Word::Begin)
    } else if field == b"commit".as_slice() {
        Some(Word::Commit)
    } else if field == b"abort".as_slice() {
        Some(Word::Abort)
    } else if field == b"sync".as_slice() {
        Some(Word::Sync)
    } else {
        None
    }
}
