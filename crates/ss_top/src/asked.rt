//! What the words ask for.
ghost use Rattle.std.specs.Prelude.{◌≡◌, option_copied};
ghost use Rattle.std.specs.List.{list_all};
ghost use Rattle.ss_text.specs.Label.{is_table_label};
ghost use Rattle.ss_top.specs.Commands.{asked_of, asked_by, command_named, command_counted, are_some_levels, are_levels, stack_of, journal_of};

use load_run::{changes_of, seed_of};
use ss_text::{Text, table_label_legal};

/// A command that words ask for.
#[derive(Clone, Copy)]
pub(crate) enum Command<'a> {
    Check(&'a Text),
    Show(&'a Text),
    Maintain(&'a Text),
    Verify(&'a Text),
    Apply(&'a Text),
    Stack(&'a [Text]),
    Feed(&'a Text),
    Load { changes: u32, seed: u32 },
    Other,
}

// The command that these words ask for.
pub(crate) fn command_of(words: &[Text]) -> Command<'_>
    ensures { asked_by result ≡ asked_of words.now }
{
    match words {
        [word, name] if table_label_legal(name) => named(word, name),
        [word, changes, seed] if word.as_slice() == b"load".as_slice() => counted(changes, seed),
        _ => stacked(words),
    }
}

// A word with a legal name.
fn named<'a>(word: &Text, name: &'a Text) -> Command<'a>
    ensures { asked_by result ≡ command_named word.now name.now }
{
    let word = word.as_slice();
    if word == b"check".as_slice() {
        Command::Check(name)
    } else if word == b"show".as_slice() {
        Command::Show(name)
    } else if word == b"maintain".as_slice() {
        Command::Maintain(name)
    } else if word == b"verify".as_slice() {
        Command::Verify(name)
    } else if word == b"apply".as_slice() {
        Command::Apply(name)
    } else if word == b"feed".as_slice() {
        Command::Feed(name)
    } else {
        Command::Other
    }
}

// `load` with two numbers.
fn counted(changes: &Text, seed: &Text) -> Command<'static>
    ensures { asked_by result ≡ command_counted changes.now seed.now }
{
    match (changes_of(changes), seed_of(seed)) {
        (Some(changes), Some(seed)) => Command::Load { changes, seed },
        _ => Command::Other,
    }
}

// `stack` with the names of its levels.
fn stacked(words: &[Text]) -> Command<'_>
    ensures { asked_by result ≡ stack_of words.now }
{
    match words.split_first() {
        Some((word, names)) if legal_levels(names) && word.as_slice() == b"stack".as_slice() => {
            Command::Stack(names)
        }
        _ => Command::Other,
    }
}

// Whether these are names of views over one another: two to eight, each legal.
fn legal_levels(names: &[Text]) -> bool
    ensures { result ≡ are_levels names.now }
{
    are_some_levels(names.len()) && all_legal(names)
}

fn are_some_levels(count: usize) -> bool
    ensures { result ≡ are_some_levels count }
{
    2 <= count && count <= 8
}

fn all_legal(names: &[Text]) -> bool
    ensures { result ≡ list_all is_table_label names.now }
{
    names.iter().all(|name| table_label_legal(name))
}

// The name of the view that is to be kept with a journal.
pub(crate) fn journal_name(words: &[Text]) -> Option<&Text>
    ensures { option_copied result ≡ journal_of words.now }
{
    match words {
        [word, name] if table_label_legal(name) && word.as_slice() == b"journal".as_slice() => {
            Some(name)
        }
        _ => None,
    }
}
