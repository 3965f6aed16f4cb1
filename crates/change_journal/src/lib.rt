//! Accepted changes, kept on a disk before they are acknowledged.
//!
//! Its contract: the entries of a journal are read one after another, and a crash at any moment leaves a journal of the groups
//! that were there, with the one that is being added or without it, and with it once that is answered. It knows nothing of
//! catalogues or of views.
#![tactic(auto)]

ghost use Rattle.change_journal.specs.Lines.{LinesTellGroups};

mod entries;
mod fault;
mod journal;
mod mark;
mod reading;
mod text;
mod window;

pub use entries::{Entries, NextEntry};
pub use fault::JournalFault;
pub use journal::Journal;

/// Journals whose entries have the same lines have the same groups: so a run that knows of lines alone keeps groups.
pub fn lines_tell_groups()
    ensures { LinesTellGroups }
{}
