//! An opened view with a journal, and its answers to the lines of its input.
//!
//! Its contract: `journal` opens the view of a name over its sources and the changes of its journal, and does what each line
//! asks, in turn. A change that is accepted is appended before it is made and before anything of it is told, and no source
//! is written. It knows nothing of the words of the command line.
#![tactic(auto)]

mod asking;
mod fields;
mod journaling;
mod opening;
mod taking;
mod view;

ghost use Rattle.journal_answers.specs.Answers.{LinesMakeChanges};

pub use journaling::journal;

/// The changes that are kept of a line are those by which its answer takes the catalogue along.
pub fn lines_make_changes()
    ensures made { LinesMakeChanges }
{}
