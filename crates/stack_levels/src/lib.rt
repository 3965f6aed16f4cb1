//! Views over one another as the levels of a stack: how they are opened, how they take changes, and what of them is synced.
//!
//! Its contract: the levels of views over a catalogue are opened, or the first refusal is told; changes of the catalogue are
//! made at all levels, each with its lines, or the first refusal is told, and then no level has changed. All is said of the
//! views, each over the database that the tables of the one below are. It knows nothing of folders, of lines of input or of
//! groups.
#![tactic(auto)]

ghost use Rattle.stack_levels.specs.Laws.{StacksTell, StacksKeep};

mod applies;
mod labels;
mod level;
mod levels;
mod opening;
mod refusal;

pub use labels::TableLabels;
pub use level::Level;
pub use levels::Levels;
pub use opening::open;
pub use refusal::{LevelRefusal, LevelsRefused, OpenFault};

/// Which level of a stack of sessions refuses, and why, and the lines of each level, are those of the views over the
/// catalogues; and the tables of each level stay those of its view.
pub fn stacks_tell_of_views()
    ensures tell { StacksTell }
    ensures keep { StacksKeep }
{}
