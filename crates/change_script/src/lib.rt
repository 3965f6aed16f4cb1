//! Scripts of table lines, their printed rows, and lines that are read and applied.
//!
//! Its contract: `Script::between` gives just the script of old and new tables, that script takes the old ones to
//! the new ones, and its lines are printed as just the rows that the format gives; a printed row is read as its line,
//! and a line is applied, or refused for its first fault. It knows nothing of facts, of views or of files.
#![tactic(auto)]

mod applying;
mod between;
mod law;
mod printed;
mod reading;
mod script;
mod verb;

pub use applying::{ApplyFault, apply_line};
pub use law::{printed_lines_are_read, script_takes_old_to_new, unnamed_tables_stay};
pub use printed::script_lines;
pub use reading::{ScriptFault, ScriptLine, read_script_line};
pub use script::Script;
