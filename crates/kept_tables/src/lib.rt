//! Tables that take lines with memory that was taken before.
//!
//! Its contract: `KeptTable::expect` takes all memory for what a line adds and leaves the table, and `make` gives exactly the
//! table of the line's meaning, without memory. `KeptTables` keeps the law of `Kept` for lists of lines, each of which fits
//! those before it. It begins with the tables that facts in order give. It knows nothing of views or of files.
#![tactic(auto)]

mod copies;
mod kept;
mod labels;
mod making;
mod opening;
mod room;
mod slot;
mod table;
mod tables;

pub use kept::LinesReady;
pub use slot::Slot;
pub use table::KeptTable;
pub use tables::KeptTables;
