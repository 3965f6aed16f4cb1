//! Sheets (attributes, and rows that have as many texts, each at a place of its own; a relation is one), and their flat
//! rows: the wanted cells of each row, alone or with each attribute's name and cell.
//!
//! Its contract: what is read of a sheet is its plain lists, and `Pick` and `Fold` move their flat rows as a change moves
//! the sheet, attributes and names among the changes. It knows nothing of views or of joins.
#![tactic(auto)]

mod cells;
mod change;
mod entries;
mod fold;
mod header;
mod moves;
mod pick;
mod relation;
mod sheet;

pub use cells::place_of;
pub use change::SheetChange;
pub use fold::{Fold, fold_rows};
pub use moves::replaced;
pub use pick::{Pick, pick_rows};
pub use sheet::{Sheet, rows_of};
