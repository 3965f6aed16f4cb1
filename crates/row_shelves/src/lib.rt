//! Rows in ascending order of their keys, on shelves of a bounded length.
//!
//! Its contract: a row that comes, a row that goes, a cell and a column change the rows exactly as the definitions of
//! tables say, and take no memory once it was reserved. It knows nothing of labels, of lines or of views.
#![tactic(auto)]

mod append;
mod cells;
mod change;
mod columns;
mod coming;
mod find;
mod kept_row;
mod put;
mod room;
mod row_shelf;
mod rows;
mod sought;
mod spot;

pub use kept_row::KeptRow;
pub use row_shelf::RowShelf;
pub use rows::RowShelves;
