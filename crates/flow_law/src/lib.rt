//! Facts, the tables that they make, the lines by which tables change, and what it is for a change to move a thing.
//!
//! Its contract: `Tables::change` gives exactly the tables of the line's meaning, by plain lists. It knows
//! nothing of relations, of views or of files.
#![tactic(auto)]

mod keyed_row;
mod line;
mod moves;
mod refused;
mod shape;
mod table;
mod tables;

pub use line::TableLine;
pub use moves::Moves;
pub use refused::{Clash, EvalFault, IllegalLabel};
pub use shape::Shape;
pub use table::Table;
pub use tables::Tables;
