//! Rows that are found by their cells: in order of adding, equal ones, and those with the same cells at some positions.
//!
//! Its contract: a chain is the filter of the live rows, in order of adding, and as many rows as were made ready are
//! added without memory. It knows nothing of relations, of joins or of changes.
#![tactic(auto)]

mod chain;
mod chains;
mod link;
mod linked;
mod part;
mod seek;

pub use linked::Linked;
pub use part::agree;
