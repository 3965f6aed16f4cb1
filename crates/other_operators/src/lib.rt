//! Operators that are promised, and that the program does not use: two one after the other or side by side, rows that pass
//! a test, some cells of rows, and a bag of rows.
//!
//! Its contract: `Then`, `Side`, `Select` and `Project` keep the law of the trait `Operator` for every change, and `Bag` the
//! memory-first law of the trait `Kept`. It knows nothing of sheets, of relations or of views.
#![tactic(auto)]

mod bag;
mod both;
mod project;
mod select;

pub use bag::{Bag, BagReady};
pub use both::{EitherFault, Side, Then};
pub use project::{Project, cells_at};
pub use select::Select;
