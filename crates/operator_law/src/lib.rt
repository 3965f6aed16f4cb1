//! What an operator promises: as a change moves a thing, the operator's answer moves its value of the thing.
//!
//! Its contract is the law of the trait `Operator` for every change, and the memory-first law of the trait `Kept`. It knows
//! nothing of tables, of sheets, of relations or of views.
#![tactic(auto)]

mod delta;
mod kept;
mod operator;
mod rows;

pub use delta::{Delta, Signed};
pub use kept::{Fresh, Kept};
pub use operator::Operator;
pub use rows::{Rows, moves_by_counts};
