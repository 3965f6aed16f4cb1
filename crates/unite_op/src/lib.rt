//! The sum of an operator's values over things that bear names.
//!
//! Its contract: `Unite` moves the sum as a change moves the one thing that bears the change's names, whatever the
//! inner operator is. It knows nothing of sheets or of relations.
#![tactic(auto)]

mod behind;
mod named;
mod unite;

pub use behind::{moves_behind, rows_behind};
pub use named::Named;
pub use unite::Unite;
