//! What a view means: its facts, one for each assignment of rows and names to its declarations that counts, and the tables
//! of these, or why there are none.
//!
//! Its contract: comparisons, the members of a condition and the form of a view's tables are as these definitions say; a
//! law says that the order of rows and of attributes means nothing. It knows nothing of the text of views, of changes, or
//! of how facts are found.
#![tactic(auto)]

mod comparison;
mod conditions;
mod order;
mod shape;

pub use comparison::compares;
pub use conditions::members;
pub use order::order_means_nothing;
pub use shape::shape_of;
