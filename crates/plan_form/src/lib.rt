//! What a plan of a view is made of: for each declaration what is asked of the catalogue, the places whose cells are
//! compared when its rows are joined, and the fact that a full row gives.
//!
//! Its contract: `form_of` gives the keys, the tests and the cells that the law of plans names for the view. It knows
//! nothing of catalogues, of changes or of kept rows.
#![tactic(auto)]

mod base;
mod cell;
mod copies;
mod form;
mod header;
mod links;
mod output;
mod source;
mod terms;
mod test;
mod wanted;

pub use base::{Base, Equal, passes};
pub use cell::Cell;
pub use form::{Form, form_of};
pub use output::{Output, fact_row};
pub use test::Test;
