//! The meaning of a view: its tables, over the whole catalogue.
//!
//! Its contract: `evaluate` gives the tables of the facts of a view, one fact for each assignment of rows and
//! names to its declarations that counts, or the illegal label or the conflict for which the view is refused;
//! `ordered_facts` gives the same as facts in order, of which the tables can be read and need not be made, and `all_facts`
//! with them those that come again.
//! It knows nothing of the text of views, of changes, or of how tables are kept up to date or printed.
#![tactic(auto)]

mod column;
mod early;
mod element;
mod equality;
mod evaluation;
mod index;
mod indexes;
mod listed;
mod listing;
mod lookups;
mod operand;
mod ranges;
mod truth;
mod value;

pub use evaluation::{AllViewFacts, ViewFacts, all_facts, evaluate, ordered_facts};
