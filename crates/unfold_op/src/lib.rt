//! From facts that come and go to the lines by which their table changes.
//!
//! Its contract: `FactCounts` keeps the facts of one table as counts, and tells exactly the lines between the tables of the
//! facts before and after a change, or refuses the facts after it exactly as the definitions say. Over it `Distinct` and
//! `Unfold` obey the law of operators for every change of the facts of one table: `Distinct` never refuses, and `Unfold`
//! refuses exactly what the definitions refuse. It knows nothing of any other table.
#![tactic(auto)]

mod change;
mod count;
mod delta;
mod facts;
mod form;
mod frame;
mod kept_facts;
mod lines;
mod one_table;
mod parts;
mod ready;
mod table_operator;
mod values;

pub use change::prepare;
pub use facts::{FactCounts, Nets};
pub use form::{FactForm, KeyAlone, KeyAndCell};
pub use frame::total_after;
pub use kept_facts::{Distinct, KeptFacts, Unfold};
pub use one_table::TableReady;
pub use ready::{NewCounts, commit, reserve};
pub use table_operator::TableOperator;
