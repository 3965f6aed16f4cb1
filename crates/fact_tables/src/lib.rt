//! Facts that are borrowed, put in order and made into tables.
//!
//! Its contract: `order_facts` gives facts in order, from which the tables or the rows of the tables are read, or the
//! illegal label or the conflict for which a view is refused with them; `order_all_facts` gives those that come again too.
//! It knows nothing of where facts come from.
#![tactic(auto)]

mod all_facts;
mod beginning;
mod fact;
mod fact_cell;
mod key;
mod label;
mod ordered;
mod refused;
mod rows;
mod short;
mod table_facts;
mod tables;
mod three;
mod values;

pub use all_facts::{AllFacts, order_all_facts};
pub use beginning::share_beginning;
pub use fact::Fact;
pub use fact_cell::{FactCell, NoCell, OneCell};
pub use key::Key;
pub use label::Label;
pub use ordered::{OrderedFacts, order_facts};
pub use rows::{FactRow, Rows};
pub use short::{Short, ShortFirst};
pub use table_facts::TableFacts;
pub use three::Three;
pub use values::Values;
