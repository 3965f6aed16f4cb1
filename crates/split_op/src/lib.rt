//! From facts that come and go to the lines by which their tables change: one table where the label is constant, and one
//! for each label where it is a variable.
//!
//! Its contract: `Whole` and `Split` obey the law of operators, answer exactly the script between the tables before and
//! after, and refuse exactly what the definitions refuse; the labels that a change names tell all of that. It knows nothing
//! of how a table keeps its facts.
#![tactic(auto)]

mod add;
mod count;
mod groups;
mod judged;
mod law;
mod lines;
mod moved;
mod part;
mod split;
mod stages;
mod whole;

pub use law::{
    conflict_is_of_named_labels, illegal_is_of_named_labels, named_labels_move_tables,
    script_is_of_named_labels,
};
pub use split::{Split, SplitReady};
pub use whole::Whole;
