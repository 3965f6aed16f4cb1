//! The flat rows of a declaration, and how a change of the catalogue moves them; and moves in net, without what comes and
//! goes again.
//!
//! Its contract: `flat_rows` lists what a declaration contributes, and `flat_changes` answers, for any change that is
//! not refused, signed rows that take the flat rows before it to those after it; `flat_group` does so for a list of
//! changes, by what each row contributes where they insert and delete rows alone. In net the same moves are left, and no
//! row moves both ways. It knows nothing of joins or facts.
#![tactic(auto)]

mod attributes;
mod behind;
mod cancel;
mod change;
mod changes;
mod databases;
mod find;
mod group;
mod inside;
mod nets;
mod one_row;
mod part;
mod rows;
mod spec;
mod tuples;

pub use changes::flat_changes;
pub use group::flat_group;
pub use nets::{each_net, net};
pub use rows::flat_rows;
pub use spec::FlatSpec;
