//! The law of a plan, by which joins of flat rows list the facts of a view.
//!
//! Its contract: the rows of a view's plan give exactly its facts, before and after a change, and what the joins count
//! for a changed row is bounded by the combinations that hold it. It knows nothing of how rows are kept or found.
#![tactic(auto)]

mod bounds;
mod lists;
mod moving;

pub use bounds::{marks_are_of_the_row, touched_are_combinations, walk_is_bounded};
pub use lists::{combinations_list_facts, plan_lists_facts, tests_come_early};
pub use moving::{fresh_plan_is_filled, moved_sides_stand, walk_moves_facts};
