//! The lines that a run prints, those of a stack of views too, and the printed fields of each refusal.
//!
//! Its contract: what is told is printed as the spelled row of its definition, each line with its LF, at once; the row of
//! a refusal is its name and its fields, in the order of their definition; the lines of each level of a stack stand behind
//! its number, and their number in all behind them, and a refusal by a level above the lowest behind the level's number. It
//! knows nothing of when something is told, or of how levels stand over one another.
#![tactic(auto)]

mod change;
mod definition;
mod feed;
mod fields;
mod group;
mod level_lines;
mod load;
mod printing;
mod view;

pub use change::{escape_fields, line_fields, refusal_fields};
pub use definition::{parse_fields, type_fields};
pub use feed::{count_fields, early_fields, number_fields, other_change_fields, verb_fields};
pub use group::{group_broken_fields, in_group_fields, no_group_fields, open_group_fields};
pub use level_lines::{print_scripts, refuse_level};
pub use load::load_fields;
pub use printing::{
    number_text, print_aborted, print_applied, print_begun, print_difference, print_held,
    print_reply, print_same, print_script, print_synced, refuse, say,
};
pub use view::{clash_fields, illegal_fields};
