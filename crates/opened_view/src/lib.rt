//! An opened view, its syncs, and how its input is answered.
//!
//! Its contract: a line is refused, and the view synced, as the definitions of its answers say. The opened view, the words
//! that stand alone and the fields of refusals are lent to what answers lines. It knows nothing of how a view is opened.
#![tactic(auto)]

mod fields;
mod view;
mod word;

pub use fields::{fault_fields, held_fields, line_refusal, refused_fields};
pub use view::OpenView;
pub use word::{Word, word_of};
