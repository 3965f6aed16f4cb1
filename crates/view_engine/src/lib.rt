//! The engine of a view: its plan and its tables, kept together for a catalogue; and what is known of the facts of any view.
//!
//! Its contract: over a sound catalogue there are fewer than 2^128 facts, each of the form that the view's shape tells; an
//! engine that was opened stands for its catalogue, and a change that the catalogue does not refuse is answered by the
//! view's refusal over the catalogue after it, or by exactly the script between the view's tables before and after. It is
//! moved in two steps, of which the second cannot fail. It knows nothing of how a plan or a table keeps its rows, of open
//! groups or of names.
#![tactic(auto)]

mod commit;
mod engine;
mod few;
mod form;
mod moved;
mod open;
mod prepare;
mod tables;

pub use engine::Engine;
pub use few::facts_are_few;
pub use form::{facts_are_in_rows, facts_bear_label, facts_have_form};
pub use moved::{EngineMove, EngineReady};
pub use tables::{TablesReady, ViewTables};
