//! The plan of a view: joins that keep their rows, and how a change of the catalogue moves the facts.
//!
//! Its contract: a plan that was filled stands for the catalogue, and a change that is not refused moves its fact rows
//! from those of the catalogue before to those after, in net; where the move is committed the plan stands for the
//! catalogue after it. `walk` takes moves through a chain of joins, in steps that are at most the pairs of a move and a
//! kept row, and `filled` fills the joins by rows that are all given at once, of which what the last one gives is not made.
//! It knows nothing of tables, of scripts or of how a catalogue keeps its rows.
#![tactic(auto)]

mod chain_fill;
mod chain_walk;
mod commit;
mod facts;
mod fill;
mod listed;
mod moved;
mod own;
mod parts;
mod plan;
mod prepare;
mod reads;
mod walked;

pub use chain_fill::filled;
pub use chain_walk::{WalkMoves, walk};
pub use moved::{PlanMove, PlanReady};
pub use plan::{Plan, translate};
