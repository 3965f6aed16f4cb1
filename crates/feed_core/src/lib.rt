//! Numbered changes of several sources, which may come again, too early or out of order.
//!
//! Its contract: of each source the changes are handled in the order of their numbers, each once; one that comes again
//! changes nothing, and its reply is the one that was kept. What is kept takes one piece of memory beside the source:
//! `PackedRows` is the list of the rows that it was made of, whatever their texts are. It knows nothing of how lines are
//! spelled, of files or of what takes the changes.
#![tactic(auto)]

mod arrival;
mod feeds;
mod handled;
mod law;
mod line;
mod outcome;
mod packed_reading;
mod packed_rows;
mod packing;
mod places;
mod refusal;
mod reply;
mod replying;

pub use arrival::Arrival;
pub use feeds::Feeds;
pub use handled::Handled;
pub use law::arrivals_are_handled_in_turn;
pub use outcome::Outcome;
pub use packed_rows::PackedRows;
pub use reply::Reply;
