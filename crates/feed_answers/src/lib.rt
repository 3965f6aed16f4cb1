//! The lines of numbered feeds, and the answers of an opened view to them.
//!
//! Its contract: `feed` opens the view of a name, makes the changes that its sources send in the order of their numbers,
//! each once, gives each that comes again the reply that is kept, and syncs at the end of the input. A line says a sync, or
//! a change that a source sends under a number, or it is refused for the first fault of its spelling, its word, its fields,
//! its number and its change. It knows nothing of the words of the command line.
#![tactic(auto)]

mod fault;
mod feeding;
mod fields;
mod line;
mod number;
mod view;

pub use fault::FeedFault;
pub use feeding::feed;
pub use line::{FeedLine, read_feed_line};
