//! A run of changes that a number and a seed tell, on a session in memory.
//!
//! Its contract: the summary of a run is that of its changes, each of which is refused as a session refuses it and
//! counted, or made and counted with the lines of its script. It knows nothing of words, of files or of a store.
#![tactic(auto)]

mod generator;
mod number;
mod run;
mod size;
mod start;
mod summary;

pub use number::{changes_of, seed_of};
pub use run::load;
pub use start::view;
pub use summary::{Size, Summary, summary_row};
