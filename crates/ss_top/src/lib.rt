//! The program over its outside: its words, and what a run of each command does.
//!
//! Its contract: `run`, and `run_with_disk` beside a disk for the journal, does the course that the definitions give for its
//! words, for what the outside tells and for its input, or a front of it where a call fails or memory runs out. It knows
//! nothing of real folders or of standard streams.
#![tactic(auto)]

mod asked;
mod command;
mod journals;
mod top;
mod usage;

pub use course::Status;
pub use journals::run_with_disk;
pub use top::run;
