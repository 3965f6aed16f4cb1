//! A view that is kept up to date.
//!
//! Its contract: a session's tables are the meaning of its view over its catalogue, after any changes, and each
//! change or group of changes is answered by its refusal, changing nothing, or by the script from the former tables
//! to the present ones. It knows nothing of lines, of files or of how a script is printed.
#![tactic(auto)]

mod applies;
mod changed;
mod fault;
mod group;
mod grouped;
mod moving;
mod proposal;
mod session;
mod upkeep;
mod waits;

pub use fault::{HoldRefused, Refused};
pub use session::Session;
