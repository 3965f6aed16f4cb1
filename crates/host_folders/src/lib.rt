//! The folders below the current one, as a store.
//!
//! It is the trusted edge: it tells nothing of what real folders hold. Its contract: a call fails only where a count of
//! faults rose. It knows nothing of CSV, lines or views, but that what is read below `sources` may be written there by
//! nobody else meanwhile, and that a folder below `views` is nothing but the program's own.
#![tactic(auto)]

mod disk;
mod folders;
mod host;
mod listing;
mod locks;
mod new_names;
mod paths;
mod reading;
mod stamps;
mod writing;

pub use folders::HostFolders;
pub use host::Writes;
