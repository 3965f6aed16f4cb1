//! A file below the current folder as a disk.
//!
//! Its contract: that of a disk which tells nothing of its bytes; a call fails only where a count of faults rose. It knows
//! nothing of what the bytes say.
#![tactic(auto)]

mod host_disk;

pub use host_disk::HostDisk;
