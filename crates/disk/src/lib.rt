//! A file whose bytes outlast a crash once they are synced, as a trait with a meaning, and the same in memory.
//!
//! Its contract: what a crash may leave is known at each moment, within a call too; a call fails only where a count of faults
//! rose; and what a disk tells of its bytes is what the calls made of them. It knows nothing of what the bytes say.
#![tactic(auto)]

mod disk;
mod mem_disk;
mod numbered;
mod range;
mod step;

pub use disk::Disk;
pub use mem_disk::MemDisk;
pub use range::Range;
pub use step::Step;
