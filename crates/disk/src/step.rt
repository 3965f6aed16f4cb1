//! What was done to a disk in memory.
use ss_text::Text;

/// One step of a disk.
#[derive(Debug, Drop)]
pub enum Step {
    /// These bytes were written at this place.
    Wrote { at: u64, bytes: Text },
    /// A write of so many bytes at this place failed, and left what a read gives.
    Tore { at: u64, len: u64 },
    /// All that was written is stable.
    Synced,
}
