//! A journal as the log of a run: it is replayed over a catalogue, and changes are appended to it.
//!
//! Its contract: a catalogue is replayed to what it is after all entries, or the first entry is told that does not fit;
//! changes are appended where the journal has room for them, and then every crash leaves the entries that were there and
//! these, and where a call fails a front of them. It knows nothing of views.
#![tactic(auto)]

mod appending;
mod fault;
mod replaying;

pub use appending::append;
pub use fault::{JournalRefusal, ReplayFault};
pub use replaying::replay;
