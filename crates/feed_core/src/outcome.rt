//! What is said of an arrival.

/// What is said of an arrival. `Feeds::handled` has the reply to one that is fresh or kept.
#[derive(Clone, Copy, Debug, PartialEq, Eq)]
pub enum Outcome {
    /// It is the next of its source, and was handled now.
    Fresh,
    /// It came before, and what was replied then is kept.
    Kept,
    /// It is not yet its turn: this number of its source is wanted.
    Early { want: u64 },
    /// Under its number another change came.
    OtherChange,
}
