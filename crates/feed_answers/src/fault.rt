//! Why a line says nothing.
ghost use Rattle.std.specs.Prelude.{◌≡◌};
ghost use Rattle.feed_answers.specs.declared.fault.FeedFault.TheVariants.{NoMemory as LacksMemory};

use ss_text::{NoMemory, Text};

/// Why a line of a feed says nothing, with what is printed of it.
#[derive(Debug, Drop)]
pub enum FeedFault {
    /// At this place, from 0, a backslash begins an escape that spells nothing.
    BadEscape { at: usize },
    /// The first field is neither `feed` nor `sync`, or that of the change behind source and number is no verb.
    UnknownVerb { verb: Text },
    /// This word or verb wants another number of fields; `got` counts it too.
    FieldCount { verb: Text, got: usize },
    /// The number of the change is not 1 to 18 digits of which the first is no zero.
    BadNumber { number: Text },
    NoMemory,
}

impl From<NoMemory> for FeedFault {
    ghost from_gives = { λ _ fault. fault ≡ LacksMemory };

    fn from(_: NoMemory) -> Self {
        FeedFault::NoMemory
    }
}
