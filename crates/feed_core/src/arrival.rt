//! A change that a source sends.
ghost use Rattle.std.specs.Prelude.{◌≡◌};

use schema_model::Change;
use ss_text::Text;

/// A change that a source sends under a number, of which its first has 1.
#[derive(Debug)]
pub struct Arrival {
    pub source: Text,
    pub number: u64,
    pub change: Change,
}

impl Drop for Arrival {
    fn drop(self) {
        let Arrival {
            source,
            number: _,
            change,
        } = self;
        drop(source);
        drop(change);
    }
}

impl Arrival {
    /// Its source and its number.
    pub(crate) fn into_sender(self) -> (Text, u64)
        ensures source { result.0 ≡ self.source }
        ensures number { result.1 ≡ self.number }
    {
        let Arrival {
            source,
            number,
            change,
        } = self;
        drop(change);
        (source, number)
    }
}
