//! Where the hashes of a run begin.
ghost use Rattle.std.specs.Prelude.{◌≡◌};
ghost use Rattle.std.specs.Hash.FoldHasher as folding;
ghost use Rattle.ss_text.specs.Seeds.{start_of, start_by};

use std::hash::{BuildHasher, FoldHasher, Hasher};

/// Makes the hashers of all maps and marks of a run. Who does not know the number that it was made of does not know which
/// texts meet in one place of a map. No answer depends on it. It is fast, and not cryptographic.
#[derive(Clone, Copy)]
pub struct Seed {
    start: FoldHasher,
}

impl Seed {
    /// The same in each run, for tests, and for where no number is to be had.
    pub fn fixed() -> Seed
        ensures { start_of result ≡ folding.initial }
    {
        Seed {
            start: FoldHasher::default(),
        }
    }

    /// The one of a number.
    pub fn of(number: u64) -> Seed
        ensures { start_of result ≡ start_by number }
    {
        let mut start = FoldHasher::default();
        start.write_u64(number);
        Seed { start }
    }
}

impl BuildHasher for Seed {
    type Hasher = FoldHasher;

    ghost build_hasher = { start_of };

    fn build_hasher(&self) -> FoldHasher {
        self.start
    }
}
