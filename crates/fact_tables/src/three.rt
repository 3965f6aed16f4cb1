//! Three values of a key.
ghost use Rattle.std.specs.Prelude.{◌≡◌, ◌∷◌, [], length, slice_get, option_copied};
ghost use Rattle.fact_tables.specs.Held.{third_of};

use ss_text::Text;
use std::marker::Model;

/// Three values, which contracts see as a row. A key refers to them by one word.
#[derive(Drop)]
pub struct Three<'a> {
    first: &'a Text,
    second: &'a Text,
    third: &'a Text,
}

impl<'a> Model for Three<'a> {
    ghost use Rattle.std.specs.Prelude.{◌∷◌, []};
    ghost use Rattle.ss_text.specs.Texts.{Row};

    ghost Value = { Row };

    ghost view = { λ t. t.first.now ∷ t.second.now ∷ t.third.now ∷ [] };
}

impl<'a> Three<'a> {
    /// These values.
    pub fn of(first: &'a Text, second: &'a Text, third: &'a Text) -> Three<'a>
        ensures { result ≡ first.now ∷ second.now ∷ third.now ∷ [] }
    {
        Three {
            first,
            second,
            third,
        }
    }

    /// The value at a place, from 0.
    pub(crate) fn at(&self, place: usize) -> Option<&'a Text>
        ensures { option_copied result ≡ slice_get self.now place }
    {
        match place {
            0 => Some(self.first),
            1 => Some(self.second),
            2 => Some(self.third),
            _ => None,
        }
    }

    /// The last of them.
    pub(crate) fn third(&self) -> &'a Text
        ensures third { result.now ≡ third_of self.now }
        ensures count { length self.now ≡ 3 }
    {
        self.third
    }
}
