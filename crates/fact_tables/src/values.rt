//! The values of a key.
ghost use Rattle.std.specs.Prelude.{◌≡◌, ◌∷◌, [], drop, length, slice_get, Some, option_copied, IfSome};
ghost use Rattle.ss_text.specs.Texts.{row_cmp};

use crate::label::Label;
use crate::short::ShortFirst;
use crate::three::Three;
use ss_text::{Text, front_of, is_whole};
use std::cmp::Ordering;
use std::marker::Model;

/// The values of the constant columns, which contracts see as a row. One or two stand in place, so that no list of
/// them need be made. Beside three stands the front of the third, so that a short one is not read.
#[derive(Drop)]
pub struct Values<'a> {
    held: Held<'a>,
}

#[derive(Drop)]
enum Held<'a> {
    One(&'a Text),
    Two(&'a Text, &'a Text),
    Three(&'a Three<'a>, u64),
    Many(&'a [Label<'a>]),
}

impl<'a> Model for Values<'a> {
    ghost use Rattle.ss_text.specs.Texts.{Row};
    ghost use Rattle.fact_tables.specs.Held.{held_values, HasFront};

    ghost Value = { Row };

    ghost view = { λ v. held_values v.held };

    ghost invariant = { λ v. HasFront v.held };
}

impl<'a> Values<'a> {
    /// One value.
    pub fn one(value: &'a Text) -> Values<'a>
        ensures { result ≡ value.now ∷ [] }
    {
        Values {
            held: Held::One(value),
        }
    }

    /// Two values.
    pub fn two(first: &'a Text, second: &'a Text) -> Values<'a>
        ensures { result ≡ first.now ∷ second.now ∷ [] }
    {
        Values {
            held: Held::Two(first, second),
        }
    }

    /// Three values.
    pub fn three(values: &'a Three<'a>) -> Values<'a>
        ensures { result ≡ values.now }
    {
        Values {
            held: Held::Three(values, front_of(values.third().as_slice())),
        }
    }

    /// These values.
    pub fn many(labels: &'a [Label<'a>]) -> Values<'a>
        ensures { result ≡ labels.now }
    {
        Values {
            held: Held::Many(labels),
        }
    }

    /// The same values.
    pub(crate) fn again(&self) -> Values<'a>
        ensures { result ≡ self.now }
    {
        let held = match &self.held {
            Held::One(value) => Held::One(*value),
            Held::Two(first, second) => Held::Two(*first, *second),
            Held::Three(values, front) => Held::Three(*values, *front),
            Held::Many(labels) => Held::Many(*labels),
        };
        Values { held }
    }

    /// How many there are.
    pub(crate) fn count(&self) -> usize
        ensures { result ≡ length self.now }
    {
        match &self.held {
            Held::One(_) => 1,
            Held::Two(_, _) => 2,
            Held::Three(_, _) => 3,
            Held::Many(labels) => labels.len(),
        }
    }

    /// The value at a place, from 0.
    pub(crate) fn at(&self, place: usize) -> Option<&'a Text>
        ensures { option_copied result ≡ slice_get self.now place }
    {
        match (&self.held, place) {
            (Held::One(value), 0) => Some(*value),
            (Held::Two(first, _), 0) => Some(*first),
            (Held::Two(_, second), 1) => Some(*second),
            (Held::Three(values, _), place) => values.at(place),
            (Held::Many(labels), place) => match labels.get(place) {
                Some(label) => Some(label.text()),
                None => None,
            },
            _ => None,
        }
    }

    /// The bytes of the value at a place, where they are few and stand beside it. It is not read.
    pub(crate) fn short(&self, place: usize) -> Option<ShortFirst>
        ensures { IfSome result (λ short. Some short ≡ slice_get self.now place) }
    {
        match (&self.held, place) {
            (Held::Three(_, front), 2) if is_whole(*front) => Some(ShortFirst::of(*front)),
            (Held::Many(labels), place) => match labels.get(place) {
                Some(label) => short_of(label),
                None => None,
            },
            _ => None,
        }
    }

    /// The order of the values from a place on.
    pub(crate) fn order_from(&self, others: &Values<'_>, from: usize) -> Ordering
        ensures { result ≡ row_cmp (drop from self.now) (drop from others.now) }
    {
        let count = self.count();
        let mut place = from;
        while place < count {
            let (Some(value), Some(other)) = (self.at(place), others.at(place)) else {
                return Ordering::Greater;
            };
            match value.cmp(other) {
                Ordering::Equal => place += 1,
                differs => return differs,
            }
        }
        match others.at(place) {
            Some(_) => Ordering::Less,
            None => Ordering::Equal,
        }
    }
}

// The bytes of a label, where its front holds them all.
fn short_of(label: &Label<'_>) -> Option<ShortFirst>
    ensures { IfSome result (λ short. short ≡ label.now) }
{
    if is_whole(label.front()) {
        Some(ShortFirst::of(label.front()))
    } else {
        None
    }
}
