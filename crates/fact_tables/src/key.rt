//! The key of a fact.
ghost use Rattle.std.specs.Prelude.{◌≡◌, ◌<◌, [], length, drop, refl, Some, IsTrue, IfOk, IfSome, slice_get};
ghost use Rattle.std.specs.Ordering.{eq_by_cmp, as_partial_cmp};
ghost use Rattle.std.specs.Cmp.{partial_equiv_from_equiv, partial_order_from_agreeing_total};
ghost use Rattle.std.specs.Cmp.Lexicographic.{lists_equiv, lists_total, lists_ties, nat_list_eq_equiv, nat_list_cmp_total, texts_ties};
ghost use Rattle.ss_text.specs.Texts.{text_cmp, row_cmp, row_eq};
ghost use Rattle.ss_text.specs.Front.{front_of, AreDigits, first_of};
ghost use Rattle.fact_tables.specs.Next.{next_of, holds_first, shortened, BeginsWith};

use crate::short::ShortFirst;
use crate::values::Values;
use ss_text::{NoMemory, Row, Text, front_of, is_whole};
use std::alloc::Global;
use std::cmp::Ordering;
use std::marker::Model;

/// The values of the constant columns, which contracts see as a row; equality and order are those of the row. Two
/// fronts stand beside them, so that most comparisons read no value: that of the first value, and that of what is
/// next, which is the second value where the first front holds all of the first one, and else the rest of that.
/// Where the first values of many keys begin alike, the fronts are those of what stands behind that beginning.
#[derive(Drop)]
pub struct Key<'a> {
    beginning: &'a Text,
    front: u64,
    next: u64,
    values: Values<'a>,
}

impl<'a> Model for Key<'a> {
    ghost use Rattle.std.specs.Prelude.{◌≡◌, length, take};
    ghost use Rattle.ss_text.specs.Texts.{Row};
    ghost use Rattle.ss_text.specs.Front.{front_of, AreDigits, first_of};
    ghost use Rattle.fact_tables.specs.Next.{next_of, shortened, BeginsWith};

    ghost Value = { Row };

    ghost view = { λ k. k.values };

    ghost invariant = { λ k. let row = shortened (length k.beginning.now) k.values in record {
      begins : BeginsWith k.beginning.now k.values;
      front : k.front ≡ front_of 7 (first_of row);
      next : k.next ≡ front_of 7 (next_of row);
      digits : AreDigits 7 (first_of row);
      next_digits : AreDigits 7 (next_of row);
    } };
}

impl<'a> Key<'a> {
    /// The key with these values. The text is empty.
    pub fn of(values: Values<'a>, empty: &'a Text) -> Key<'a>
        requires { empty.now ≡ [] }
        ensures { result ≡ values.entry }
    {
        let front = front_of(first_behind(&values, 0));
        Key {
            beginning: empty,
            front,
            next: front_of(next_behind(&values, 0, front)),
            values,
        }
    }

    /// The same key.
    pub(crate) fn again(&self) -> Key<'a>
        ensures { result ≡ self.now }
    {
        Key {
            beginning: self.beginning,
            front: self.front,
            next: self.next,
            values: self.values.again(),
        }
    }

    /// Compares from now on by what stands behind this beginning, if its first value begins so.
    pub(crate) fn stand_behind(&mut self, beginning: &'a Text)
        ensures { self.new ≡ self.old }
    {
        let skipped = beginning.as_slice().len();
        if begins_with(&self.values, beginning) {
            self.front = front_of(first_behind(&self.values, skipped));
            self.next = front_of(next_behind(&self.values, skipped, self.front));
            self.beginning = beginning;
        }
    }

    /// The bytes of the value at a place, from 0, where the fronts hold them all. It is not read.
    pub(crate) fn short(&self, place: usize) -> Option<ShortFirst>
        ensures { IfSome result (λ short. Some short ≡ slice_get self.now place) }
    {
        match place {
            0 => self.short_first(),
            1 => self.short_second(),
            _ => self.values.short(place),
        }
    }

    // The bytes of the first value, where the fronts hold them all.
    fn short_first(&self) -> Option<ShortFirst>
        ensures { IfSome result (λ first. Some first ≡ slice_get self.now 0) }
    {
        if !self.beginning.as_slice().is_empty() || self.values.count() == 0 {
            return None;
        }
        if is_whole(self.front) {
            Some(ShortFirst::of(self.front))
        } else if is_whole(self.next) {
            Some(ShortFirst::of_both(self.front, self.next))
        } else {
            None
        }
    }

    // The bytes of the second value, where the next front holds them all.
    fn short_second(&self) -> Option<ShortFirst>
        ensures { IfSome result (λ second. Some second ≡ slice_get self.now 1) }
    {
        if self.values.count() < 2 || !is_whole(self.front) {
            return None;
        }
        if is_whole(self.next) {
            Some(ShortFirst::of(self.next))
        } else {
            None
        }
    }

    /// A copy of its values. Short ones are not read.
    pub(crate) fn copy(&self, alloc: Global) -> Result<Row, NoMemory>
        ensures { IfOk result (λ row. row ≡ self.now) }
    {
        let count = self.values.count();
        let mut cells = Vec::with_capacity(alloc, count)?;
        for place in 0..count {
            cells.push(self.copy_at(alloc, place)?)?;
        }
        Ok(Row::of(cells))
    }

    // A copy of the value at a place.
    fn copy_at(&self, alloc: Global, place: usize) -> Result<Text, NoMemory>
        requires { place < length self.now }
        ensures { IfOk result (λ value. Some value ≡ slice_get self.now place) }
    {
        if let Some(short) = self.short(place) {
            return Text::of(alloc, short.as_slice());
        }
        match self.values.at(place) {
            Some(value) => value.copy(),
            None => Ok(Text::empty(alloc)),
        }
    }

    /// Its values.
    pub(crate) fn values(&self) -> &Values<'a>
        ensures { result.now ≡ self.now }
    {
        &self.values
    }
}

// Whether two beginnings are the same. Most are empty, which is seen without a comparison.
fn are_alike(beginning: &Text, other: &Text) -> bool
    ensures { IsTrue result → other.now ≡ beginning.now }
{
    (beginning.as_slice().is_empty() && other.as_slice().is_empty()) || beginning == other
}

// Whether the first value begins with this text.
fn begins_with(values: &Values<'_>, beginning: &Text) -> bool
    ensures { IsTrue result → BeginsWith beginning.now values.now }
{
    match values.at(0) {
        Some(first) => first.as_slice().starts_with(beginning.as_slice()),
        None => false,
    }
}

// Whether the two fronts of a row hold all of its first text.
fn holds_first(front: u64, next: u64) -> bool
    ensures { result ≡ holds_first front next }
{
    is_whole(front) || is_whole(next)
}

// The bytes behind so many first ones.
fn behind(bytes: &[u8], skipped: usize) -> &[u8]
    ensures { result.now ≡ drop skipped bytes.now }
{
    &bytes[skipped.min(bytes.len())..]
}

// The bytes of the first value behind so many, or none.
fn first_behind<'a>(values: &Values<'a>, skipped: usize) -> &'a [u8]
    ensures { result.now ≡ first_of (shortened skipped values.now) }
{
    match values.at(0) {
        Some(first) => behind(first.as_slice(), skipped),
        None => &[],
    }
}

// The bytes of the second value, or none.
fn second<'a>(values: &Values<'a>) -> &'a [u8]
    ensures { result.now ≡ first_of (drop 1 values.now) }
{
    match values.at(1) {
        Some(second) => second.as_slice(),
        None => &[],
    }
}

// The bytes next to the front of the first value behind so many, which is this.
fn next_behind<'a>(values: &Values<'a>, skipped: usize, front: u64) -> &'a [u8]
    requires { front ≡ front_of 7 (first_of (shortened skipped values.now)) }
    ensures { result.now ≡ next_of (shortened skipped values.now) }
{
    if is_whole(front) {
        second(values)
    } else {
        behind(first_behind(values, skipped), 7)
    }
}

impl PartialEq for Key<'_> {
    ghost eq = { row_eq };

    ghost laws = { partial_equiv_from_equiv (lists_equiv nat_list_eq_equiv) };

    fn eq(&self, other: &Self) -> bool {
        self.cmp(other).is_eq()
    }
}

impl Eq for Key<'_> {
    ghost laws = { lists_equiv nat_list_eq_equiv };
}

impl PartialOrd for Key<'_> {
    ghost partial_cmp = { as_partial_cmp row_cmp };

    ghost laws = { partial_order_from_agreeing_total row_cmp (lists_total nat_list_cmp_total) (λ a b. refl) (lists_ties text_cmp texts_ties) };

    fn partial_cmp(&self, other: &Self) -> Option<Ordering> {
        Some(self.cmp(other))
    }
}

impl Ord for Key<'_> {
    ghost cmp = { row_cmp };

    ghost total = { lists_total nat_list_cmp_total };

    ghost matches_partial_cmp = { λ a b. refl };

    ghost matches_eq = { lists_ties text_cmp texts_ties };

    // Where the fronts are the same and hold the first values, those are not read.
    fn cmp(&self, other: &Self) -> Ordering {
        if !are_alike(self.beginning, other.beginning) {
            return self.values.order_from(&other.values, 0);
        }
        match self.front.cmp(&other.front) {
            Ordering::Equal => match self.next.cmp(&other.next) {
                Ordering::Equal
                    if holds_first(self.front, self.next)
                        && self.values.count() > 0
                        && other.values.count() > 0 => { self.values.order_from(&other.values, 1) }
                Ordering::Equal => self.values.order_from(&other.values, 0),
                differs => differs,
            },
            differs => differs,
        }
    }
}
