//! A borrowed text that is compared often.
ghost use Rattle.std.specs.Prelude.{◌≡◌, ◌==◌, refl, Some, bytes_eq, length, IfOk, IfSome};
ghost use Rattle.std.specs.Ordering.{nat_cmp};
ghost use Rattle.std.specs.Cmp.{partial_equiv_from_equiv};
ghost use Rattle.std.specs.Cmp.Lexicographic.{slice_cmp, nat_list_eq_equiv, nat_list_cmp_total, texts_ties, texts_po};
ghost use Rattle.ss_text.specs.Front.{front_of, AreDigits};

use crate::short::Short;
use ss_text::{NoMemory, Text, front_of, is_whole};
use std::alloc::Global;
use std::cmp::Ordering;
use std::marker::Model;

/// A text, which contracts see as its bytes; equality and order are those of the text. Its front stands beside it,
/// so that most comparisons read no text.
#[derive(Drop)]
pub struct Label<'a> {
    front: u64,
    text: &'a Text,
}

impl<'a> Model for Label<'a> {
    ghost use Rattle.std.specs.Prelude.{◌≡◌, List, ℕ};
    ghost use Rattle.ss_text.specs.Front.{front_of, AreDigits};

    ghost Value = { List ℕ };

    ghost view = { λ l. l.text.now };

    ghost invariant = { λ l. record { front : l.front ≡ front_of 7 l.text.now; digits : AreDigits 7 l.text.now } };
}

impl<'a> Label<'a> {
    /// The label with this text.
    pub fn of(text: &'a Text) -> Label<'a>
        ensures { result ≡ text.now }
    {
        Label {
            front: front_of(text.as_slice()),
            text,
        }
    }

    /// The same label.
    pub fn again(&self) -> Label<'a>
        ensures { result ≡ self.now }
    {
        Label {
            front: self.front,
            text: self.text,
        }
    }

    /// Its front.
    pub(crate) fn front(&self) -> u64
        ensures front { result ≡ front_of 7 self.now }
        ensures digits { AreDigits 7 self.now }
    {
        self.front
    }

    /// Its bytes, where its front holds them all. No text is read.
    pub fn short(&self) -> Option<Short>
        ensures { IfSome result (λ short. short ≡ self.now) }
    {
        if is_whole(self.front) {
            Some(Short::of(self.front))
        } else {
            None
        }
    }

    /// Whether it has no bytes. A short text is not read.
    pub(crate) fn is_empty(&self) -> bool
        ensures { result ≡ (length self.now == 0) }
    {
        match self.short() {
            Some(short) => short.as_slice().is_empty(),
            None => self.text.as_slice().is_empty(),
        }
    }

    /// A copy of its text. A short one is not read.
    pub fn copy(&self, alloc: Global) -> Result<Text, NoMemory>
        ensures { IfOk result (λ text. text ≡ self.now) }
    {
        match self.short() {
            Some(short) => Text::of(alloc, short.as_slice()),
            None => self.text.copy(),
        }
    }

    /// Its text.
    pub fn text(&self) -> &'a Text
        ensures { result.now ≡ self.now }
    {
        self.text
    }
}

impl PartialEq for Label<'_> {
    ghost eq = { bytes_eq };

    ghost laws = { partial_equiv_from_equiv nat_list_eq_equiv };

    fn eq(&self, other: &Self) -> bool {
        self.front == other.front && (is_whole(self.front) || self.text == other.text)
    }
}

impl Eq for Label<'_> {
    ghost laws = { nat_list_eq_equiv };
}

impl PartialOrd for Label<'_> {
    ghost partial_cmp = { λ a b. Some (slice_cmp nat_cmp a b) };

    ghost laws = { texts_po };

    fn partial_cmp(&self, other: &Self) -> Option<Ordering> {
        Some(self.cmp(other))
    }
}

impl Ord for Label<'_> {
    ghost cmp = { slice_cmp nat_cmp };

    ghost total = { nat_list_cmp_total };

    ghost matches_partial_cmp = { λ a b. refl };

    ghost matches_eq = { texts_ties };

    fn cmp(&self, other: &Self) -> Ordering {
        match self.front.cmp(&other.front) {
            Ordering::Equal if is_whole(self.front) => Ordering::Equal,
            Ordering::Equal => self.text.cmp(other.text),
            differs => differs,
        }
    }
}
