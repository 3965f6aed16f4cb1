//! A row: a list of texts.
ghost use Rattle.std.specs.Prelude.{◌≡◌, Some, refl, bytes_eq, IfOk};
ghost use Rattle.std.specs.Ordering.{nat_cmp};
ghost use Rattle.std.specs.Hash as fed;
ghost use Rattle.std.specs.Hash.{items_Alike, same_Alike};
ghost use Rattle.std.specs.Cmp.{partial_equiv_from_equiv, partial_order_from_agreeing_total};
ghost use Rattle.std.specs.Cmp.Lexicographic.{pointwise, slice_cmp, lists_equiv, lists_total, lists_ties, nat_list_eq_equiv, nat_list_cmp_total, texts_ties, bytes_decides};

use crate::{NoMemory, Text};
use std::alloc::Global;
use std::cmp::Ordering;
use std::hash::{Hash, Hasher};
use std::marker::Model;

/// A list of texts, which contracts see as the list of their lists of bytes. Equality, order and hash are
/// those of the list, a prefix being less.
#[derive(Clone, Debug)]
pub struct Row {
    texts: Vec<Text>,
}

impl Drop for Row {
    fn drop(self) {
        let Row { texts } = self;
        drop(texts);
    }
}

impl Model for Row {
    ghost use Rattle.std.specs.Prelude.{List, ℕ};

    ghost Value = { List (List ℕ) };

    ghost view = { λ r. r.texts.items };
}

impl Row {
    /// The row with these texts, in this order.
    pub fn of(cells: Vec<Text>) -> Row
        ensures { result ≡ cells.items }
    {
        Row { texts: cells }
    }

    /// The row of copies of these texts, in this order.
    pub fn of_copies(alloc: Global, texts: &[Text]) -> Result<Row, NoMemory>
        ensures { IfOk result (λ row. row ≡ texts.now) }
    {
        let mut copies = Vec::with_capacity(alloc, texts.len())?;
        for text in texts {
            copies.push(text.copy()?)?;
        }
        Ok(Row::of(copies))
    }

    /// Its texts, in order.
    pub fn cells(&self) -> &[Text]
        ensures { result.now ≡ self.now }
    {
        self.texts.as_slice()
    }

    /// An equal row.
    pub fn copy(&self) -> Result<Row, NoMemory>
        ensures { IfOk result (λ row. row ≡ self.now) }
    {
        Ok(self.clone()?)
    }
}

impl PartialEq for Row {
    ghost eq = { pointwise bytes_eq };

    ghost laws = { partial_equiv_from_equiv (lists_equiv nat_list_eq_equiv) };

    fn eq(&self, other: &Row) -> bool {
        self.cells() == other.cells()
    }
}

impl Eq for Row {
    ghost laws = { lists_equiv nat_list_eq_equiv };
}

impl PartialOrd for Row {
    ghost partial_cmp = { λ a b. Some (slice_cmp (slice_cmp nat_cmp) a b) };

    ghost laws = { partial_order_from_agreeing_total (slice_cmp (slice_cmp nat_cmp)) (lists_total nat_list_cmp_total) (λ a b. refl) (lists_ties (slice_cmp nat_cmp) texts_ties) };

    fn partial_cmp(&self, other: &Row) -> Option<Ordering> {
        Some(self.cmp(other))
    }
}

impl Ord for Row {
    ghost cmp = { slice_cmp (slice_cmp nat_cmp) };

    ghost total = { lists_total nat_list_cmp_total };

    ghost matches_partial_cmp = { λ a b. refl };

    ghost matches_eq = { lists_ties (slice_cmp nat_cmp) texts_ties };

    fn cmp(&self, other: &Row) -> Ordering {
        self.cells().cmp(other.cells())
    }
}

impl Hash for Row {
    ghost hash_input = { fed.slice (fed.slice fed.u8) };

    ghost respects_eq = { (items_Alike (same_Alike (fed.slice fed.u8) bytes_decides)).fed };

    fn hash<H: Hasher>(&self, state: &mut H) {
        self.cells().hash(state);
    }
}
