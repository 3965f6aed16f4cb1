//! The rows of a relation by the cell under an attribute.
ghost use Rattle.std.specs.Prelude.{◌≡◌, ◌<◌, IfOk, length};
ghost use Rattle.schema_model.specs.States.{plain_relation};
ghost use Rattle.valuation_meaning.specs.Found.{found_at, found_in};

use crate::column::{cell_near, column_of};
use crate::element::Element;
use indexmap::IndexMap;
use schema_model::Relation;
use ss_text::{NoMemory, Row, Seed, Text};
use std::alloc::Global;
use std::marker::Model;

/// What a declaration lists of a relation: its rows, or the cells under an attribute.
#[derive(Clone, Copy)]
pub(crate) enum Lists {
    Rows,
    Cells,
}

/// The rows of a relation; those with the same cell under an attribute are chained in their order.
#[derive(Drop)]
pub(crate) struct Index<'a> {
    relation: &'a Relation,
    attribute: &'a Text,
    rows: Vec<&'a Row>,
    heads: IndexMap<&'a Text, usize, Seed>,
    next: Vec<Option<usize>>,
}

impl<'a> Model for Index<'a> {
    ghost use Rattle.std.specs.Prelude.{◌≡◌};
    ghost use Rattle.schema_model.specs.States.{plain_relation};
    ghost use Rattle.valuation_meaning.specs.Indexed.{Indexed, cells_of, rows_now, IsIndexed};

    ghost Value = { Indexed };

    ghost view = { λ i. (plain_relation i.relation.now, i.attribute.now) };

    ghost invariant = { λ i. record {
      rows : rows_now i.rows.items ≡ (plain_relation i.relation.now).rows;
      indexed : IsIndexed (cells_of (plain_relation i.relation.now, i.attribute.now)) i.heads.entries i.next.items 0;
    } };
}

// No next row for so many rows.
fn no_next(alloc: Global, count: usize) -> Result<Vec<Option<usize>>, NoMemory>
    ensures { IfOk result (λ next. length next.items ≡ count) }
{
    let mut next = Vec::with_capacity(alloc, count)?;
    while next.len() < count {
        next.push(None)?;
    }
    Ok(next)
}

// Where the attribute stands in the relation, or the first place where it is missing.
fn place_of(relation: &Relation, attribute: &Text) -> usize {
    match column_of(relation.attributes(), attribute) {
        Some(place) => place,
        None => 0,
    }
}

impl<'a> Index<'a> {
    /// The index of a relation by an attribute. It is made from the last row to the first, so that the row that
    /// was the first of its cell so far is the next of the row before it. Cells are hashed by a seed.
    pub(crate) fn of(
        alloc: Global,
        seed: Seed,
        relation: &'a Relation,
        attribute: &'a Text,
    ) -> Result<Index<'a>, NoMemory>
        ensures { IfOk result (λ index. index ≡ (plain_relation relation.now, attribute.now)) }
    {
        let rows = relation.rows(alloc)?;
        let mut heads = IndexMap::with_hasher(alloc, seed);
        let mut next = no_next(alloc, rows.len())?;
        let near = place_of(relation, attribute);
        let mut position = rows.len();
        while position > 0 {
            position -= 1;
            let row = rows[position];
            if let Some(cell) = cell_near(relation.attributes(), attribute, near, row) {
                next[position] = heads.insert(cell, position)?;
            }
        }
        Ok(Index {
            relation,
            attribute,
            rows,
            heads,
            next,
        })
    }

    // What is found at a position.
    fn element(&self, lists: Lists, position: usize, text: &'a Text) -> Element<'a>
        requires { position < length self.now.0.rows }
        ensures { result ≡ found_at lists self.now.0 text.now position }
    {
        match lists {
            Lists::Rows => Element::of_row(self.relation, position, self.rows[position]),
            Lists::Cells => Element::of_text(text),
        }
    }

    /// The rows whose cell is this text, or those cells, in their order.
    pub(crate) fn found(
        &self,
        alloc: Global,
        lists: Lists,
        text: &'a Text,
    ) -> Result<Vec<Element<'a>>, NoMemory>
        ensures { IfOk result (λ es. es.items ≡ found_in lists self.now text.now) }
    {
        let mut found = Vec::new(alloc);
        let mut next = self.heads.get(&text).copied();
        while let Some(position) = next {
            found.push(self.element(lists, position, text))?;
            next = self.next[position];
        }
        Ok(found)
    }
}
