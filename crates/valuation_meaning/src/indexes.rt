//! The indexes of a catalogue.
ghost use Rattle.std.specs.Prelude.{◌≡◌, IfOk, option_map, option_copied};
ghost use Rattle.schema_model.specs.Catalogue.{relation_of};
ghost use Rattle.schema_model.specs.States.{plain_relation};
ghost use Rattle.valuation_meaning.specs.Found.{found_under};

use crate::element::Element;
use crate::index::{Index, Lists};
use indexmap::IndexMap;
use schema_model::{Catalogue, Relation};
use ss_text::{NoMemory, Seed, Text};
use std::alloc::Global;
use std::marker::Model;

/// Indexes of relations of a catalogue, by the names of the database, the relation and the attribute. Each is made
/// when it is first asked for. Contracts see the catalogue.
#[derive(Drop)]
pub(crate) struct Indexes<'a> {
    catalogue: &'a Catalogue,
    made: IndexMap<(&'a Text, &'a Text, &'a Text), Index<'a>, Seed>,
}

impl<'a> Model for Indexes<'a> {
    ghost use Rattle.schema_model.specs.Catalogue.{CatalogueValue};
    ghost use Rattle.valuation_meaning.specs.Found.{AreMade};

    ghost Value = { CatalogueValue };

    ghost view = { λ i. i.catalogue.now.databases };

    ghost invariant = { λ i. AreMade i.catalogue.now.databases i.made.entries };
}

impl<'a> Indexes<'a> {
    /// No index of a catalogue.
    pub(crate) fn new(alloc: Global, catalogue: &'a Catalogue) -> Indexes<'a>
        ensures { result ≡ catalogue.now.databases }
    {
        Indexes {
            catalogue,
            made: IndexMap::with_hasher(alloc, catalogue.seed()),
        }
    }

    // The relation of these names.
    fn relation(&self, db: &Text, rel: &Text) -> Option<&'a Relation>
        ensures { option_map plain_relation (option_copied result) ≡ relation_of self.now db.now rel.now }
    {
        self.catalogue.database(db)?.relation(rel)
    }

    // What is found where there is no index of these names yet.
    fn first_found(
        &mut self,
        alloc: Global,
        lists: Lists,
        names: (&'a Text, &'a Text, &'a Text),
        text: &'a Text,
    ) -> Result<Vec<Element<'a>>, NoMemory>
        ensures found { IfOk result (λ es. es.items ≡ found_under self.old lists names.entry.0.now names.entry.1.now names.entry.2.now text.now) }
        ensures same { self.new ≡ self.old }
    {
        let Some(relation) = self.relation(names.0, names.1) else {
            return Ok(Vec::new(alloc));
        };
        let index = Index::of(alloc, self.catalogue.seed(), relation, names.2)?;
        let found = index.found(alloc, lists, text)?;
        self.made.insert(names, index)?;
        Ok(found)
    }

    /// The rows whose cell is this text, or those cells, of the relation and the attribute of these names.
    pub(crate) fn found(
        &mut self,
        alloc: Global,
        lists: Lists,
        names: (&'a Text, &'a Text, &'a Text),
        text: &'a Text,
    ) -> Result<Vec<Element<'a>>, NoMemory>
        ensures found { IfOk result (λ es. es.items ≡ found_under self.old lists names.entry.0.now names.entry.1.now names.entry.2.now text.now) }
        ensures same { self.new ≡ self.old }
    {
        if let Some(index) = self.made.get(&names) {
            return index.found(alloc, lists, text);
        }
        self.first_found(alloc, lists, names, text)
    }
}
