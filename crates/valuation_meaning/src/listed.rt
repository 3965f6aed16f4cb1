//! The facts of a view as they are listed.
ghost use Rattle.std.specs.Prelude.{◌≡◌, ◌++◌, ◌∷◌, [], is_some, OnOk};
ghost use Rattle.valuation_meaning.specs.Listed.{listed};

use fact_tables::{Fact, Key, Label, NoCell, OneCell};
use ss_text::{NoMemory, Text};
use std::alloc::Global;
use std::marker::Model;

/// What a fact is made of.
#[derive(Drop)]
pub(crate) struct FactParts<'a> {
    pub(crate) label: Label<'a>,
    pub(crate) key: Key<'a>,
    pub(crate) cell: Option<(Label<'a>, &'a Text)>,
}

impl<'a> Model for FactParts<'a> {
    ghost use Rattle.flow_law.specs.Facts.{Fact};
    ghost use Rattle.fact_tables.specs.Parts.{fact_value};
    ghost use Rattle.valuation_meaning.specs.Listed.{cell_value};

    ghost Value = { Fact };

    ghost view = { λ p. fact_value p.label p.key (cell_value p.cell) };
}

/// Facts, which contracts see beside whether each has a cell, as where the view has a variable column, or none has.
#[derive(Drop)]
pub(crate) struct ListedFacts<'a> {
    held: Held<'a>,
}

/// What holds facts: where they have no cell, there is no room for one.
#[derive(Drop)]
pub(crate) enum Held<'a> {
    Bare(Vec<Fact<'a, NoCell>>),
    WithCells(Vec<Fact<'a, OneCell<'a>>>),
}

impl<'a> Model for ListedFacts<'a> {
    ghost use Rattle.valuation_meaning.specs.Listed.{Listed, listed};

    ghost Value = { Listed };

    ghost view = { λ f. listed f.held };
}

impl<'a> ListedFacts<'a> {
    /// No facts.
    pub(crate) fn new(alloc: Global, have_cells: bool) -> ListedFacts<'a>
        ensures { result ≡ record { items = []; have_cells = have_cells } }
    {
        let held = if have_cells {
            Held::WithCells(Vec::new(alloc))
        } else {
            Held::Bare(Vec::new(alloc))
        };
        ListedFacts { held }
    }

    /// Takes the memory for so many more.
    pub(crate) fn reserve(&mut self, count: usize) -> Result<(), NoMemory>
        ensures { self.new ≡ self.old }
    {
        match &mut self.held {
            Held::Bare(facts) => facts.reserve(count)?,
            Held::WithCells(facts) => facts.reserve(count)?,
        }
        Ok(())
    }

    /// Adds a fact, which has a cell just where they have.
    pub(crate) fn push(&mut self, fact: FactParts<'a>) -> Result<(), NoMemory>
        requires { is_some fact.cell ≡ self.old.have_cells }
        ensures items { OnOk result (self.new.items ≡ self.old.items ++ fact.entry ∷ []) }
        ensures same { self.new.have_cells ≡ self.old.have_cells }
    {
        let FactParts { label, key, cell } = fact;
        match (&mut self.held, cell) {
            (Held::Bare(facts), None) => facts.push(Fact::of(label, key, NoCell))?,
            (Held::WithCells(facts), Some((column, value))) => {
                facts.push(Fact::of(label, key, OneCell::of(column, value)))?;
            }
            _ => unreachable!(),
        }
        Ok(())
    }

    /// What holds them.
    pub(crate) fn into_held(self) -> Held<'a>
        ensures { listed result ≡ self.entry }
    {
        self.held
    }
}
