//! The attributes of a relation, as lines leave them.
ghost use Rattle.std.specs.Prelude.{◌≡◌, remove, Some, IfOk};
ghost use Rattle.std.specs.List.{position_or_len};
ghost use Rattle.ss_text.specs.Texts.{text_eq};
ghost use Rattle.flow_law.specs.Lines.{label_of};
ghost use Rattle.schema_model.specs.Catalogue.{attributes_of};
ghost use Rattle.view_stack.specs.Lifted.{names_of, names_after};

use crate::position::position_of;
use flow_law::TableLine;
use schema_model::Catalogue;
use ss_text::{NoMemory, Row, Text};
use std::alloc::Global;
use std::marker::Model;

/// The attributes that a line left of its label's relation. Contracts see the label and the attributes.
pub(crate) struct Left<'a> {
    label: &'a Text,
    names: Vec<Text>,
}

impl<'a> Drop for Left<'a> {
    fn drop(self) {
        let Left { label: _, names } = self;
        drop(names);
    }
}

impl<'a> Model for Left<'a> {
    ghost use Rattle.ss_text.specs.Texts.{Text, Row};

    ghost Value = { Text × Row };

    ghost view = { λ l. (l.label.now, l.names.items) };
}

impl<'a> Left<'a> {
    /// What a line leaves, where these were the attributes before it.
    pub(crate) fn by(
        alloc: Global,
        constants: &Row,
        names: Vec<Text>,
        line: &'a TableLine,
    ) -> Result<Left<'a>, NoMemory>
        ensures { IfOk result (λ left. left ≡ (label_of line.now, names_after constants.now line.now names.items)) }
    {
        let names = names_after(alloc, constants, names, line)?;
        Ok(Left {
            label: line.label(),
            names,
        })
    }

    // The attributes of the relation of a label: these, if the line was of this label.
    fn or_of(
        self,
        alloc: Global,
        catalogue: &Catalogue,
        db: &Text,
        label: &Text,
    ) -> Result<Vec<Text>, NoMemory>
        ensures { IfOk result (λ names. names.items ≡ names_of catalogue.now.databases db.now (Some self.entry) label.now) }
    {
        let Left { label: own, names } = self;
        if own == label {
            return Ok(names);
        }
        attributes_of(alloc, catalogue, db, label)
    }
}

/// The attributes of the relation of a label, as the line before left them if it was of this label.
pub(crate) fn names_of(
    alloc: Global,
    catalogue: &Catalogue,
    db: &Text,
    left: Option<Left<'_>>,
    label: &Text,
) -> Result<Vec<Text>, NoMemory>
    ensures { IfOk result (λ names. names.items ≡ names_of catalogue.now.databases db.now left.entry label.now) }
{
    match left {
        Some(left) => left.or_of(alloc, catalogue, db, label),
        None => attributes_of(alloc, catalogue, db, label),
    }
}

// The attributes of a relation, none where there is no such relation.
fn attributes_of(
    alloc: Global,
    catalogue: &Catalogue,
    db: &Text,
    label: &Text,
) -> Result<Vec<Text>, NoMemory>
    ensures { IfOk result (λ names. names.items ≡ attributes_of catalogue.now.databases db.now label.now) }
{
    let Some(database) = catalogue.database(db) else {
        return Ok(Vec::new(alloc));
    };
    match database.relation(label) {
        Some(relation) => copies(alloc, relation.attributes()),
        None => Ok(Vec::new(alloc)),
    }
}

// Copies of the texts of a row.
fn copies(alloc: Global, row: &Row) -> Result<Vec<Text>, NoMemory>
    ensures { IfOk result (λ copies. copies.items ≡ row.now) }
{
    let mut copies = Vec::with_capacity(alloc, row.cells().len())?;
    for text in row.cells() {
        copies.push(text.copy()?)?;
    }
    Ok(copies)
}

// What a line leaves of attributes.
fn names_after(
    alloc: Global,
    constants: &Row,
    mut names: Vec<Text>,
    line: &TableLine,
) -> Result<Vec<Text>, NoMemory>
    ensures { IfOk result (λ left. left.items ≡ names_after constants.now line.now names.items) }
{
    match line {
        TableLine::TableMinus { .. } => Ok(Vec::new(alloc)),
        TableLine::TablePlus { .. } => copies(alloc, constants),
        TableLine::ColumnMinus { column, .. } => Ok(without(names, column)),
        TableLine::ColumnPlus { column, .. } => {
            names.push(column.copy()?)?;
            Ok(names)
        }
        TableLine::RowMinus { .. } | TableLine::RowPlus { .. } | TableLine::Cell { .. } => {
            Ok(names)
        }
    }
}

// Names without the first that is this one.
fn without(mut names: Vec<Text>, name: &Text) -> Vec<Text>
    ensures { result.items ≡ remove names.items (position_or_len (text_eq name.now) names.items) }
{
    if let Some(place) = position_of(&names, name) {
        names.remove(place);
    }
    names
}
