//! Changes whose places are found and whose memory is taken.
use crate::{Database, Relation};
use ss_text::{Row, Text};
use std::snapshot::Snapshot;

/// What happens to a relation.
#[derive(Drop)]
pub(crate) enum RelationEdit {
    /// The row that waits is put last; it is this one.
    Add { row: Snapshot<Row> },
    /// The first row that equals this one is taken out.
    Take { row: Row },
    /// All attributes and all rows are replaced.
    Sheet { attributes: Row, rows: Vec<Row> },
    /// All attributes are replaced.
    Header { attributes: Row },
}

/// What happens to a database.
#[derive(Drop)]
pub(crate) enum DatabaseEdit {
    At { rel: usize, edit: RelationEdit },
    Put { place: usize, relation: Relation },
    Out { place: usize },
    /// The relation gets a name, and the place that it has among the others by that name.
    Rename { place: usize, to: usize, name: Text },
}

/// What happens to a catalogue.
#[derive(Drop)]
pub(crate) enum CatalogueEdit {
    At { db: usize, edit: DatabaseEdit },
    Put { place: usize, database: Database },
    Out { place: usize },
    Rename { place: usize, to: usize, name: Text },
}

/// What happens to one row of a relation: it is put last or taken out.
#[derive(Drop)]
pub(crate) struct RowEdit {
    pub db: usize,
    pub rel: usize,
    pub edit: RelationEdit,
}

/// What happens to a catalogue by changes that are made together.
#[derive(Drop)]
pub(crate) enum GroupEdit {
    /// Rows come and go in place. The first edit to be made is the last.
    Rows(Vec<RowEdit>),
    /// These databases, with so many rows, take the place of those that are there.
    Whole {
        databases: Vec<Database>,
        rows: usize,
    },
}
