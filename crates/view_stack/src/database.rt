//! The database that tables are.
ghost use Rattle.std.specs.Prelude.{◌≡◌, ◌<◌, ◌≤◌, ◌+◌, ◌∷◌, ◌++◌, [], None, Some, true, length, map, nat_lt, IfOk, IfErr, IfNone, IfSome, OnOk};
ghost use Rattle.std.specs.List.{list_any, AllByRecursion};
ghost use Rattle.ss_text.specs.Texts.{Text as TextValue};
ghost use Rattle.ss_text.specs.Label.{is_table_label};
ghost use Rattle.flow_law.specs.InOrder.{AreTables};
ghost use Rattle.change_script.specs.Fits.{IsForm, TablesFit};
ghost use Rattle.row_shelves.specs.Stocks.{rows_of};
ghost use Rattle.row_shelves.specs.Shelves.{all_rows};
ghost use Rattle.kept_tables.specs.Slots.{tables_in};
ghost use Rattle.schema_model.specs.Limits.{most_attributes, most_rows};
ghost use Rattle.schema_model.specs.States.{settled};
ghost use Rattle.view_stack.specs.Limits.{first_limit, is_wide, row_total, IsLiftFault};
ghost use Rattle.view_stack.specs.Putting.{rows_put, relations_put, CanTake, CanTakeRows};
ghost use Rattle.view_stack.specs.Stands.{relation_for, database_for, catalogue_for, stands};
ghost use Rattle.flow_law.specs.Records.{spliced, row_records};

use crate::LiftFault;
use flow_law::Shape;
use kept_tables::{KeptTable, KeptTables, Slot};
use row_shelves::{KeptRow, RowShelf};
use schema_model::{Catalogue, MOST_ATTRIBUTES, MOST_RELATIONS, MOST_ROWS, Which};
use ss_text::{NoMemory, Row, Seed, Text};
use std::alloc::Global;

/// The catalogue of the one database that tables are: a relation for each table, with the attributes of its header, and a
/// row for each key; or the first limit that it would pass, of relations, then of attributes, then of rows. It carries this
/// seed.
pub fn catalogue_of(
    alloc: Global,
    seed: Seed,
    view_db: &Text,
    shape: &Shape,
    tables: &KeptTables,
) -> Result<Catalogue, LiftFault>
    requires legal { is_table_label view_db.now ≡ true }
    requires form { IsForm shape.now }
    requires some { 1 ≤ length shape.now.constants }
    requires order { AreTables tables.now.tables }
    requires fits { TablesFit shape.now tables.now.tables }
    ensures catalogue { IfOk result (λ c. c ≡ settled (catalogue_for view_db.now shape.now tables.now.tables)) }
    ensures stands { IfOk result (λ c. stands view_db.now shape.now tables.now.tables c.databases) }
    ensures within { OnOk result (first_limit (database_for view_db.now shape.now tables.now.tables) ≡ None) }
    ensures refused { IfErr result (IsLiftFault (first_limit (database_for view_db.now shape.now tables.now.tables))) }
{
    let slots = tables.slots();
    match passed(shape, slots) {
        Some(which) => Err(LiftFault::Limit { which }),
        None => {
            let catalogue = made(alloc, seed, view_db, shape, slots)?;
            Ok(catalogue)
        }
    }
}

// The first limit that the database of tables passes.
fn passed(shape: &Shape, slots: &[Slot]) -> Option<Which>
    requires { TablesFit shape.now (tables_in slots.now) }
    ensures { (db : TextValue) → result ≡ first_limit (database_for db shape.now (tables_in slots.now)) }
{
    if count(slots) > MOST_RELATIONS {
        return Some(Which::Relations);
    }
    if some_wide(shape, slots) {
        return Some(Which::Attributes);
    }
    if room_left(slots).is_none() {
        return Some(Which::Rows);
    }
    None
}

// How many tables there are.
fn count(slots: &[Slot]) -> usize
    ensures { result ≡ length (tables_in slots.now) }
{
    let mut count = 0;
    for slot in slots {
        count += slot_count(slot);
    }
    count
}

fn slot_count(slot: &Slot) -> usize
    ensures count { result ≡ length (tables_in (slot.now ∷ [])) }
    ensures one { result ≤ 1 }
{
    match slot.table() {
        Some(_) => 1,
        None => 0,
    }
}

// Whether the relation of some table has too many attributes.
fn some_wide(shape: &Shape, slots: &[Slot]) -> bool
    requires { TablesFit shape.now (tables_in slots.now) }
    ensures { result ≡ list_any is_wide (map (relation_for shape.now) (tables_in slots.now)) }
{
    for slot in slots {
        if slot_wide(shape, slot) {
            return true;
        }
    }
    false
}

fn slot_wide(shape: &Shape, slot: &Slot) -> bool
    requires { TablesFit shape.now (tables_in (slot.now ∷ [])) }
    ensures { result ≡ list_any is_wide (map (relation_for shape.now) (tables_in (slot.now ∷ []))) }
{
    match slot.table() {
        Some(table) => are_many(shape.constants.cells(), table.columns()),
        None => false,
    }
}

// Whether these are too many attributes together.
fn are_many(constants: &[Text], columns: &[Text]) -> bool
    ensures { result ≡ nat_lt most_attributes (length constants.now + length columns.now) }
{
    constants.len() > MOST_ATTRIBUTES || columns.len() > MOST_ATTRIBUTES - constants.len()
}

// How many rows more there may be beside those of tables, unless they are too many.
fn room_left(slots: &[Slot]) -> Option<usize>
    ensures none { IfNone result (most_rows < row_total (tables_in slots.now)) }
    ensures left { IfSome result (λ left. left + row_total (tables_in slots.now) ≡ most_rows) }
{
    let mut room = MOST_ROWS;
    for slot in slots {
        room = room_beside(slot, room)?;
    }
    Some(room)
}

fn room_beside(slot: &Slot, room: usize) -> Option<usize>
    ensures none { IfNone result (room < row_total (tables_in (slot.now ∷ []))) }
    ensures left { IfSome result (λ left. left + row_total (tables_in (slot.now ∷ [])) ≡ room) }
{
    match slot.table() {
        Some(table) => room_behind(table.shelves(), room),
        None => Some(room),
    }
}

// How much is left of room for rows behind those of shelves, if it is enough for them.
fn room_behind(shelves: &[RowShelf], room: usize) -> Option<usize>
    ensures none { IfNone result (room < length (all_rows shelves.now)) }
    ensures left { IfSome result (λ left. left + length (all_rows shelves.now) ≡ room) }
{
    let mut left = room;
    for shelf in shelves {
        left = left.checked_sub(shelf.rows().len())?;
    }
    Some(left)
}

// The catalogue of the database of tables, which passes no limit.
fn made(
    alloc: Global,
    seed: Seed,
    view_db: &Text,
    shape: &Shape,
    slots: &[Slot],
) -> Result<Catalogue, NoMemory>
    requires legal { is_table_label view_db.now ≡ true }
    requires form { IsForm shape.now }
    requires some { 1 ≤ length shape.now.constants }
    requires order { AreTables (tables_in slots.now) }
    requires fits { TablesFit shape.now (tables_in slots.now) }
    requires within { first_limit (database_for view_db.now shape.now (tables_in slots.now)) ≡ None }
    ensures { IfOk result (λ c. c ≡ settled (catalogue_for view_db.now shape.now (tables_in slots.now))) }
{
    let mut catalogue = Catalogue::seeded(alloc, seed);
    catalogue.put_database(view_db.copy()?)?;
    let mut rel = 0;
    for slot in slots {
        rel = put_slot(alloc, &mut catalogue, rel, shape, slot)?;
    }
    Ok(catalogue)
}

// Puts the relation of a slot's table last, at this place, if the table is there. It answers the place behind it.
fn put_slot(
    alloc: Global,
    catalogue: &mut Catalogue,
    rel: usize,
    shape: &Shape,
    slot: &Slot,
) -> Result<usize, NoMemory>
    requires settled { catalogue.old ≡ settled catalogue.old.databases }
    requires takes { AllByRecursion (λ p. CanTake catalogue.old.databases rel (relation_for shape.now p)) (tables_in (slot.now ∷ [])) }
    ensures rel { IfOk result (λ next. next ≡ rel + length (tables_in (slot.now ∷ []))) }
    ensures put { OnOk result (catalogue.new ≡ settled (relations_put (map (relation_for shape.now) (tables_in (slot.now ∷ []))) catalogue.old.databases)) }
{
    match slot.table() {
        Some(table) => {
            put_table(alloc, catalogue, rel, shape, slot.label(), table)?;
            Ok(rel + 1)
        }
        None => Ok(rel),
    }
}

// Puts the relation of a table last, at this place.
fn put_table(
    alloc: Global,
    catalogue: &mut Catalogue,
    rel: usize,
    shape: &Shape,
    label: &Text,
    table: &KeptTable,
) -> Result<(), NoMemory>
    requires { CanTake catalogue.old.databases rel (relation_for shape.now (label.now, table.now.table)) }
    ensures { OnOk result (catalogue.new ≡ settled (relations_put (relation_for shape.now (label.now, table.now.table) ∷ []) catalogue.old.databases)) }
{
    let header = spliced(alloc, shape.spot, &shape.constants, table.columns())?;
    catalogue.put_relation(0, label.copy()?, header)?;
    put_shelves(alloc, catalogue, rel, shape.spot, table.shelves())
}

// Puts a record for each row last in a relation, shelf by shelf.
fn put_shelves(
    alloc: Global,
    catalogue: &mut Catalogue,
    rel: usize,
    spot: Option<usize>,
    shelves: &[RowShelf],
) -> Result<(), NoMemory>
    requires settled { catalogue.old ≡ settled catalogue.old.databases }
    requires takes { CanTakeRows catalogue.old.databases rel (row_records spot (rows_of (all_rows shelves.now))) }
    ensures { OnOk result (catalogue.new ≡ settled (rows_put rel (row_records spot (rows_of (all_rows shelves.now))) catalogue.old.databases)) }
{
    for shelf in shelves {
        put_shelf(alloc, catalogue, rel, spot, shelf.rows())?;
    }
    Ok(())
}

// Puts a record for each row of a shelf last in a relation.
fn put_shelf(
    alloc: Global,
    catalogue: &mut Catalogue,
    rel: usize,
    spot: Option<usize>,
    shelf: &[KeptRow],
) -> Result<(), NoMemory>
    requires settled { catalogue.old ≡ settled catalogue.old.databases }
    requires takes { CanTakeRows catalogue.old.databases rel (row_records spot (rows_of shelf.now)) }
    ensures { OnOk result (catalogue.new ≡ settled (rows_put rel (row_records spot (rows_of shelf.now)) catalogue.old.databases)) }
{
    for row in shelf {
        let record = spliced(alloc, spot, row.key(), row.cells())?;
        catalogue.put_row(0, rel, record)?;
    }
    Ok(())
}

// The record whose dynamic part stands behind as many texts of its constant part as the spot says.
fn spliced(
    alloc: Global,
    spot: Option<usize>,
    constant: &Row,
    dynamic: &[Text],
) -> Result<Row, NoMemory>
    ensures { IfOk result (λ row. row ≡ spliced spot constant.now dynamic.now) }
{
    let Some(spot) = spot else {
        return constant.copy();
    };
    let constant = constant.cells();
    let split = spot.min(constant.len());
    let mut record = Vec::with_capacity(alloc, constant.len().saturating_add(dynamic.len()))?;
    append(&mut record, &constant[..split])?;
    append(&mut record, dynamic)?;
    append(&mut record, &constant[split..])?;
    Ok(Row::of(record))
}

// Puts copies of these texts last.
fn append(row: &mut Vec<Text>, texts: &[Text]) -> Result<(), NoMemory>
    ensures { OnOk result (row.new.items ≡ row.old.items ++ texts.now) }
{
    for text in texts {
        row.push(text.copy()?)?;
    }
    Ok(())
}
