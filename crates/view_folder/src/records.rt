//! The table that the records of a file are.
ghost use Rattle.std.specs.Prelude.{◌≡◌, ◌≢◌, ◌++◌, ◌∷◌, ◌↔◌, [], true, Some, None, length, map, unwrap_or, is_some, ◌&&◌, IsTrue, IfOk, IfErr, IfSome, OnOk};
ghost use Rattle.std.specs.List.{AllByRecursion, list_all};
ghost use Rattle.std.specs.List.Sorted.{IsStrictlySortedBy};
ghost use Rattle.std.specs.Ordering.{is_lt};
ghost use Rattle.ss_text.specs.Texts.{Row, text_cmp, row_cmp};
ghost use Rattle.ss_text.specs.Label.{is_column_label};
ghost use Rattle.csv_catalog.specs.FileFaults.{first_repeated};
ghost use Rattle.flow_law.specs.Tables.{table_value, row_keys};
ghost use Rattle.view_folder.specs.Held.{KeysFit, is_refusal};
ghost use Rattle.view_folder.specs.Records.{records_fault, rows_fault, lengths_fault, view_fault, ragged, table_in, table_under, are_of_view, ascends, is_header, are_columns, constant_part, dynamic_part, dynamic_count, before_spot, behind_spot, key_and_cells};

use crate::TablesFault;
use csv_catalog::first_repeated;
use flow_law::{Shape, Table};
use ss_text::{NoMemory, Row, Seed, Text, column_label_legal};
use std::alloc::Global;

// The table of these records, which a file of this name holds.
pub(crate) fn table_of(
    alloc: Global,
    seed: Seed,
    shape: &Shape,
    file: Text,
    records: &[Row],
) -> Result<Table, TablesFault>
    ensures sound { OnOk result (records_fault shape.now file records.now ≡ None) }
    ensures table { IfOk result (λ table. table ≡ table_in shape.now records.now) }
    ensures keys { IfOk result (λ table. KeysFit shape.now table) }
    ensures refused { IfErr result (λ e. is_refusal e ≡ true → records_fault shape.now file records.now ≡ Some e) }
    ensures no_read { IfErr result (λ e. e ≢ TablesFault.ReadFault) }
{
    match records {
        [] => Err(TablesFault::NoHeader { file }),
        [header, rows @ ..] => table_of_rows(alloc, seed, shape, file, header, rows),
    }
}

// The table of this header and these rows.
fn table_of_rows(
    alloc: Global,
    seed: Seed,
    shape: &Shape,
    file: Text,
    header: &Row,
    rows: &[Row],
) -> Result<Table, TablesFault>
    ensures sound { OnOk result (rows_fault shape.now file header.now rows.now ≡ None) }
    ensures table { IfOk result (λ table. table ≡ table_under shape.now header.now rows.now) }
    ensures keys { IfOk result (λ table. KeysFit shape.now table) }
    ensures refused { IfErr result (λ e. is_refusal e ≡ true → rows_fault shape.now file header.now rows.now ≡ Some e) }
    ensures no_read { IfErr result (λ e. e ≢ TablesFault.ReadFault) }
{
    match first_repeated(alloc, seed, header.cells())? {
        Some(name) => Err(TablesFault::NameTwice { file, name }),
        None => table_of_lengths(alloc, shape, file, header, rows),
    }
}

// That of a header that names each column once.
fn table_of_lengths(
    alloc: Global,
    shape: &Shape,
    file: Text,
    header: &Row,
    rows: &[Row],
) -> Result<Table, TablesFault>
    ensures sound { OnOk result (lengths_fault shape.now file header.now rows.now ≡ None) }
    ensures table { IfOk result (λ table. table ≡ table_under shape.now header.now rows.now) }
    ensures keys { IfOk result (λ table. KeysFit shape.now table) }
    ensures refused { IfErr result (λ e. is_refusal e ≡ true → lengths_fault shape.now file header.now rows.now ≡ Some e) }
    ensures no_read { IfErr result (λ e. e ≢ TablesFault.ReadFault) }
{
    let want = header.cells().len();
    match first_ragged(want, rows) {
        Some((nth, got)) => Err(TablesFault::Ragged {
            file,
            nth,
            want,
            got,
        }),
        None => table_of_view(alloc, shape, file, header, rows),
    }
}

// That of a header and rows of its length.
#[tactic(auto, using(crate::proofs::RecordLemmas::keys_fit))]
fn table_of_view(
    alloc: Global,
    shape: &Shape,
    file: Text,
    header: &Row,
    rows: &[Row],
) -> Result<Table, TablesFault>
    requires { AllByRecursion (λ row. length row ≡ length header.now) rows.now }
    ensures sound { OnOk result (view_fault shape.now file header.now rows.now ≡ None) }
    ensures table { IfOk result (λ table. table ≡ table_under shape.now header.now rows.now) }
    ensures keys { IfOk result (λ table. KeysFit shape.now table) }
    ensures refused { IfErr result (λ e. is_refusal e ≡ true → view_fault shape.now file header.now rows.now ≡ Some e) }
    ensures no_read { IfErr result (λ e. e ≢ TablesFault.ReadFault) }
{
    match table_under(alloc, shape, header, rows)? {
        Some(table) => Ok(table),
        None => Err(TablesFault::NotThisView { file }),
    }
}

// The number of the first record behind a header that has another number of fields than it, and how many.
fn first_ragged(want: usize, rows: &[Row]) -> Option<(u64, usize)>
    ensures { result ≡ ragged want 2 rows.now }
{
    let mut nth = 2;
    for row in rows {
        let got = row.cells().len();
        if got != want {
            return Some((nth, got));
        }
        nth += 1;
    }
    None
}

// The table of this header and of these rows of its length, where they are those of one of the view.
#[tactic(auto, using(crate::proofs::RecordLemmas::cells_fit))]
fn table_under(
    alloc: Global,
    shape: &Shape,
    header: &Row,
    rows: &[Row],
) -> Result<Option<Table>, NoMemory>
    requires { AllByRecursion (λ row. length row ≡ length header.now) rows.now }
    ensures table { IfOk result (λ table. IfSome table (λ t. t ≡ table_under shape.now header.now rows.now)) }
    ensures there { IfOk result (λ table. is_some table ≡ are_of_view shape.now header.now rows.now) }
{
    let Some(columns) = columns_under(alloc, shape, header)? else {
        return Ok(None);
    };
    filled(alloc, shape, columns, rows)
}

// The table with these columns and with the keys and the cells of these rows, where the keys ascend.
fn filled(
    alloc: Global,
    shape: &Shape,
    columns: Vec<Text>,
    rows: &[Row],
) -> Result<Option<Table>, NoMemory>
    requires columns { IsStrictlySortedBy text_cmp columns.items }
    requires cells { AllByRecursion (λ row. length (dynamic_part shape.now row) ≡ length columns.items) rows.now }
    ensures table { IfOk result (λ table. IfSome table (λ t. t ≡ table_value columns.items (map (key_and_cells shape.now) rows.now))) }
    ensures there { IfOk result (λ table. is_some table ≡ ascends row_cmp (map (constant_part shape.now) rows.now)) }
{
    let mut table = Table::of_columns(columns);
    for row in rows {
        let key = constant_part(alloc, shape, row)?;
        if !is_behind(&table, &key) {
            return Ok(None);
        }
        let cells = copied(alloc, dynamic_part(shape, row))?;
        table.put_row(key, cells)?;
    }
    Ok(Some(table))
}

// Whether a key is greater than all keys of a table.
fn is_behind(table: &Table, key: &Row) -> bool
    requires { IsStrictlySortedBy row_cmp (row_keys table.now) }
    ensures { IsTrue result ↔ IsStrictlySortedBy row_cmp (row_keys table.now ++ key.now ∷ []) }
{
    let count = table.count();
    count == 0 || is_less(table.key(count - 1), key)
}

fn is_less(key: &Row, other: &Row) -> bool
    ensures { result ≡ is_lt (row_cmp key.now other.now) }
{
    key.cmp(other).is_lt()
}

// The dynamic columns of a header, where it is one of the view.
#[tactic(auto, using(crate::proofs::RecordLemmas::ascends_strict, ss_text::proofs::KeyLemmas::row_order))]
fn columns_under(alloc: Global, shape: &Shape, header: &Row) -> Result<Option<Vec<Text>>, NoMemory>
    ensures columns { IfOk result (λ columns. IfSome columns (λ c. c.items ≡ dynamic_part shape.now header.now)) }
    ensures ascend { IfOk result (λ columns. IfSome columns (λ c. IsStrictlySortedBy text_cmp c.items)) }
    ensures header { IfOk result (λ columns. is_some columns ≡ is_header shape.now header.now) }
{
    let columns = dynamic_part(shape, header);
    if constant_part(alloc, shape, header)? != shape.constants || !are_columns(shape, columns) {
        return Ok(None);
    }
    Ok(Some(copied(alloc, columns)?))
}

// Whether these may be the dynamic columns.
fn are_columns(shape: &Shape, columns: &[Text]) -> bool
    ensures { result ≡ are_columns shape.now columns.now }
{
    ascend(columns) && all_columns(shape, columns)
}

fn all_columns(shape: &Shape, columns: &[Text]) -> bool
    ensures { result ≡ list_all (λ column. is_some shape.now.spot && is_column_label column shape.now.constants) columns.now }
{
    columns.iter().all(|column| is_column(shape, column))
}

fn is_column(shape: &Shape, column: &Text) -> bool
    ensures { result ≡ (is_some shape.now.spot && is_column_label column.now shape.now.constants) }
{
    shape.spot.is_some() && column_label_legal(column, &shape.constants)
}

// Whether each text is less than those behind it.
fn ascend(texts: &[Text]) -> bool
    ensures { result ≡ ascends text_cmp texts.now }
{
    for place in 1..texts.len() {
        if !texts[place - 1].cmp(&texts[place]).is_lt() {
            return false;
        }
    }
    true
}

// The texts of a record from the place of the dynamic columns on.
fn behind_spot<'a>(shape: &Shape, row: &'a Row) -> &'a [Text]
    ensures { result.now ≡ behind_spot shape.now row.now }
{
    let texts = row.cells();
    &texts[spot_of(shape).min(texts.len())..]
}

fn before_spot<'a>(shape: &Shape, row: &'a Row) -> &'a [Text]
    ensures { result.now ≡ before_spot shape.now row.now }
{
    let texts = row.cells();
    &texts[..spot_of(shape).min(texts.len())]
}

// How many constant columns stand before the dynamic columns, of which there are none without a variable column.
fn spot_of(shape: &Shape) -> usize
    ensures { result ≡ unwrap_or shape.now.spot (length shape.now.constants) }
{
    shape.spot.unwrap_or(shape.constants.cells().len())
}

// How many texts of a record are not of constant columns.
fn dynamic_count(shape: &Shape, row: &Row) -> usize
    ensures { result ≡ dynamic_count shape.now row.now }
{
    row.cells()
        .len()
        .saturating_sub(shape.constants.cells().len())
}

// The dynamic columns' part of a record.
fn dynamic_part<'a>(shape: &Shape, row: &'a Row) -> &'a [Text]
    ensures { result.now ≡ dynamic_part shape.now row.now }
{
    let behind = behind_spot(shape, row);
    &behind[..dynamic_count(shape, row).min(behind.len())]
}

// The constant columns' part of a record.
fn constant_part(alloc: Global, shape: &Shape, row: &Row) -> Result<Row, NoMemory>
    ensures { IfOk result (λ part. part ≡ constant_part shape.now row.now) }
{
    let behind = behind_spot(shape, row);
    let mut texts = copied(alloc, before_spot(shape, row))?;
    for text in &behind[dynamic_count(shape, row).min(behind.len())..] {
        texts.push(text.copy()?)?;
    }
    Ok(Row::of(texts))
}

fn copied(alloc: Global, texts: &[Text]) -> Result<Vec<Text>, NoMemory>
    ensures { IfOk result (λ copies. copies.items ≡ texts.now) }
{
    let mut copies = Vec::with_capacity(alloc, texts.len())?;
    for text in texts {
        copies.push(text.copy()?)?;
    }
    Ok(copies)
}
