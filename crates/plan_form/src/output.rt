//! The fact that a full row gives.
ghost use Rattle.std.specs.Prelude.{◌≡◌, ◌&&◌, ◌∷◌, ◌++◌, map, option_map, option_copied, option_to_list, Some, None, is_some, IfOk, OnOk, if◌then◌else◌};
ghost use Rattle.view_def.specs.Query.{Query, query_of};
ghost use Rattle.view_def.specs.Terms.{terms_of_filter};
ghost use Rattle.flow_law.specs.FactRows.{cell_texts, fact_row};
ghost use Rattle.view_meaning.specs.Terms.{are_defined};
ghost use Rattle.view_meaning.specs.Valuations.{meets};
ghost use Rattle.view_meaning.specs.Meaning.{given, term_of};
ghost use Rattle.plan_law.specs.PlanRows.{plan_header};
ghost use Rattle.plan_form.specs.Cells.{text_in};
ghost use Rattle.plan_form.specs.Tests.{at_row, cell_term, cell_for, condition_in};
ghost use Rattle.plan_form.specs.Forms.{cell_at, counts_at, fact_at, fact_row_at, counted_fact, IsOutputOf};

use crate::cell::{Cell, text_in};
use crate::copies::term_of;
use crate::test::{Test, cell_for, placed_filter, truth};
use ss_text::{NoMemory, Row, Text};
use std::alloc::Global;
use view_def::{Place, Range, Term, View};

/// The cells of a full row that make its fact: the table label, the values of the constant columns, and where the view has
/// a variable column its label and value; and the condition under which the row counts.
#[derive(Debug, Drop)]
pub struct Output {
    pub label: Cell,
    pub keys: Vec<Cell>,
    pub column: Option<Cell>,
    pub value: Option<Cell>,
    pub filter: Option<Test>,
}

fn cell_of_place(
    alloc: Global,
    decls: &[Range],
    header: &[Term],
    place: &Place,
) -> Result<Cell, NoMemory>
    ensures { IfOk result (λ c. c ≡ cell_for decls.now header.now (term_of place.now)) }
{
    let term = term_of(place)?;
    let cell = cell_for(alloc, decls, header, &term)?;
    Ok(cell)
}

fn cells_of(
    alloc: Global,
    decls: &[Range],
    header: &[Term],
    terms: &[Term],
) -> Result<Vec<Cell>, NoMemory>
    ensures { IfOk result (λ cs. cs.items ≡ map (cell_for decls.now header.now) terms.now) }
{
    let mut cells = Vec::with_capacity(alloc, terms.len())?;
    for term in terms {
        let cell = cell_for(alloc, decls, header, term)?;
        cells.push(cell)?;
    }
    Ok(cells)
}

fn column_of(
    alloc: Global,
    decls: &[Range],
    header: &[Term],
    column: &Option<Place>,
) -> Result<Option<Cell>, NoMemory>
    ensures { IfOk result (λ c. c ≡ option_map (λ p. cell_for decls.now header.now (term_of p)) column.now) }
{
    match column {
        None => Ok(None),
        Some(place) => Ok(Some(cell_of_place(alloc, decls, header, place)?)),
    }
}

fn value_of(
    alloc: Global,
    decls: &[Range],
    header: &[Term],
    value: &Option<Term>,
) -> Result<Option<Cell>, NoMemory>
    ensures { IfOk result (λ c. c ≡ option_map (cell_for decls.now header.now) value.now) }
{
    match value {
        None => Ok(None),
        Some(term) => Ok(Some(cell_for(alloc, decls, header, term)?)),
    }
}

/// The cells of a view's terms in its full rows.
pub(crate) fn output_of(alloc: Global, view: &View, header: &[Term]) -> Result<Output, NoMemory>
    requires { header.now ≡ plan_header (query_of view.now) }
    ensures { IfOk result (IsOutputOf (query_of view.now)) }
{
    let label = cell_of_place(alloc, &view.decls, header, &view.label)?;
    let keys = cells_of(alloc, &view.decls, header, &view.keys)?;
    let column = column_of(alloc, &view.decls, header, &view.column)?;
    let value = value_of(alloc, &view.decls, header, &view.value)?;
    let filter = placed_filter(alloc, &view.decls, header, &view.filter)?;
    Ok(Output {
        label,
        keys,
        column,
        value,
        filter,
    })
}

// Whether the condition is true of a row that has all its cells. No condition is true.
fn holds(row: &Row, filter: &Option<Test>) -> bool
    ensures { let filter = option_map condition_in filter.now in
        result ≡ (are_defined (at_row row.now) (terms_of_filter filter) && meets (at_row row.now) filter) }
{
    match filter {
        None => true,
        Some(test) => truth(row, test).unwrap_or(false),
    }
}

fn is_there(row: &Row, cell: &Cell) -> bool
    ensures { result ≡ is_some (at_row row.now (cell_term cell.now)) }
{
    text_in(row, cell).is_some()
}

fn are_there(row: &Row, cells: &[Cell]) -> bool
    ensures { result ≡ are_defined (at_row row.now) (map cell_term cells.now) }
{
    for cell in cells {
        if !is_there(row, cell) {
            return false;
        }
    }
    true
}

fn is_value_there(row: &Row, value: &Option<Cell>) -> bool
    ensures { result ≡ are_defined (at_row row.now) (option_to_list (option_map cell_term value.now)) }
{
    match value {
        None => true,
        Some(cell) => is_there(row, cell),
    }
}

fn counts(output: &Output, row: &Row) -> bool
    ensures { result ≡ counts_at output.now row.now }
{
    holds(row, &output.filter) && is_value_there(row, &output.value) && are_there(row, &output.keys)
}

// The text of a cell, empty where there is none.
fn copy_given(alloc: Global, row: &Row, cell: &Cell) -> Result<Text, NoMemory>
    ensures { IfOk result (λ t. t ≡ given (text_in row.now cell.now)) }
{
    match text_in(row, cell) {
        None => Ok(Text::empty(alloc)),
        Some(text) => Ok(text.copy()?),
    }
}

fn push_keys(
    alloc: Global,
    row: &Row,
    cells: &[Cell],
    texts: &mut Vec<Text>,
) -> Result<(), NoMemory>
    ensures { OnOk result (texts.new.items ≡ texts.old.items ++ map (λ c. given (text_in row.now c)) cells.now) }
{
    for cell in cells {
        let text = copy_given(alloc, row, cell)?;
        texts.push(text)?;
    }
    Ok(())
}

fn push_cell(
    alloc: Global,
    row: &Row,
    column: &Option<Cell>,
    value: &Option<Cell>,
    texts: &mut Vec<Text>,
) -> Result<(), NoMemory>
    ensures { OnOk result (texts.new.items ≡ texts.old.items ++ cell_texts (cell_at row.now column.now value.now)) }
{
    match column {
        None => Ok(()),
        Some(column) => match value {
            None => Ok(()),
            Some(value) => {
                let column = copy_given(alloc, row, column)?;
                texts.push(column)?;
                let value = copy_given(alloc, row, value)?;
                texts.push(value)?;
                Ok(())
            }
        },
    }
}

// The fact of a row, as a row.
fn fact_of(alloc: Global, output: &Output, row: &Row) -> Result<Row, NoMemory>
    ensures { IfOk result (λ r. r ≡ fact_row (fact_at output.now row.now)) }
{
    let label = copy_given(alloc, row, &output.label)?;
    let mut texts = vec![in alloc; label]?;
    push_keys(alloc, row, &output.keys, &mut texts)?;
    push_cell(alloc, row, &output.column, &output.value, &mut texts)?;
    Ok(Row::of(texts))
}

// The fact of a row, as a row, where the row counts.
fn fact_in(alloc: Global, output: &Output, row: &Row) -> Result<Option<Row>, NoMemory>
    ensures { IfOk result (λ fact. fact ≡ fact_row_at output.now row.now) }
{
    if !counts(output, row) {
        return Ok(None);
    }
    let fact = fact_of(alloc, output, row)?;
    Ok(Some(fact))
}

/// The fact of a full row of a view's plan, as a row, where the row counts: the condition is true, and all terms have a
/// text.
pub fn fact_row(alloc: Global, output: &Output, row: &Row) -> Result<Option<Row>, NoMemory>
    ensures { (q : Query) → IsOutputOf q output.now → IfOk result (λ fact. fact ≡ counted_fact q row.now) }
{
    let fact = fact_in(alloc, output, row)?;
    Ok(fact)
}
