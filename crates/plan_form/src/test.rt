//! Conditions over the cells of a row.
ghost use Rattle.std.specs.Prelude.{◌≡◌, map, option_map, option_copied, IfOk};
ghost use Rattle.view_def.specs.Conditions.{AnyOf, AllOf, condition_of, conditions_of};
ghost use Rattle.view_meaning.specs.Truth.{truth, truth_of_some, truth_of_each};
ghost use Rattle.plan_form.specs.Tests.{at_row, cell_term, cell_for, condition_in, placed, each_placed};

use crate::cell::{Cell, left_cell, text_in};
use crate::source::find;
use ss_text::{NoMemory, Row, Text};
use std::alloc::Global;
use view_def::{Cond, Op, Range, Term};
use view_meaning::compares;

/// A condition over the cells of a row. `Any` of nothing is false, and `All` of nothing is true.
#[derive(Debug, Drop)]
pub enum Test {
    Any(Vec<Test>),
    All(Vec<Test>),
    Not(Box<Test>),
    Compare(Cell, Op, Cell),
}

/// Where a term of the view is found in a row under these terms.
pub(crate) fn cell_for(
    alloc: Global,
    decls: &[Range],
    header: &[Term],
    term: &Term,
) -> Result<Cell, NoMemory>
    ensures { IfOk result (λ c. c ≡ cell_for decls.now header.now term.now) }
{
    let none = Vec::new(alloc);
    let source = find(decls, header, &none, term)?;
    Ok(left_cell(source))
}

#[cycle(place)]
fn placed(
    alloc: Global,
    decls: &[Range],
    header: &[Term],
    condition: &Cond,
) -> Result<Test, NoMemory>
    ensures { IfOk result (λ t. condition_in t ≡ placed (cell_for decls.now header.now) (condition_of condition.now)) }
{
    match condition {
        Cond::Any(members) => Ok(any_of(each_placed(alloc, decls, header, members)?)),
        Cond::All(members) => Ok(all_of(each_placed(alloc, decls, header, members)?)),
        Cond::Not(negated) => {
            let negated = placed(alloc, decls, header, negated)?;
            Ok(Test::Not(Box::new(alloc, negated)?))
        }
        Cond::Compare(s, op, t) => {
            let first = cell_for(alloc, decls, header, s)?;
            let second = cell_for(alloc, decls, header, t)?;
            Ok(Test::Compare(first, *op, second))
        }
    }
}

#[cycle(place)]
fn each_placed(
    alloc: Global,
    decls: &[Range],
    header: &[Term],
    members: &[Cond],
) -> Result<Vec<Test>, NoMemory>
    ensures { IfOk result (λ ts. conditions_of (map condition_in ts.items) ≡ each_placed (cell_for decls.now header.now) (conditions_of (map condition_of members.now))) }
{
    let mut tests = Vec::new(alloc);
    for member in members {
        let test = placed(alloc, decls, header, member)?;
        tests.push(test)?;
    }
    Ok(tests)
}

fn any_of(members: Vec<Test>) -> Test
    ensures { condition_in result ≡ AnyOf (conditions_of (map condition_in members.items)) }
{
    Test::Any(members)
}

fn all_of(members: Vec<Test>) -> Test
    ensures { condition_in result ≡ AllOf (conditions_of (map condition_in members.items)) }
{
    Test::All(members)
}

/// The condition of a view over the cells of rows under these terms, where it has one.
pub(crate) fn placed_filter(
    alloc: Global,
    decls: &[Range],
    header: &[Term],
    filter: &Option<Cond>,
) -> Result<Option<Test>, NoMemory>
    ensures { IfOk result (λ t. option_map condition_in t ≡ option_map (placed (cell_for decls.now header.now)) (option_map condition_of filter.now)) }
{
    match filter {
        None => Ok(None),
        Some(condition) => {
            let test = placed(alloc, decls, header, condition)?;
            Ok(Some(test))
        }
    }
}

/// Whether a condition is true of a row, where the row has all its cells.
#[cycle(truth)]
pub(crate) fn truth(row: &Row, test: &Test) -> Option<bool>
    ensures { result ≡ truth (at_row row.now) (condition_in test.now) }
{
    match test {
        Test::Any(members) => truth_of_some(row, members),
        Test::All(members) => truth_of_each(row, members),
        Test::Not(negated) => Some(!truth(row, negated)?),
        Test::Compare(s, op, t) => {
            let s = cell_text(row, s)?;
            let t = cell_text(row, t)?;
            Some(compares(*op, s, t))
        }
    }
}

// Whether some of these is true.
#[cycle(truth)]
fn truth_of_some(row: &Row, members: &[Test]) -> Option<bool>
    ensures { result ≡ truth_of_some (at_row row.now) (conditions_of (map condition_in members.now)) }
{
    let mut found = false;
    for member in members {
        if truth(row, member)? {
            found = true;
        }
    }
    Some(found)
}

// Whether each of these is true.
#[cycle(truth)]
fn truth_of_each(row: &Row, members: &[Test]) -> Option<bool>
    ensures { result ≡ truth_of_each (at_row row.now) (conditions_of (map condition_in members.now)) }
{
    let mut kept = true;
    for member in members {
        if !truth(row, member)? {
            kept = false;
        }
    }
    Some(kept)
}

// The text of a cell, as the value of a term.
fn cell_text<'a>(row: &'a Row, cell: &'a Cell) -> Option<&'a Text>
    ensures { option_copied result ≡ at_row row.now (cell_term cell.now) }
{
    text_in(row, cell)
}
