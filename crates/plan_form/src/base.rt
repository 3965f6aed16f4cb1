//! What a plan keeps of a declaration.
ghost use Rattle.std.specs.Prelude.{◌≡◌, IfOk};
ghost use Rattle.std.specs.List.{list_all};
ghost use Rattle.view_def.specs.Query.{query_of};
ghost use Rattle.plan_law.specs.Columns.{tested_terms, header};
ghost use Rattle.plan_form.specs.Bases.{equal_holds, base_value, base_under, base_form};

use crate::cell::{Cell, text_in};
use crate::copies::copy_range;
use crate::header::header;
use crate::links::{keys, links, own_tests};
use crate::wanted::{fold_of, wanted};
use schema_delta::FlatSpec;
use ss_text::{NoMemory, Row};
use std::alloc::Global;
use view_def::{Range, Term, View};

/// A test of a row: two cells have one text, where both have one.
#[derive(Debug, Drop)]
pub struct Equal {
    pub first: Cell,
    pub second: Cell,
}

/// What a plan keeps of a declaration that is no alias: what is asked of the catalogue, the tests of a flat row alone, and
/// the places whose cells are equal where a row of the declarations before is joined with a flat row.
#[derive(Debug, Drop)]
pub struct Base {
    pub spec: FlatSpec,
    pub own: Vec<Equal>,
    pub left_key: Vec<usize>,
    pub right_key: Vec<usize>,
}

fn holds(test: &Equal, row: &Row) -> bool
    ensures { result ≡ equal_holds row.now test.now }
{
    match text_in(row, &test.first) {
        None => true,
        Some(first) => match text_in(row, &test.second) {
            None => true,
            Some(second) => first == second,
        },
    }
}

/// Whether a row passes all tests.
pub fn passes(tests: &[Equal], row: &Row) -> bool
    ensures { result ≡ list_all (equal_holds row.now) tests.now }
{
    tests.iter().all(|test| holds(test, row))
}

// What is asked of the catalogue for a declaration.
fn spec_of(range: &Range, wanted: Row, folded: bool) -> Result<FlatSpec, NoMemory>
    ensures { IfOk result (λ s. s ≡ record { range = range.now; wanted = wanted; folded = folded }) }
{
    let range = copy_range(range)?;
    Ok(FlatSpec {
        range,
        wanted,
        folded,
    })
}

// The declaration's place among the joins, by what is asked for and the terms over both rows.
fn base_under(
    alloc: Global,
    view: &View,
    left: &[Term],
    right: &[Term],
    spec: FlatSpec,
) -> Result<Base, NoMemory>
    ensures { IfOk result (λ b. base_value b ≡ base_under (query_of view.now) left.now right.now spec) }
{
    let links = links(alloc, view, left, right)?;
    let (left_key, right_key) = keys(alloc, &links)?;
    let own = own_tests(alloc, &links)?;
    Ok(Base {
        spec,
        own,
        left_key,
        right_key,
    })
}

/// What a plan keeps of a declaration behind rows under these terms, and the terms over its flat rows.
pub(crate) fn base_of(
    alloc: Global,
    view: &View,
    terms: &[Term],
    left: &[Term],
    declaration: u32,
    range: &Range,
) -> Result<(Base, Vec<Term>), NoMemory>
    requires { terms.now ≡ tested_terms (query_of view.now) }
    ensures base { IfOk result (λ r. base_value r.0 ≡ base_form (query_of view.now) left.now declaration range.now) }
    ensures header { IfOk result (λ r. r.1.items ≡ header (query_of view.now) declaration range.now) }
{
    let wanted = wanted(alloc, terms, declaration)?;
    let fold = fold_of(terms, declaration);
    let header = header(alloc, &wanted, fold, declaration, range)?;
    let spec = spec_of(range, wanted, fold.is_some())?;
    let base = base_under(alloc, view, left, &header, spec)?;
    Ok((base, header))
}
