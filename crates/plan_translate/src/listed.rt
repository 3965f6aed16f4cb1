//! The flat rows of each declaration that pass its tests, all at once.
ghost use Rattle.std.specs.Prelude.{◌≡◌, ◌≤◌, ◌∷◌, length, IfOk};
ghost use Rattle.schema_delta.specs.Flat.{flat};
ghost use Rattle.plan_translate.specs.ChainFills.{rows_in};
ghost use Rattle.plan_translate.specs.Parts.{own_tests};
ghost use Rattle.plan_translate.specs.Listed.{rows_passing, own_listed};

use plan_form::{Equal, passes};
use schema_delta::{FlatSpec, flat_rows};
use schema_model::Catalogue;
use ss_text::{NoMemory, Row};
use std::alloc::Global;

// Lets those go that do not pass.
fn keep_passing(tests: &[Equal], rows: &mut Vec<Row>)
    ensures { rows.new.items ≡ rows_passing tests.now rows.old.items }
{
    rows.retain(|row| passes(tests, row));
}

/// A declaration's flat rows that pass its tests.
pub(crate) fn own_rows(
    alloc: Global,
    catalogue: &Catalogue,
    spec: &FlatSpec,
    tests: &[Equal],
) -> Result<Vec<Row>, NoMemory>
    ensures { IfOk result (λ rows. rows.items ≡ rows_passing tests.now (flat catalogue.now.databases spec.now)) }
{
    let mut rows = flat_rows(alloc, catalogue, spec)?;
    keep_passing(tests, &mut rows);
    Ok(rows)
}

// Those of each declaration.
fn each_own(
    alloc: Global,
    catalogue: &Catalogue,
    specs: &[FlatSpec],
    tests: &[Vec<Equal>],
) -> Result<Vec<Vec<Row>>, NoMemory>
    requires { length specs.now ≡ length tests.now }
    ensures { IfOk result (λ all. rows_in all.items ≡ own_listed catalogue.now.databases specs.now (own_tests tests.now)) }
{
    let mut all = Vec::with_capacity(alloc, specs.len())?;
    for spec in specs {
        let tests = &tests[all.len()];
        all.push(own_rows(alloc, catalogue, spec, tests)?)?;
    }
    Ok(all)
}

/// The flat rows of the first declaration that pass its tests, and those of each other one.
pub(crate) fn listed(
    alloc: Global,
    catalogue: &Catalogue,
    specs: &[FlatSpec],
    tests: &[Vec<Equal>],
) -> Result<(Vec<Row>, Vec<Vec<Row>>), NoMemory>
    requires each { length specs.now ≡ length tests.now }
    requires some { 1 ≤ length specs.now }
    ensures { IfOk result (λ r. r.0.items ∷ rows_in r.1.items ≡ own_listed catalogue.now.databases specs.now (own_tests tests.now)) }
{
    let mut further = each_own(alloc, catalogue, specs, tests)?;
    let first = further.remove(0);
    Ok((first, further))
}
