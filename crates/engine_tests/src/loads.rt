//! Runs that were counted by hand.
ghost use Rattle.std.specs.Prelude.{◌≡◌, ◌<◌};

use load_run::{Size, Summary, load, view};
use ss_parser::parse;
use ss_text::{NoMemory, Steps};
use std::alloc::Global;
use std::marker::Brand;
use std::sync::ledger::{Blank, Ledger};
use std::test::Fail;
use var_typing::type_view;
use view_def::View;

const WRITTEN: &str = "create view G::t(k, D) as select T.k, T.v from g::r T, T.d D";

// Whether two views without a condition are the same.
fn are_same(view: &View, other: &View) -> bool {
    view.view_db == other.view_db
        && view.label == other.label
        && view.constants == other.constants
        && view.keys == other.keys
        && view.spot == other.spot
        && view.column == other.column
        && view.value == other.value
        && view.decls == other.decls
        && view.filter.is_none()
        && other.filter.is_none()
}

// Whether a view is the one that the text says.
fn is_written(alloc: Global, view: &View) -> Result<bool, Fail> {
    let text = parse(alloc, WRITTEN.as_bytes())?;
    let written = type_view(alloc, &text);
    drop(text);
    Ok(are_same(view, &written?))
}

#[test]
fn the_view_is_the_written_one(rt: HostRuntime) -> Result<(), Fail> {
    let alloc = rt.alloc();
    let view = view(alloc)?;
    let written = is_written(alloc, &view);
    drop(view);
    assert!(rt; written?);
    Ok(())
}

// What comes of so many changes with a seed.
fn loaded<L: Ledger>(
    alloc: Global,
    changes: u32,
    seed: u32,
    blank: Blank,
) -> Result<Summary, NoMemory>
    requires name { blank.name ≡ L.name }
    requires parts { blank.parts ≡ L.parts }
    requires some { 0 < L.parts }
{
    let mut steps = Steps::<L>::of(blank);
    load(alloc, changes, seed, &mut steps)
}

#[test]
fn twenty_changes(rt: HostRuntime) -> Result<(), Fail> {
    let summary = loaded::<Brand>(rt.alloc(), 20, 0, Blank::new(1))?;
    let table = Size {
        rows: 2,
        columns: 8,
        bytes: 69,
    };
    let wanted = Summary {
        accepted: 18,
        refused: 2,
        lines: 29,
        table,
    };
    assert_eq!(rt; summary, wanted);
    Ok(())
}
