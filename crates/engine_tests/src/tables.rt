//! Moves of facts of each form of tables.
ghost use Rattle.std.specs.Prelude.{◌≡◌, ◌<◌, [], true, IfOk, IfSome, IsTrue};
ghost use Rattle.std.specs.Option.{ForSome};
ghost use Rattle.ss_text.specs.Label.{is_table_label};
ghost use Rattle.view_engine.specs.Forms.{KeepsTables, MovesTables};

use crate::answer::{lines_text, stop_text};
use crate::facts::{moves, row, rows_after};
use flow_law::Shape;
use operator_law::Delta;
use ss_text::{NoMemory, Row, Seed, Steps, Text, table_label_legal};
use std::alloc::Global;
use std::marker::Brand;
use std::sync::ledger::{Blank, Ledger};
use std::test::Fail;
use view_engine::ViewTables;

// Moves of facts, and what becomes of them. A refusal changes nothing.
struct Step {
    moves: &'static str,
    told: &'static str,
}

// The constant label, where there is one, the constant columns, how many of them stand before the variable column,
// where there is one, and what is done with tables of this form, which begin without facts.
struct Worked {
    label: Option<&'static str>,
    constants: &'static str,
    spot: Option<usize>,
    steps: &'static [Step],
}

const WORKED: &[Worked] = &[
    // Values that become columns of one table.
    Worked {
        label: Some("salInfo"),
        constants: "category",
        spot: Some(1),
        steps: &[
            Step {
                moves: "+ salInfo Prof cs 72000,+ salInfo Prof math 65000,+ salInfo Assoc cs 60000",
                told: "column+ salInfo cs,column+ salInfo math,row+ salInfo Assoc,row+ salInfo Prof,cell salInfo cs 60000 Assoc,cell salInfo cs 72000 Prof,cell salInfo math 65000 Prof",
            },
            // A new column, and one that goes.
            Step {
                moves: "+ salInfo Prof physics 70000",
                told: "column+ salInfo physics,cell salInfo physics 70000 Prof",
            },
            Step {
                moves: "- salInfo Prof physics 70000",
                told: "column- salInfo physics",
            },
            // Another value, which is refused while the former is there.
            Step {
                moves: "+ salInfo Prof cs 99",
                told: "conflict salInfo cs 72000 99 Prof",
            },
            Step {
                moves: "- salInfo Prof cs 72000",
                told: "cell salInfo cs  Prof",
            },
            Step {
                moves: "+ salInfo Prof cs 99",
                told: "cell salInfo cs 99 Prof",
            },
            Step {
                moves: "- salInfo Prof cs 99,+ salInfo Prof cs 72000",
                told: "cell salInfo cs 72000 Prof",
            },
            // A new row with a new column, whose label is no legal one of a table, and a row that goes with it.
            Step {
                moves: "+ salInfo Lect a/b 1",
                told: "column+ salInfo a/b,row+ salInfo Lect,cell salInfo a/b 1 Lect",
            },
            Step {
                moves: "- salInfo Lect a/b 1",
                told: "row- salInfo Lect,column- salInfo a/b",
            },
            // A column label that is a constant column, before a conflict of a lesser one.
            Step {
                moves: "+ salInfo Prof category 1,+ salInfo Assoc cs 1",
                told: "illegal-label salInfo category",
            },
            // A value that is there twice stays when one goes.
            Step {
                moves: "+ salInfo Prof cs 72000",
                told: "",
            },
            Step {
                moves: "- salInfo Prof cs 72000",
                told: "",
            },
            // What comes and goes again comes to nothing.
            Step {
                moves: "+ salInfo Lect bio 5,- salInfo Lect bio 5",
                told: "",
            },
            Step {
                moves: "- salInfo Prof math 65000,+ salInfo Prof math 65000",
                told: "",
            },
            // A value with bytes that a printed line escapes.
            Step {
                moves: "+ salInfo Lect cs a\tb\nc\\d",
                told: "row+ salInfo Lect,cell salInfo cs a\tb\nc\\d Lect",
            },
            // An empty value makes a row and a column, and no cell has it.
            Step {
                moves: "+ salInfo Dean bio ",
                told: "column+ salInfo bio,row+ salInfo Dean",
            },
            Step {
                moves: "+ salInfo Dean bio 5",
                told: "cell salInfo bio 5 Dean",
            },
            Step {
                moves: "- salInfo Dean bio 5",
                told: "cell salInfo bio  Dean",
            },
            // The table of a constant label stays without facts.
            Step {
                moves: "- salInfo Dean bio ,- salInfo Lect cs a\tb\nc\\d,- salInfo Prof cs 72000,- salInfo Prof math 65000,- salInfo Assoc cs 60000",
                told: "row- salInfo Assoc,row- salInfo Dean,row- salInfo Lect,row- salInfo Prof,column- salInfo bio,column- salInfo cs,column- salInfo math",
            },
            Step {
                moves: "+ salInfo Prof cs ,+ salInfo Prof cs 5",
                told: "column+ salInfo cs,row+ salInfo Prof,cell salInfo cs 5 Prof",
            },
        ],
    },
    // Constant columns alone in one table.
    Worked {
        label: Some("p"),
        constants: "x y",
        spot: None,
        steps: &[
            Step {
                moves: "+ p 1 1",
                told: "row+ p 1 1",
            },
            Step {
                moves: "+ p 1 1",
                told: "",
            },
            Step {
                moves: "- p 1 1",
                told: "",
            },
            Step {
                moves: "- p 1 1,+ p 2 ,+ p  2",
                told: "row- p 1 1,row+ p  2,row+ p 2 ",
            },
            Step {
                moves: "+ p 3 3,- p 3 3",
                told: "",
            },
            Step {
                moves: "- p 2 ,- p  2",
                told: "row- p  2,row- p 2 ",
            },
        ],
    },
    // Values that become tables.
    Worked {
        label: None,
        constants: "category salFloor",
        spot: None,
        steps: &[
            Step {
                moves: "+ cs Prof 72000,+ math Prof 65000,+ cs Assoc 60000",
                told: "table+ cs,row+ cs Assoc 60000,row+ cs Prof 72000,table+ math,row+ math Prof 65000",
            },
            Step {
                moves: "+ a/b Lect 1",
                told: "illegal-label a/b",
            },
            Step {
                moves: "+ math Lect 1",
                told: "row+ math Lect 1",
            },
            Step {
                moves: "+ bio Lect 2",
                told: "table+ bio,row+ bio Lect 2",
            },
            Step {
                moves: "- bio Lect 2",
                told: "table- bio",
            },
            // The least of two labels that are not legal.
            Step {
                moves: "+ b/c Lect 1,+ .a Lect 1,+ bio Lect 2",
                told: "illegal-label .a",
            },
            Step {
                moves: "+ bio Lect 2,- bio Lect 2",
                told: "",
            },
            // A fact that is there twice keeps its table.
            Step {
                moves: "+ math Prof 65000,- math Lect 1",
                told: "row- math Lect 1",
            },
            Step {
                moves: "- math Prof 65000",
                told: "",
            },
            Step {
                moves: "- math Prof 65000,+ arts Prof 65000",
                told: "table+ arts,row+ arts Prof 65000,table- math",
            },
        ],
    },
    // Tables by their labels, with values that become columns.
    Worked {
        label: None,
        constants: "k",
        spot: Some(0),
        steps: &[
            Step {
                moves: "+ t 1 a 5,+ u 1 b ",
                told: "table+ t,column+ t a,row+ t 1,cell t a 5 1,table+ u,column+ u b,row+ u 1",
            },
            // A label of a table, a label of a column and a conflict, each refused before those behind it.
            Step {
                moves: "+ z/z 1 a 1,+ t 1 k 1,+ t 1 a 6",
                told: "illegal-label z/z",
            },
            Step {
                moves: "+ u 1 k 1,+ t 1 a 6,+ t 2  1",
                told: "illegal-label t ",
            },
            // The two least of three values, in the order of their bytes.
            Step {
                moves: "+ t 1 a 6,+ t 1 a 10",
                told: "conflict t a 10 5 1",
            },
            // The least table, then the least key, then the least column.
            Step {
                moves: "+ u 1 b 1,+ u 1 b 2,+ t 2 a 1,+ t 2 a 2,+ t 1 b 1,+ t 1 b 2,+ t 1 a ",
                told: "conflict t b 1 2 1",
            },
            Step {
                moves: "+ t 2 a 6",
                told: "row+ t 2,cell t a 6 2",
            },
            Step {
                moves: "+ u 1 b 7",
                told: "cell u b 7 1",
            },
            // Facts go from one table to another.
            Step {
                moves: "- t 2 a 6,+ u 2 a 6",
                told: "row- t 2,column+ u a,row+ u 2,cell u a 6 2",
            },
            Step {
                moves: "- t 1 a 5",
                told: "table- t",
            },
            Step {
                moves: "- u 1 b 7,- u 2 a 6",
                told: "row- u 2,column- u a,cell u b  1",
            },
            Step {
                moves: "- u 1 b ",
                told: "table- u",
            },
        ],
    },
];

// A form of tables.
fn shape_of(alloc: Global, worked: &Worked) -> Result<Shape, NoMemory> {
    let constants = row(alloc, worked.constants)?;
    let label = match worked.label {
        Some(label) => Some(Text::of(alloc, label.as_bytes())?),
        None => None,
    };
    Ok(Shape {
        label,
        constants,
        spot: worked.spot,
    })
}

fn copy_of(shape: &Shape) -> Result<Shape, NoMemory>
    ensures { IfOk result (λ copy. copy ≡ shape.now) }
{
    let constants = shape.constants.copy()?;
    let label = match &shape.label {
        Some(label) => Some(label.copy()?),
        None => None,
    };
    Ok(Shape {
        label,
        constants,
        spot: shape.spot,
    })
}

// Whether the constant label is legal, where there is one.
fn is_legal(label: &Option<Text>) -> bool
    ensures { IsTrue result → ForSome label.now (λ label. is_table_label label ≡ true) }
{
    match label {
        Some(label) => table_label_legal(label),
        None => true,
    }
}

// Tables of this form without facts, if its label is legal.
fn open(alloc: Global, shape: &Shape) -> Result<Option<ViewTables>, NoMemory>
    ensures { IfOk result (λ told. IfSome told (λ tables. KeepsTables shape.now tables [])) }
{
    if !is_legal(&shape.label) {
        return Ok(None);
    }
    let copy = copy_of(shape)?;
    let tables = ViewTables::new(alloc, Seed::of(3), copy, 0)?;
    Ok(Some(tables))
}

// Moves the tables and the facts that they keep to those after the moves, if these are not refused, and answers what
// becomes of the moves.
fn moved<L: Ledger>(
    alloc: Global,
    shape: &Shape,
    tables: &mut ViewTables,
    rows: &mut Vec<Row>,
    moves: &Delta,
    after: Vec<Row>,
    steps: &mut Steps<L>,
) -> Result<Text, NoMemory>
    requires { MovesTables shape.now tables.old moves.now rows.old.items after.items }
    ensures { KeepsTables shape.now tables.new rows.new.items }
{
    match tables.prepare(alloc, moves, steps) {
        Ok(lines) => {
            let told = lines_text(alloc, lines);
            let ready = tables.reserve(alloc, moves)?;
            tables.commit(ready);
            *rows = after;
            told
        }
        Err(stop) => stop_text(alloc, stop),
    }
}

// Whether this becomes of moves.
fn is_told<L: Ledger>(
    alloc: Global,
    shape: &Shape,
    tables: &mut ViewTables,
    rows: &mut Vec<Row>,
    step: &Step,
    steps: &mut Steps<L>,
) -> Result<bool, NoMemory>
    requires { KeepsTables shape.now tables.old rows.old.items }
    ensures { KeepsTables shape.now tables.new rows.new.items }
{
    let moves = moves(alloc, step.moves)?;
    let Some(after) = rows_after(alloc, shape, rows, &moves.moves)? else {
        return Ok(false);
    };
    let told = moved(alloc, shape, tables, rows, &moves, after, steps);
    drop(moves);
    let told = told?;
    Ok(told.as_slice() == step.told.as_bytes())
}

// The moves of the first step of which something else becomes.
fn first_other<L: Ledger>(
    alloc: Global,
    shape: &Shape,
    tables: &mut ViewTables,
    rows: &mut Vec<Row>,
    worked: &[Step],
    steps: &mut Steps<L>,
) -> Result<Option<&'static str>, NoMemory>
    requires { KeepsTables shape.now tables.old rows.old.items }
{
    for step in worked {
        if !is_told(alloc, shape, tables, rows, step, steps)? {
            return Ok(Some(step.moves));
        }
    }
    Ok(None)
}

// The same of tables without facts.
fn first_of<L: Ledger>(
    alloc: Global,
    shape: &Shape,
    tables: &mut ViewTables,
    worked: &[Step],
    blank: Blank,
) -> Result<Option<&'static str>, NoMemory>
    requires name { blank.name ≡ L.name }
    requires parts { blank.parts ≡ L.parts }
    requires some { 0 < L.parts }
    requires keeps { KeepsTables shape.now tables.old [] }
{
    let mut steps = Steps::<L>::of(blank);
    let mut rows = Vec::new(alloc);
    let other = first_other(alloc, shape, tables, &mut rows, worked, &mut steps);
    drop(rows);
    other
}

// And of tables of this form, which are refused where their label is not legal.
fn first_in(
    alloc: Global,
    shape: &Shape,
    worked: &[Step],
) -> Result<Option<&'static str>, NoMemory> {
    let Some(mut tables) = open(alloc, shape)? else {
        return Ok(Some("the label"));
    };
    let other = first_of::<Brand>(alloc, shape, &mut tables, worked, Blank::new(1));
    drop(tables);
    other
}

fn first_unlike(alloc: Global, worked: &Worked) -> Result<Option<&'static str>, NoMemory> {
    let shape = shape_of(alloc, worked)?;
    let other = first_in(alloc, &shape, worked.steps);
    drop(shape);
    other
}

#[test]
fn facts_move_tables(rt: HostRuntime) -> Result<(), Fail> {
    for worked in WORKED {
        assert_eq!(rt; first_unlike(rt.alloc(), worked)?, None);
    }
    Ok(())
}
