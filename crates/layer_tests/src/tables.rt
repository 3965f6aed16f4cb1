//! Lines that fit a table or do not.
use flow_law::{TableLine, Tables};
use ss_text::{NoMemory, Row, Text};
use std::alloc::Global;
use std::test::Fail;

fn text(alloc: Global, of: &str) -> Result<Text, NoMemory> {
    Text::of(alloc, of.as_bytes())
}

fn key(alloc: Global, of: &str) -> Result<Row, NoMemory> {
    Ok(Row::of(vec![in alloc; text(alloc, of)?]?))
}

// Whether the line fitted; it is made where it does.
fn made(tables: &mut Tables, line: TableLine) -> Result<bool, NoMemory> {
    let fits = tables.fits(&line);
    let made = if fits { tables.change(&line) } else { Ok(()) };
    drop(line);
    made?;
    Ok(fits)
}

// A line of a table `pay`: `+ Prof` adds a row, `| cs` a column, `= Prof cs 5` gives a value.
fn line(alloc: Global, of: &[&str]) -> Result<TableLine, NoMemory> {
    let label = text(alloc, "pay")?;
    Ok(match of {
        ["+", row] => TableLine::RowPlus {
            label,
            key: key(alloc, row)?,
        },
        ["-", row] => TableLine::RowMinus {
            label,
            key: key(alloc, row)?,
        },
        ["|", column] => TableLine::ColumnPlus {
            label,
            column: text(alloc, column)?,
        },
        ["/", column] => TableLine::ColumnMinus {
            label,
            column: text(alloc, column)?,
        },
        ["=", row, column, value] => TableLine::Cell {
            label,
            column: text(alloc, column)?,
            value: text(alloc, value)?,
            key: key(alloc, row)?,
        },
        ["table"] => TableLine::TablePlus { label },
        _ => TableLine::TableMinus { label },
    })
}

// Lines that come one after another, and whether each fits.
const STEPS: &[(&[&str], bool)] = &[
    (&["+", "Prof"], false),
    (&["table"], true),
    (&["table"], false),
    (&["+", "Prof"], true),
    (&["|", "cs"], true),
    (&["|", "bio"], true),
    (&["+", "Assoc"], true),
    (&["+", "Assoc"], false),
    (&["=", "Prof", "cs", "72000"], true),
    (&["=", "Prof", "art", "1"], false),
    (&["/", "bio"], true),
    (&["/", "bio"], false),
    (&["-", "Lect"], false),
];

// The place of the first step that is another.
fn first_other(alloc: Global, tables: &mut Tables) -> Result<Option<usize>, NoMemory> {
    for (place, &(step, fits)) in STEPS.iter().enumerate() {
        if made(tables, line(alloc, step)?)? != fits {
            return Ok(Some(place));
        }
    }
    Ok(None)
}

#[test]
fn lines_make_a_table(rt: HostRuntime) -> Result<(), Fail> {
    let alloc = rt.alloc();
    let mut tables = Tables::new(alloc);
    let other = first_other(alloc, &mut tables);
    drop(tables);
    assert_eq!(rt; other?, None);
    Ok(())
}
