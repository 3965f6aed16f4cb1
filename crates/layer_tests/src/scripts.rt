//! Scripts of worked examples.
use change_script::{
    ApplyFault, Script, ScriptFault, ScriptLine, apply_line, read_script_line, script_lines,
};
use flow_law::{Shape, TableLine, Tables};
use ss_text::{NoMemory, Row, Text};
use std::alloc::Global;
use std::test::Fail;

// Salaries by departments as columns; the lines of tables are parted by commas.
const SALARIES: &str =
    "table+ salInfo,column+ salInfo cs,column+ salInfo math,row+ salInfo Assoc,row+ salInfo Prof,cell salInfo cs 60000 Assoc,cell salInfo cs 72000 Prof,cell salInfo math 65000 Prof";

// The same by departments as tables.
const OFFICES: &str =
    "table+ cs,row+ cs Assoc 60000,row+ cs Prof 72000,table+ math,row+ math Prof 65000";

const ONE_CELL: &str = "table+ salInfo,column+ salInfo cs,row+ salInfo Prof,cell salInfo cs 5 Prof";

const NEW_TABLE: &str = "table+ bio,row+ bio Lect 2";

fn text(alloc: Global, of: &str) -> Result<Text, NoMemory> {
    Text::of(alloc, of.as_bytes())
}

fn row(alloc: Global, of: &[&str]) -> Result<Row, NoMemory> {
    let mut texts = Vec::new(alloc);
    for cell in of {
        texts.push(text(alloc, cell)?)?;
    }
    Ok(Row::of(texts))
}

// The line that is printed as this row.
fn line(alloc: Global, of: &[&str]) -> Result<Option<TableLine>, NoMemory> {
    Ok(match of {
        ["table-", label] => Some(TableLine::TableMinus {
            label: text(alloc, label)?,
        }),
        ["table+", label] => Some(TableLine::TablePlus {
            label: text(alloc, label)?,
        }),
        ["row-", label, key @ ..] => Some(TableLine::RowMinus {
            label: text(alloc, label)?,
            key: row(alloc, key)?,
        }),
        ["column-", label, column] => Some(TableLine::ColumnMinus {
            label: text(alloc, label)?,
            column: text(alloc, column)?,
        }),
        ["column+", label, column] => Some(TableLine::ColumnPlus {
            label: text(alloc, label)?,
            column: text(alloc, column)?,
        }),
        ["row+", label, key @ ..] => Some(TableLine::RowPlus {
            label: text(alloc, label)?,
            key: row(alloc, key)?,
        }),
        ["cell", label, column, value, key @ ..] => Some(TableLine::Cell {
            label: text(alloc, label)?,
            column: text(alloc, column)?,
            value: text(alloc, value)?,
            key: row(alloc, key)?,
        }),
        _ => None,
    })
}

fn words<'a>(alloc: Global, of: &'a str) -> Result<Vec<&'a str>, NoMemory> {
    let mut words = Vec::new(alloc);
    for word in of.split(' ') {
        words.push(word)?;
    }
    Ok(words)
}

// Makes the step of a line that fits.
fn make(alloc: Global, tables: &mut Tables, of: &str) -> Result<(), NoMemory> {
    let Some(line) = line(alloc, &words(alloc, of)?)? else {
        return Ok(());
    };
    let made = if tables.fits(&line) {
        tables.change(&line)
    } else {
        Ok(())
    };
    drop(line);
    made
}

// What lines make of no tables.
fn made(alloc: Global, before: &str, then: &str) -> Result<Tables, NoMemory> {
    let mut tables = Tables::new(alloc);
    for of in before.split(',') {
        make(alloc, &mut tables, of)?;
    }
    for of in then.split(',') {
        make(alloc, &mut tables, of)?;
    }
    Ok(tables)
}

fn rows(alloc: Global, lines: &str) -> Result<Vec<Row>, NoMemory> {
    let mut rows = Vec::new(alloc);
    for of in lines.split(',') {
        if !of.is_empty() {
            rows.push(row(alloc, &words(alloc, of)?)?)?;
        }
    }
    Ok(rows)
}

// The printed script of two values of tables.
fn printed(alloc: Global, old: &Tables, new: &Tables) -> Result<Vec<Row>, NoMemory> {
    let script = Script::between(alloc, old, new)?;
    script_lines(alloc, &script)
}

// That of tables and of those that further lines make of them.
fn found(alloc: Global, before: &str, then: &str) -> Result<Vec<Row>, NoMemory> {
    let old = made(alloc, before, "")?;
    let new = made(alloc, before, then)?;
    let rows = printed(alloc, &old, &new);
    drop(new);
    drop(old);
    rows
}

// Whether the script of tables and of those that its lines make of them has these lines.
fn is_found(alloc: Global, before: &str, script: &str) -> Result<bool, NoMemory> {
    let found = found(alloc, before, script)?;
    let wanted = rows(alloc, script)?;
    Ok(found == wanted)
}

#[test]
fn scripts_of_worked_rows(rt: HostRuntime) -> Result<(), Fail> {
    let alloc = rt.alloc();
    for (before, script) in [
        (SALARIES, ""),
        ("", NEW_TABLE),
        (NEW_TABLE, "table- bio"),
        (ONE_CELL, "cell salInfo cs  Prof"),
        (OFFICES, "table- math"),
        (OFFICES, "row+ math Lect 1"),
        (SALARIES, "cell salInfo cs 99 Prof"),
        (SALARIES, "column- salInfo math"),
        (
            SALARIES,
            "column+ salInfo physics,cell salInfo physics 70000 Prof",
        ),
        (
            SALARIES,
            "column+ salInfo a/b,row+ salInfo Lect,cell salInfo a/b 1 Lect",
        ),
        (
            SALARIES,
            "row- salInfo Assoc,row- salInfo Prof,column- salInfo cs,column- salInfo math",
        ),
    ] {
        assert!(rt; is_found(alloc, before, script)?, "at {script}");
    }
    Ok(())
}

// Tables of the salaries, with one constant column.
fn salaries(alloc: Global) -> Result<Shape, NoMemory> {
    Ok(Shape {
        label: Some(text(alloc, "salInfo")?),
        constants: row(alloc, &["category"])?,
        spot: Some(1),
    })
}

// What becomes of a line.
fn outcome(
    alloc: Global,
    tables: &mut Tables,
    shape: &Shape,
    of: &str,
) -> Result<&'static str, NoMemory> {
    let line = match read_script_line(alloc, &row(alloc, &words(alloc, of)?)?) {
        Ok(ScriptLine::Change(line)) => line,
        Ok(ScriptLine::Passed) => return Ok("passed"),
        Err(ScriptFault::UnknownVerb) => return Ok("unknown-verb"),
        Err(ScriptFault::FieldCount { .. }) => return Ok("field-count"),
        Err(ScriptFault::NoMemory) => return Err(NoMemory),
    };
    let applied = apply_line(tables, shape, &line);
    drop(line);
    match applied {
        Ok(()) => Ok("applied"),
        Err(ApplyFault::KeyLength { .. }) => Ok("key-length"),
        Err(ApplyFault::Illegal(_)) => Ok("illegal-label"),
        Err(ApplyFault::NoTarget) => Ok("no-target"),
        Err(ApplyFault::TargetThere) => Ok("target-there"),
        Err(ApplyFault::NoMemory) => Err(NoMemory),
    }
}

// The lines that are handed in one after another, and what becomes of each.
const LINES: &[(&str, &str)] = &[
    ("done 3", "passed"),
    ("aborted", "passed"),
    ("sync", "unknown-verb"),
    ("cell salInfo cs 70", "field-count"),
    ("row+ salInfo Lect x", "key-length"),
    ("row+ none Lect x", "key-length"),
    ("table+ .a", "illegal-label"),
    ("column+ none category", "illegal-label"),
    ("table- none", "no-target"),
    ("cell salInfo art 5 Prof", "no-target"),
    ("table+ salInfo", "target-there"),
    ("row+ salInfo Prof", "target-there"),
    ("column+ salInfo art", "applied"),
    ("cell salInfo art 5 Prof", "applied"),
    ("column- salInfo cs", "applied"),
];

// The first line of which something else becomes.
fn first_other(
    alloc: Global,
    tables: &mut Tables,
    shape: &Shape,
) -> Result<Option<&'static str>, NoMemory> {
    for &(line, becomes) in LINES {
        if outcome(alloc, tables, shape, line)? != becomes {
            return Ok(Some(line));
        }
    }
    Ok(None)
}

#[test]
fn lines_are_read_and_applied(rt: HostRuntime) -> Result<(), Fail> {
    let alloc = rt.alloc();
    let shape = salaries(alloc)?;
    let mut tables = made(alloc, ONE_CELL, "")?;
    let other = first_other(alloc, &mut tables, &shape);
    drop(tables);
    drop(shape);
    assert_eq!(rt; other?, None);
    Ok(())
}
