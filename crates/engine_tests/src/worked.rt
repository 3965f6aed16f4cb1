//! Changes of sessions, and what they answer.
ghost use Rattle.std.specs.Prelude.{◌≡◌, ◌<◌, None, IfOk, IsTrue};
ghost use Rattle.schema_model.specs.Changes.{is_well_formed};
ghost use Rattle.view_def.specs.Query.{query_of};
ghost use Rattle.view_def.specs.Profile.{IsViewOfProfile};

use crate::building::{boxed, change, make, make_all, opened};
use change_script::{Script, script_lines};
use schema_model::{Catalogue, Change, ChangeFault};
use ss_text::{NoMemory, Row, Steps, Text};
use std::alloc::Global;
use std::marker::Brand;
use std::sync::ledger::{Blank, Ledger};
use std::test::Fail;
use view_def::View;
use view_session::{Refused, Session};

// A view, the changes before it is opened, how many rows with 8 and another number come behind them, and changes with
// the lines of their scripts, parted by commas, or with why they are refused.
struct Worked {
    view: &'static str,
    before: &'static [&'static str],
    more: u16,
    steps: &'static [(&'static str, &'static str)],
}

const WORKED: [Worked; 2] = [
    // A self-join over many rows that no other row meets.
    Worked {
        view: "create view J::p(a, c) as select R.a, S.b from d::r R, d::r S where R.b = S.a",
        before: &[
            "create-database d",
            "create-relation d r a b",
            "insert d r 2 3",
            "insert d r 2 4",
        ],
        more: 3000,
        steps: &[
            ("insert d r 7 2", "row+ p 7 3,row+ p 7 4"),
            ("insert d r 1 7", "row+ p 1 2"),
            ("delete d r 2 3", "row- p 7 3"),
            ("delete d r 2 3", "refused"),
            ("rename-attribute d r b c", "row- p 1 2,row- p 7 4"),
            ("rename-attribute d r c b", "row+ p 1 2,row+ p 7 4"),
        ],
    },
    // Values that become columns. What is refused changes nothing.
    Worked {
        view: "create view AtoB::salInfo(category, D) as select A.category, A.salFloor from univ-A::salInfo A, A.dept D",
        before: &[
            "create-database univ-A",
            "create-relation univ-A salInfo category dept salFloor",
            "insert univ-A salInfo Prof cs 72000",
            "insert univ-A salInfo Prof math 65000",
            "insert univ-A salInfo Assoc cs 60000",
        ],
        more: 0,
        steps: &[
            ("insert univ-A salInfo Prof cs 99", "conflict"),
            (
                "insert univ-A salInfo Prof physics 70000",
                "column+ salInfo physics,cell salInfo physics 70000 Prof",
            ),
            ("insert univ-A salInfo Prof category 1", "illegal-label"),
            (
                "delete univ-A salInfo Prof math 65000",
                "column- salInfo math",
            ),
            ("insert univ-A salInfo Prof", "refused"),
            (
                "delete univ-A salInfo Prof cs 72000",
                "cell salInfo cs  Prof",
            ),
            (
                "insert univ-A salInfo Prof cs 99",
                "cell salInfo cs 99 Prof",
            ),
        ],
    },
];

// The insert of a row with 8 and a number of four digits.
fn numbered(alloc: Global, number: u16) -> Result<Change, NoMemory>
    ensures { IfOk result (λ change. IsTrue (is_well_formed change)) }
{
    let digits = [
        b'0' + (number / 1000 % 10) as u8,
        b'0' + (number / 100 % 10) as u8,
        b'0' + (number / 10 % 10) as u8,
        b'0' + (number % 10) as u8,
    ];
    let mut cells = Vec::new(alloc);
    cells.push(Text::of(alloc, b"8")?)?;
    cells.push(Text::of(alloc, &digits)?)?;
    Ok(Change::Insert {
        db: Text::of(alloc, b"d")?,
        rel: Text::of(alloc, b"r")?,
        row: Row::of(cells),
    })
}

// Puts so many such rows last.
fn put_numbered(alloc: Global, catalogue: &mut Catalogue, more: u16) -> Result<(), NoMemory> {
    for number in 0..more {
        let change = numbered(alloc, number)?;
        let made = make(catalogue, &change);
        drop(change);
        made?;
    }
    Ok(())
}

// Makes the changes before, and puts the numbered rows.
fn fill(alloc: Global, catalogue: &mut Catalogue, worked: &Worked) -> Result<(), ChangeFault> {
    make_all(alloc, catalogue, worked.before)?;
    put_numbered(alloc, catalogue, worked.more)?;
    Ok(())
}

// Puts a row last, its cells parted by spaces, and behind a comma where there are others.
fn put_row(bytes: &mut Vec<u8>, row: &Row) -> Result<(), NoMemory> {
    if !bytes.is_empty() {
        bytes.push(b',')?;
    }
    for (at, cell) in row.cells().iter().enumerate() {
        if at > 0 {
            bytes.push(b' ')?;
        }
        bytes.extend_from_slice(cell.as_slice())?;
    }
    Ok(())
}

/// The lines of a script as text, their fields parted by spaces and the lines by commas.
pub fn script_text(alloc: Global, script: &Script) -> Result<Text, NoMemory> {
    let rows = script_lines(alloc, script)?;
    let mut bytes = Vec::new(alloc);
    for row in &rows {
        put_row(&mut bytes, row)?;
    }
    Text::of_vec(bytes)
}

// What a change answers.
fn answer<L: Ledger>(
    alloc: Global,
    session: &mut Session,
    change: &Change,
    steps: &mut Steps<L>,
) -> Result<Text, NoMemory>
    requires well_formed { IsTrue (is_well_formed change.now) }
    requires idle { (session.old.held ≡ None) × (session.old.proposed ≡ None) }
    ensures { (session.new.held ≡ None) × (session.new.proposed ≡ None) }
{
    match session.apply(alloc, change, steps) {
        Ok(script) => script_text(alloc, &script),
        Err(Refused::Change(_)) => Text::of(alloc, b"refused"),
        Err(Refused::Illegal(_)) => Text::of(alloc, b"illegal-label"),
        Err(Refused::Conflict(_)) => Text::of(alloc, b"conflict"),
        Err(Refused::NoMemory) => Err(NoMemory),
    }
}

// Whether the change that a line says answers this.
fn answers<L: Ledger>(
    alloc: Global,
    session: &mut Session,
    line: &str,
    told: &str,
    steps: &mut Steps<L>,
) -> Result<bool, ChangeFault>
    requires { (session.old.held ≡ None) × (session.old.proposed ≡ None) }
    ensures { (session.new.held ≡ None) × (session.new.proposed ≡ None) }
{
    let change = change(alloc, line)?;
    let answer = answer(alloc, session, &change, steps);
    drop(change);
    Ok(answer?.as_slice() == told.as_bytes())
}

// The first line that answers something else.
fn first_other<L: Ledger>(
    alloc: Global,
    session: &mut Session,
    worked: &[(&'static str, &'static str)],
    steps: &mut Steps<L>,
) -> Result<Option<&'static str>, ChangeFault>
    requires { (session.old.held ≡ None) × (session.old.proposed ≡ None) }
{
    for (line, told) in worked {
        if !answers(alloc, session, line, told, steps)? {
            return Ok(Some(line));
        }
    }
    Ok(None)
}

// That of a session over a catalogue.
fn first_over<L: Ledger>(
    alloc: Global,
    catalogue: &Catalogue,
    view: Box<View>,
    worked: &Worked,
    blank: Blank,
) -> Result<Option<&'static str>, ChangeFault>
    requires profile { IsViewOfProfile (query_of view.value) }
    requires name { blank.name ≡ L.name }
    requires parts { blank.parts ≡ L.parts }
    requires some { 0 < L.parts }
{
    let mut steps = Steps::<L>::of(blank);
    let Some(mut session) = opened(alloc, catalogue, view, &mut steps)? else {
        return Ok(Some("the view"));
    };
    let other = first_other(alloc, &mut session, worked.steps, &mut steps);
    drop(session);
    other
}

// And over the catalogue before, which is put into one that has nothing.
fn first_filled(
    alloc: Global,
    catalogue: &mut Catalogue,
    worked: &Worked,
) -> Result<Option<&'static str>, Fail> {
    fill(alloc, catalogue, worked)?;
    let view = boxed(alloc, worked.view)?;
    let other = first_over::<Brand>(alloc, catalogue, view, worked, Blank::new(1))?;
    Ok(other)
}

fn first_of(alloc: Global, worked: &Worked) -> Result<Option<&'static str>, Fail> {
    let mut catalogue = Catalogue::empty(alloc);
    let other = first_filled(alloc, &mut catalogue, worked);
    drop(catalogue);
    other
}

#[test]
fn changes_are_answered(rt: HostRuntime) -> Result<(), Fail> {
    for worked in &WORKED {
        assert_eq!(rt; first_of(rt.alloc(), worked)?, None, "at {}", worked.view);
    }
    Ok(())
}
