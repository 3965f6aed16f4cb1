//! What changes of stacks answer.
ghost use Rattle.std.specs.Prelude.{◌<◌, ◌≡◌, map, IfOk, IsTrue};
ghost use Rattle.std.specs.List.{AllByRecursion};
ghost use Rattle.schema_model.specs.Changes.{is_well_formed};
ghost use Rattle.view_stack.specs.Stacks.{IsStack};

use crate::building::changes_of;
use crate::stacks::{Named, make_all, stack_over};
use apply_law::{Applies, GroupRefused};
use change_script::{Script, script_lines};
use schema_model::{Catalogue, Change};
use ss_text::{NoMemory, Row, Steps, Text};
use std::alloc::Global;
use std::marker::Brand;
use std::sync::ledger::{Blank, Ledger};
use std::test::Fail;
use view_stack::{Stack, StackRefused};

// The views of a stack, the changes before it is opened, and groups of changes with what they answer: the lines of each
// level, parted by commas and the levels by bars, or the level that refuses and why.
struct Worked {
    views: &'static [Named],
    before: &'static [&'static str],
    groups: &'static [(&'static [&'static str], &'static str)],
}

const A_TO_B: Named = (
    "AtoB",
    "create view AtoB::salInfo(category, D) as select A.category, A.salFloor from univ-A::salInfo A, A.dept D",
);

const BACK: Named = (
    "Back",
    "create view Back::salInfo(category, dept, salFloor) as select T.category, D, T.D from AtoB::salInfo -> D, AtoB::salInfo T where D <> 'category'",
);

const OFFICE: &[&str] = &[
    "create-database univ-A",
    "create-relation univ-A salInfo category dept salFloor",
    "insert univ-A salInfo Prof cs 72000",
    "insert univ-A salInfo Prof math 65000",
    "insert univ-A salInfo Assoc cs 60000",
];

const WORKED: &[Worked] = &[
    // Values that become columns, and back.
    Worked {
        views: &[A_TO_B, BACK],
        before: OFFICE,
        groups: &[
            (
                &["insert univ-A salInfo Prof physics 70000"],
                "column+ salInfo physics,cell salInfo physics 70000 Prof|row+ salInfo Assoc physics ,row+ salInfo Prof physics 70000",
            ),
            (&["insert univ-A salInfo Prof cs 99"], "1 conflict"),
            (
                &["delete univ-A salInfo Prof cs 72000"],
                "cell salInfo cs  Prof|row- salInfo Prof cs 72000,row+ salInfo Prof cs ",
            ),
            (
                &["delete univ-A salInfo Prof physics 70000"],
                "column- salInfo physics|row- salInfo Assoc physics ,row- salInfo Prof physics 70000",
            ),
            (
                &["delete univ-A salInfo Prof math 65000"],
                "row- salInfo Prof,column- salInfo math|row- salInfo Assoc math ,row- salInfo Prof cs ,row- salInfo Prof math 65000",
            ),
        ],
    },
    // The second level refuses what the first takes, and then neither has changed.
    Worked {
        views: &[
            ("L", "create view L::t(a, b) as select T.a, T.b from d::r T"),
            (
                "M",
                "create view M::u(a, D) as select T.a, T.b from L::t T, T.a D",
            ),
        ],
        before: &[
            "create-database d",
            "create-relation d r a b",
            "insert d r 1 x",
        ],
        groups: &[
            (&["insert d r 1 y"], "2 conflict"),
            (
                &["insert d r 2 y"],
                "row+ t 2 y|column+ u 2,row+ u 2,cell u 2 y 2",
            ),
            (&["insert d r 1 y"], "2 conflict"),
            (&["insert d r 2"], "1 refused"),
            (&["delete d r 1 x"], "row- t 1 x|row- u 1,column- u 1"),
            (
                &["insert d r 1 y"],
                "row+ t 1 y|column+ u 1,row+ u 1,cell u 1 y 1",
            ),
            (
                &["rename-attribute d r b c"],
                "row- t 1 y,row- t 2 y|row- u 1,row- u 2,column- u 1,column- u 2",
            ),
        ],
    },
    // Tables that come and go, and several cells of one row.
    Worked {
        views: &[
            (
                "L",
                "create view L::R(k, D) as select T.k, T.v from d::r T, T.t R, T.c D",
            ),
            (
                "M",
                "create view M::u(r, c, v) as select R, A, T.A from L -> R, L::R -> A, L::R T",
            ),
        ],
        before: &[
            "create-database d",
            "create-relation d r t k c v",
            "insert d r x 1 p 5",
        ],
        groups: &[
            (
                &["insert d r y 2 q 6"],
                "table+ y,column+ y q,row+ y 2,cell y q 6 2|row+ u y k 2,row+ u y q 6",
            ),
            (
                &["insert d r x 1 a 7"],
                "column+ x a,cell x a 7 1|row+ u x a 7",
            ),
            (
                &["rename-attribute d r v w"],
                "table- x,table- y|row- u x a 7,row- u x k 1,row- u x p 5,row- u y k 2,row- u y q 6",
            ),
        ],
    },
    // Three levels, and a group.
    Worked {
        views: &[
            A_TO_B,
            BACK,
            (
                "Top",
                "create view Top::t(dept, category) as select T.dept, T.category from Back::salInfo T where T.salFloor <> ''",
            ),
        ],
        before: OFFICE,
        groups: &[
            (
                &["insert univ-A salInfo Prof physics 70000"],
                "column+ salInfo physics,cell salInfo physics 70000 Prof|row+ salInfo Assoc physics ,row+ salInfo Prof physics 70000|row+ t physics Prof",
            ),
            (
                &[
                    "insert univ-A salInfo Prof cs 99",
                    "delete univ-A salInfo Prof cs 72000",
                ],
                "cell salInfo cs 99 Prof|row- salInfo Prof cs 72000,row+ salInfo Prof cs 99|",
            ),
            (
                &[
                    "insert univ-A salInfo Prof cs 5",
                    "insert univ-A salInfo Prof",
                ],
                "1 refused",
            ),
        ],
    },
];

fn put_row(bytes: &mut Vec<u8>, row: &Row) -> Result<(), NoMemory> {
    for (at, cell) in row.cells().iter().enumerate() {
        if at > 0 {
            bytes.push(b' ')?;
        }
        bytes.extend_from_slice(cell.as_slice())?;
    }
    Ok(())
}

// Puts the lines of a script last, parted by commas.
fn put_lines(alloc: Global, bytes: &mut Vec<u8>, script: &Script) -> Result<(), NoMemory> {
    let rows = script_lines(alloc, script)?;
    for (at, row) in rows.iter().enumerate() {
        if at > 0 {
            bytes.push(b',')?;
        }
        put_row(bytes, row)?;
    }
    Ok(())
}

// The lines of each level, parted by bars.
fn scripts_text(alloc: Global, scripts: &[Script]) -> Result<Text, NoMemory> {
    let mut bytes = Vec::new(alloc);
    for (at, script) in scripts.iter().enumerate() {
        if at > 0 {
            bytes.push(b'|')?;
        }
        put_lines(alloc, &mut bytes, script)?;
    }
    Text::of_vec(bytes)
}

// The level that refuses, and why.
fn refused_text(alloc: Global, refused: StackRefused) -> Result<Text, NoMemory> {
    let StackRefused { level, why } = refused;
    let mut bytes = Vec::new(alloc);
    bytes.push(match level {
        1 => b'1',
        2 => b'2',
        _ => b'3',
    })?;
    bytes.extend_from_slice(match why {
        GroupRefused::Change { .. } => b" refused".as_slice(),
        GroupRefused::Illegal(_) => b" illegal-label".as_slice(),
        GroupRefused::Conflict(_) => b" conflict".as_slice(),
        GroupRefused::NoMemory => return Err(NoMemory),
    })?;
    Text::of_vec(bytes)
}

// What changes answer.
fn answer<A: Applies, L: Ledger>(
    alloc: Global,
    stack: &mut Stack<A>,
    changes: &[Change],
    steps: &mut Steps<L>,
) -> Result<Text, NoMemory>
    requires stack { IsStack (map A.state stack.old.levels) (map A.waits stack.old.levels) stack.old.names }
    requires well_formed { AllByRecursion (λ g. IsTrue (is_well_formed g)) changes.now }
    ensures { IsStack (map A.state stack.new.levels) (map A.waits stack.new.levels) stack.new.names }
{
    match stack.apply(alloc, changes, steps) {
        Ok(scripts) => scripts_text(alloc, &scripts),
        Err(refused) => refused_text(alloc, refused),
    }
}

// The place of the first group that answers something else.
fn first_other<A: Applies, L: Ledger>(
    alloc: Global,
    stack: &mut Stack<A>,
    groups: &[(&'static [&'static str], &'static str)],
    steps: &mut Steps<L>,
) -> Result<Option<usize>, Fail>
    requires { IsStack (map A.state stack.old.levels) (map A.waits stack.old.levels) stack.old.names }
{
    for (place, (lines, told)) in groups.iter().enumerate() {
        let changes = changes_of(alloc, lines)?;
        let text = answer(alloc, stack, &changes, steps)?;
        if text.as_slice() != told.as_bytes() {
            return Ok(Some(place));
        }
    }
    Ok(None)
}

// That of a stack over the catalogue before.
fn first_over<L: Ledger>(
    alloc: Global,
    catalogue: Catalogue,
    worked: &Worked,
    blank: Blank,
) -> Result<Option<usize>, Fail>
    requires name { blank.name ≡ L.name }
    requires parts { blank.parts ≡ L.parts }
    requires some { 0 < L.parts }
{
    let mut steps = Steps::<L>::of(blank);
    let Some(mut stack) = stack_over(alloc, catalogue, worked.views, &mut steps)? else {
        return Ok(Some(usize::MAX));
    };
    first_other(alloc, &mut stack, worked.groups, &mut steps)
}

fn first_of(alloc: Global, worked: &Worked) -> Result<Option<usize>, Fail> {
    let mut catalogue = Catalogue::empty(alloc);
    let before = changes_of(alloc, worked.before)?;
    make_all(&mut catalogue, &before)?;
    let other = first_over::<Brand>(alloc, catalogue, worked, Blank::new(1))?;
    Ok(other)
}

#[test]
fn stacks_answer(rt: HostRuntime) -> Result<(), Fail> {
    for (place, worked) in WORKED.iter().enumerate() {
        assert_eq!(rt; first_of(rt.alloc(), worked)?, None, "at {place}");
    }
    Ok(())
}
