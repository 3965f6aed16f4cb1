//! Plans of views over two relations.
ghost use Rattle.std.specs.Prelude.{◌≡◌, ◌<◌, IfOk, OnOk, IsTrue, None};
ghost use Rattle.schema_model.specs.Changes.{is_well_formed};
ghost use Rattle.schema_model.specs.Refusals.{fault};
ghost use Rattle.view_def.specs.Query.{query_of};
ghost use Rattle.view_def.specs.Profile.{IsViewOfProfile};
ghost use Rattle.plan_translate.specs.Plans.{PlanStands, IsFresh};

use operator_law::{Delta, Signed};
use plan_translate::{Plan, translate};
use schema_model::{Catalogue, Change, ChangeFault};
use ss_parser::parse;
use ss_text::{NoMemory, Row, Seed, Steps, Text};
use std::alloc::Global;
use std::marker::Brand;
use std::sync::ledger::{Blank, Ledger};
use std::test::Fail;
use var_typing::type_view;
use view_def::View;

// A change, and the moves of fact rows that it makes, each a line, sorted.
struct Moved {
    change: &'static str,
    moves: &'static str,
}

// A view, and the changes after its plan is filled.
struct Worked {
    view: &'static str,
    moved: [Moved; 4],
}

// The catalogue before.
const BEFORE: &[&str] = &[
    "create-database d",
    "create-relation d r k a",
    "insert d r 1 x",
    "insert d r 2 y",
    "create-relation d s a b",
    "insert d s x p",
    "insert d s x q",
];

const WORKED: [Worked; 6] = [
    // Both sides of a join are moved, and a renamed attribute takes all facts away.
    Worked {
        view: "create view V::t(k, b) as select T.k, S.b from d::r T, d::s S where T.a = S.a",
        moved: [
            Moved {
                change: "insert d s y q",
                moves: "+ t 2 q\n",
            },
            Moved {
                change: "delete d r 1 x",
                moves: "- t 1 p\n- t 1 q\n",
            },
            Moved {
                change: "insert d r 3 y",
                moves: "+ t 3 q\n",
            },
            Moved {
                change: "rename-attribute d s b c",
                moves: "- t 2 q\n- t 3 q\n",
            },
        ],
    },
    // A test of one row alone, and a condition that is no equality.
    Worked {
        view: "create view V::t(k) as select T.k from d::r T, d::s S where T.a = S.a and S.b = 'p' and T.k <> '3'",
        moved: [
            Moved {
                change: "insert d s y q",
                moves: "",
            },
            Moved {
                change: "insert d s y p",
                moves: "+ t 2\n",
            },
            Moved {
                change: "insert d r 3 y",
                moves: "",
            },
            Moved {
                change: "delete d s x p",
                moves: "- t 1\n",
            },
        ],
    },
    // One declaration, and so no join.
    Worked {
        view: "create view V::t(k) as select T.k from d::r T",
        moved: [
            Moved {
                change: "insert d r 1 z",
                moves: "+ t 1\n",
            },
            Moved {
                change: "add-attribute d r n 0",
                moves: "",
            },
            Moved {
                change: "delete d r 2 y 0",
                moves: "- t 2\n",
            },
            Moved {
                change: "drop-relation d r",
                moves: "- t 1\n- t 1\n",
            },
        ],
    },
    // One row moves both sides of a join, of which a pair is its own.
    Worked {
        view: "create view V::t(k, l) as select T.k, S.k from d::r T, d::r S where T.a = S.a",
        moved: [
            Moved {
                change: "insert d r 3 x",
                moves: "+ t 1 3\n+ t 3 1\n+ t 3 3\n",
            },
            Moved {
                change: "delete d r 1 x",
                moves: "- t 1 1\n- t 1 3\n- t 3 1\n",
            },
            Moved {
                change: "rename-relation d r u",
                moves: "- t 2 2\n- t 3 3\n",
            },
            Moved {
                change: "rename-relation d u r",
                moves: "+ t 2 2\n+ t 3 3\n",
            },
        ],
    },
    // Relations whose names are columns.
    Worked {
        view: "create view V::t(a, R) as select T.a, S.b from d -> R, d::R T, d::s S where T.a = S.a and R <> 's'",
        moved: [
            Moved {
                change: "rename-relation d r u",
                moves: "+ t x u p\n+ t x u q\n- t x r p\n- t x r q\n",
            },
            Moved {
                change: "create-relation d w a",
                moves: "",
            },
            Moved {
                change: "insert d w x",
                moves: "+ t x w p\n+ t x w q\n",
            },
            Moved {
                change: "rename-database d e",
                moves: "- t x u p\n- t x u q\n- t x w p\n- t x w q\n",
            },
        ],
    },
    // Columns that become values, whose plan reads the rows where the attributes move.
    Worked {
        view: "create view V::t(k, d, v) as select T.k, A, T.A from d::r -> A, d::r T",
        moved: [
            Moved {
                change: "insert d r 3 z",
                moves: "+ t 3 a z\n+ t 3 k 3\n",
            },
            Moved {
                change: "add-attribute d r n 0",
                moves: "+ t 1 n 0\n+ t 2 n 0\n+ t 3 n 0\n",
            },
            Moved {
                change: "delete d r 1 x 0",
                moves: "- t 1 a x\n- t 1 k 1\n- t 1 n 0\n",
            },
            Moved {
                change: "rename-attribute d r a b",
                moves: "+ t 2 b y\n+ t 3 b z\n- t 2 a y\n- t 3 a z\n",
            },
        ],
    },
];

// The fields of a line, which are parted by blanks.
fn fields(alloc: Global, line: &str) -> Result<Row, NoMemory> {
    let mut cells = Vec::new(alloc);
    for cell in line.split(' ') {
        cells.push(Text::of(alloc, cell.as_bytes())?)?;
    }
    Ok(Row::of(cells))
}

fn change(alloc: Global, line: &str) -> Result<Change, ChangeFault>
    ensures { IfOk result (λ change. IsTrue (is_well_formed change)) }
{
    let line = fields(alloc, line)?;
    Change::read(alloc, &line)
}

// Makes a change that is not refused.
fn make(catalogue: &mut Catalogue, change: &Change) -> Result<(), NoMemory>
    requires { IsTrue (is_well_formed change.now) }
{
    if catalogue.judge(change).is_none() {
        let ready = catalogue.reserve(change)?;
        catalogue.commit(ready);
    }
    Ok(())
}

// Makes the changes that lead to the catalogue before.
fn fill(alloc: Global, catalogue: &mut Catalogue) -> Result<(), ChangeFault> {
    for &line in BEFORE {
        let change = change(alloc, line)?;
        let made = make(catalogue, &change);
        drop(change);
        made?;
    }
    Ok(())
}

fn before(alloc: Global) -> Result<Catalogue, ChangeFault> {
    let mut catalogue = Catalogue::empty(alloc);
    match fill(alloc, &mut catalogue) {
        Ok(()) => Ok(catalogue),
        Err(fault) => Err(fault),
    }
}

// A signed row as a line.
fn line(alloc: Global, m: &Signed) -> Result<Text, NoMemory> {
    let mut bytes = Vec::new(alloc);
    bytes.push(if m.up { b'+' } else { b'-' })?;
    for cell in m.row.cells() {
        bytes.push(b' ')?;
        bytes.extend_from_slice(cell.as_slice())?;
    }
    bytes.push(b'\n')?;
    Text::of(alloc, &bytes)
}

// Whether these are the lines of the moves, sorted.
fn are(alloc: Global, delta: &Delta, wanted: &str) -> Result<bool, NoMemory> {
    let mut lines = Vec::new(alloc);
    for m in &delta.moves {
        lines.push(line(alloc, m)?)?;
    }
    lines.sort()?;
    let mut all = Vec::new(alloc);
    for line in &lines {
        all.extend_from_slice(line.as_slice())?;
    }
    Ok(all.as_slice() == wanted.as_bytes())
}

// Makes a change that is not refused, of the catalogue and of the plan, and tells whether it made these moves.
fn step<L: Ledger>(
    alloc: Global,
    plan: &mut Plan,
    catalogue: &mut Catalogue,
    change: &Change,
    moves: &str,
    steps: &mut Steps<L>,
) -> Result<bool, NoMemory>
    requires stands { PlanStands catalogue.old.databases plan.old }
    requires well_formed { IsTrue (is_well_formed change.now) }
    requires accepted { fault catalogue.old.databases change.now ≡ None }
    ensures { OnOk result (PlanStands catalogue.new.databases plan.new) }
{
    let moved = plan.prepare(alloc, catalogue, change, steps)?;
    let same = are(alloc, moved.facts(), moves)?;
    let ready = plan.reserve(alloc, moved)?;
    let made = catalogue.reserve(change)?;
    catalogue.commit(made);
    plan.commit(ready);
    Ok(same)
}

// Whether each change makes its moves.
fn all_steps<L: Ledger>(
    alloc: Global,
    plan: &mut Plan,
    catalogue: &mut Catalogue,
    moved: &[Moved],
    steps: &mut Steps<L>,
) -> Result<bool, ChangeFault>
    requires { PlanStands catalogue.old.databases plan.old }
{
    for moved in moved {
        let change = change(alloc, moved.change)?;
        if catalogue.judge(&change).is_some() {
            return Ok(false);
        }
        let same = step(alloc, plan, catalogue, &change, moved.moves, steps);
        drop(change);
        if !same? {
            return Ok(false);
        }
    }
    Ok(true)
}

// Whether the plan of a view that is filled is moved so.
fn is_worked<L: Ledger>(
    alloc: Global,
    plan: &mut Plan,
    catalogue: &mut Catalogue,
    worked: &Worked,
    blank: Blank,
) -> Result<bool, ChangeFault>
    requires name { blank.name ≡ L.name }
    requires parts { blank.parts ≡ L.parts }
    requires some { 0 < L.parts }
    requires fresh { IsFresh plan.old }
{
    plan.fill(alloc, catalogue)?;
    let mut steps = Steps::<L>::of(blank);
    all_steps(alloc, plan, catalogue, &worked.moved, &mut steps)
}

fn typed(alloc: Global, text: &str) -> Result<View, Fail>
    ensures { IfOk result (λ view. IsViewOfProfile (query_of view)) }
{
    let tree = parse(alloc, text.as_bytes())?;
    let view = type_view(alloc, &tree);
    drop(tree);
    Ok(view?)
}

fn plan_of(alloc: Global, text: &str) -> Result<Plan, Fail>
    ensures { IfOk result IsFresh }
{
    let view = typed(alloc, text)?;
    let plan = translate(alloc, Seed::of(4), &view);
    drop(view);
    Ok(plan?)
}

// The same, from the catalogue before.
fn moves_so(alloc: Global, plan: &mut Plan, worked: &Worked) -> Result<bool, Fail>
    requires { IsFresh plan.old }
{
    let mut catalogue = before(alloc)?;
    let moved = is_worked::<Brand>(alloc, plan, &mut catalogue, worked, Blank::new(1));
    drop(catalogue);
    Ok(moved?)
}

fn is_as_worked(alloc: Global, worked: &Worked) -> Result<bool, Fail> {
    let mut plan = plan_of(alloc, worked.view)?;
    let moved = moves_so(alloc, &mut plan, worked);
    drop(plan);
    moved
}

#[test]
fn changes_move_facts(rt: HostRuntime) -> Result<(), Fail> {
    for worked in &WORKED {
        assert!(rt; is_as_worked(rt.alloc(), worked)?, "at {}", worked.view);
    }
    Ok(())
}
