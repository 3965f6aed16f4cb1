//! Changes that are held, as lines.
ghost use Rattle.std.specs.Prelude.{IsTrue, IfOk};
ghost use Rattle.schema_model.specs.Changes.{is_well_formed};
ghost use Rattle.change_draft.specs.Drafts.{StandsOver};

use change_draft::Draft;
use schema_model::{Catalogue, Change, ChangeFault, Refusal};
use ss_text::{NoMemory, Row, Seed, Text};
use std::alloc::Global;
use std::test::Fail;

fn fields(alloc: Global, line: &str) -> Result<Row, NoMemory> {
    let mut cells = Vec::new(alloc);
    for cell in line.split(' ') {
        cells.push(Text::of(alloc, cell.as_bytes())?)?;
    }
    Ok(Row::of(cells))
}

// The change that a line says, its fields parted by spaces.
fn change(alloc: Global, line: &str) -> Result<Change, ChangeFault>
    ensures { IfOk result (λ change. IsTrue (is_well_formed change)) }
{
    let line = fields(alloc, line)?;
    Change::read(alloc, &line)
}

// The refusal of a change, which is held where there is none.
fn held(
    draft: &mut Draft,
    base: &mut Catalogue,
    change: &Change,
) -> Result<Option<Refusal>, NoMemory>
    requires stands { StandsOver draft.old base.old.databases }
    requires well_formed { IsTrue (is_well_formed change.now) }
    ensures { StandsOver draft.new base.new.databases }
{
    draft.link(base, change)?;
    let refusal = draft.judge(base, change);
    if refusal.is_none() {
        draft.hold(base, change)?;
    }
    Ok(refusal)
}

// The refusal of the change that a line says.
fn answer(
    alloc: Global,
    draft: &mut Draft,
    base: &mut Catalogue,
    line: &str,
) -> Result<Option<Refusal>, ChangeFault>
    requires { StandsOver draft.old base.old.databases }
    ensures { StandsOver draft.new base.new.databases }
{
    let change = change(alloc, line)?;
    let refusal = held(draft, base, &change);
    drop(change);
    Ok(refusal?)
}

// The first refusal of the changes that these lines say, each held before the next.
fn first_refusal(
    alloc: Global,
    draft: &mut Draft,
    base: &mut Catalogue,
    lines: &str,
) -> Result<Option<Refusal>, ChangeFault>
    requires { StandsOver draft.old base.old.databases }
    ensures { StandsOver draft.new base.new.databases }
{
    for line in lines.split('\n') {
        let refusal = answer(alloc, draft, base, line)?;
        if refusal.is_some() {
            return Ok(refusal);
        }
    }
    Ok(None)
}

const ROW: &str = "insert d s 1";

// A copy of the catalogue by which a draft tells the databases and the relations behind its changes.
fn schema_behind(
    alloc: Global,
    draft: &mut Draft,
    base: &mut Catalogue,
) -> Result<Catalogue, ChangeFault>
    requires { StandsOver draft.old base.old.databases }
{
    let row = change(alloc, ROW)?;
    draft.link(base, &row)?;
    Ok(draft.schema(base).copy()?)
}

const THREE: &str = "create-database d\ncreate-relation d r a\nrename-relation d r s";

// Whether a change behind the three is judged over the catalogue after them.
fn is_behind(alloc: Global, draft: &mut Draft, base: &mut Catalogue) -> Result<bool, ChangeFault>
    requires { StandsOver draft.old base.old.databases }
{
    let refusal = first_refusal(alloc, draft, base, THREE)?;
    let behind = answer(alloc, draft, base, "insert d r 1")?;
    let schema = schema_behind(alloc, draft, base)?;
    let (changes, databases) = (draft.changes().len(), schema.databases().len());
    Ok((refusal, behind) == (None, Some(Refusal::NoRelation)) && (changes, databases) == (3, 1))
}

#[test]
fn changes_behind_those_that_are_held(rt: HostRuntime) -> Result<(), Fail> {
    let alloc = rt.alloc();
    let mut base = Catalogue::empty(alloc);
    let mut draft = Draft::new(alloc, Seed::fixed());
    let behind = is_behind(alloc, &mut draft, &mut base);
    assert_eq!(rt; behind, Ok(true));
    Ok(())
}

const ROWS: &str = "insert d s 1\ndelete d s 1\ndelete d s 1";

// The first refusal of rows that come and go over the catalogue after the three.
fn rows_refused(
    alloc: Global,
    draft: &mut Draft,
    base: &mut Catalogue,
) -> Result<Option<Refusal>, ChangeFault>
    requires { StandsOver draft.old base.old.databases }
{
    let none = first_refusal(alloc, draft, base, THREE)?;
    let mut schema = schema_behind(alloc, draft, base)?;
    let mut rows = Draft::new(alloc, Seed::fixed());
    let refusal = first_refusal(alloc, &mut rows, &mut schema, ROWS)?;
    Ok(none.or(refusal))
}

#[test]
fn a_row_goes_as_often_as_it_came(rt: HostRuntime) -> Result<(), Fail> {
    let alloc = rt.alloc();
    let mut base = Catalogue::empty(alloc);
    let mut draft = Draft::new(alloc, Seed::fixed());
    let refusal = rows_refused(alloc, &mut draft, &mut base);
    assert_eq!(rt; refusal, Ok(Some(Refusal::NoRow)));
    Ok(())
}
