//! Changes of a small catalogue, one by one and together.
ghost use Rattle.std.specs.Prelude.{◌≡◌, true, None, IfOk, IsTrue, length};
ghost use Rattle.std.specs.List.{AllByRecursion};
ghost use Rattle.schema_model.specs.Changes.{after, is_well_formed};
ghost use Rattle.schema_model.specs.Refusals.{fault, group_fault};

use schema_model::{Catalogue, Change};
use ss_text::{NoMemory, Row, Text};
use std::alloc::Global;
use std::test::Fail;

fn text(alloc: Global, word: &str) -> Result<Text, NoMemory> {
    Text::of(alloc, word.as_bytes())
}

fn row(alloc: Global, first: &str, second: &str) -> Result<Row, NoMemory>
    ensures { IfOk result (λ row. length row ≡ 2) }
{
    let mut cells = Vec::new(alloc);
    cells.push(text(alloc, first)?)?;
    cells.push(text(alloc, second)?)?;
    Ok(Row::of(cells))
}

fn insert(alloc: Global, rel: &str, first: &str) -> Result<Change, NoMemory>
    ensures { IfOk result (λ change. IsTrue (is_well_formed change)) }
{
    let db = text(alloc, "d")?;
    let rel = text(alloc, rel)?;
    let row = row(alloc, first, "1")?;
    Ok(Change::Insert { db, rel, row })
}

fn delete(alloc: Global, rel: &str, first: &str) -> Result<Change, NoMemory>
    ensures { IfOk result (λ change. IsTrue (is_well_formed change)) }
{
    let db = text(alloc, "d")?;
    let rel = text(alloc, rel)?;
    let row = row(alloc, first, "1")?;
    Ok(Change::Delete { db, rel, row })
}

fn rename(alloc: Global, rel: &str, to: &str) -> Result<Change, NoMemory>
    ensures { IfOk result (λ change. IsTrue (is_well_formed change)) }
{
    let db = text(alloc, "d")?;
    let rel = text(alloc, rel)?;
    let to = text(alloc, to)?;
    Ok(Change::RenameRelation { db, rel, to })
}

fn database(alloc: Global) -> Result<Change, NoMemory>
    ensures { IfOk result (λ change. IsTrue (is_well_formed change)) }
{
    let db = text(alloc, "d")?;
    Ok(Change::CreateDatabase { db })
}

fn relation(alloc: Global) -> Result<Change, NoMemory>
    ensures { IfOk result (λ change. IsTrue (is_well_formed change)) }
{
    let db = text(alloc, "d")?;
    let rel = text(alloc, "r")?;
    let attributes = row(alloc, "x", "y")?;
    Ok(Change::CreateRelation {
        db,
        rel,
        attributes,
    })
}

// Makes a change that is not refused, and answers whether it was made.
fn make(catalogue: &mut Catalogue, change: Change) -> Result<bool, NoMemory>
    requires { IsTrue (is_well_formed change) }
{
    let made = make_shown(catalogue, &change);
    drop(change);
    made
}

fn make_shown(catalogue: &mut Catalogue, change: &Change) -> Result<bool, NoMemory>
    requires { IsTrue (is_well_formed change.now) }
{
    if catalogue.judge(change).is_some() {
        return Ok(false);
    }
    let ready = catalogue.reserve(change)?;
    catalogue.commit(ready);
    Ok(true)
}

// Whether two changes can be made one after the other.
fn pass(catalogue: &Catalogue, first: &Change, second: &Change) -> Result<bool, NoMemory>
    requires { IsTrue (is_well_formed first.now) }
    ensures { IfOk result (λ passes. passes ≡ true → (fault catalogue.now.databases first.now ≡ None) × (fault (after catalogue.now.databases first.now) second.now ≡ None)) }
{
    let mut trial = catalogue.copy()?;
    let passes = pass_in(&mut trial, first, second);
    drop(trial);
    passes
}

fn pass_in(trial: &mut Catalogue, first: &Change, second: &Change) -> Result<bool, NoMemory>
    requires { IsTrue (is_well_formed first.now) }
    ensures { IfOk result (λ passes. passes ≡ true → (fault trial.old.databases first.now ≡ None) × (fault (after trial.old.databases first.now) second.now ≡ None)) }
{
    if trial.judge(first).is_some() {
        return Ok(false);
    }
    let ready = trial.reserve(first)?;
    trial.commit(ready);
    Ok(trial.judge(second).is_none())
}

// Makes two changes together that are not refused, and answers whether they were made.
fn make_two(catalogue: &mut Catalogue, first: Change, second: Change) -> Result<bool, NoMemory>
    requires first { IsTrue (is_well_formed first) }
    requires second { IsTrue (is_well_formed second) }
{
    match pass(catalogue, &first, &second) {
        Ok(true) => make_passed(catalogue, first, second),
        other => {
            drop(first);
            drop(second);
            other
        }
    }
}

fn make_passed(catalogue: &mut Catalogue, first: Change, second: Change) -> Result<bool, NoMemory>
    requires first { IsTrue (is_well_formed first) }
    requires second { IsTrue (is_well_formed second) }
    requires accepted { fault catalogue.old.databases first ≡ None }
    requires next { fault (after catalogue.old.databases first) second ≡ None }
{
    let changes = [first, second];
    let made = make_together(catalogue, &changes);
    drop(changes);
    made
}

fn make_together(catalogue: &mut Catalogue, changes: &[Change]) -> Result<bool, NoMemory>
    requires well_formed { AllByRecursion (λ g. IsTrue (is_well_formed g)) changes.now }
    requires accepted { group_fault catalogue.old.databases changes.now ≡ None }
{
    let ready = catalogue.reserve_all(changes)?;
    catalogue.commit_all(ready);
    Ok(true)
}

// A row comes, and then one goes.
fn come_and_go(
    alloc: Global,
    catalogue: &mut Catalogue,
    come: &str,
    go: &str,
) -> Result<bool, NoMemory> {
    let first = insert(alloc, "r", come)?;
    match delete(alloc, "r", go) {
        Ok(second) => make_two(catalogue, first, second),
        Err(fault) => {
            drop(first);
            Err(fault)
        }
    }
}

// A row goes, and then one comes.
fn go_and_come(
    alloc: Global,
    catalogue: &mut Catalogue,
    go: &str,
    come: &str,
) -> Result<bool, NoMemory> {
    let first = delete(alloc, "r", go)?;
    match insert(alloc, "r", come) {
        Ok(second) => make_two(catalogue, first, second),
        Err(fault) => {
            drop(first);
            Err(fault)
        }
    }
}

// The relation gets another name, and then a row.
fn rename_and_come(alloc: Global, catalogue: &mut Catalogue, come: &str) -> Result<bool, NoMemory> {
    let first = rename(alloc, "r", "s")?;
    match insert(alloc, "s", come) {
        Ok(second) => make_two(catalogue, first, second),
        Err(fault) => {
            drop(first);
            Err(fault)
        }
    }
}

// Writes the rows of a relation of `d`, and how many equal this one, up to four.
fn show(
    catalogue: &Catalogue,
    rel: &str,
    counted: &Row,
    out: &mut Vec<u8>,
) -> Result<(), NoMemory> {
    let alloc = *out.allocator();
    let Some(database) = catalogue.database(&text(alloc, "d")?) else {
        return Ok(());
    };
    let Some(relation) = database.relation(&text(alloc, rel)?) else {
        return Ok(());
    };
    for row in &relation.rows(alloc)? {
        for cell in row.cells() {
            out.extend_from_slice(cell.as_slice())?;
        }
        out.push(b' ')?;
    }
    for count in &[0, 1, 2, 3] {
        if relation.has_more(counted, *count) {
            out.push(b'+')?;
        }
    }
    out.push(b';')?;
    Ok(())
}

// The database `d` with the relation `r` of two attributes and two rows.
fn begin(alloc: Global, catalogue: &mut Catalogue) -> Result<(), NoMemory> {
    make(catalogue, database(alloc)?)?;
    make(catalogue, relation(alloc)?)?;
    make(catalogue, insert(alloc, "r", "a")?)?;
    make(catalogue, insert(alloc, "r", "b")?)?;
    Ok(())
}

// Changes that are made together, and one pair of which the second is refused.
fn tell(
    alloc: Global,
    catalogue: &mut Catalogue,
    counted: &Row,
    out: &mut Vec<u8>,
) -> Result<(), NoMemory> {
    begin(alloc, catalogue)?;
    show(catalogue, "r", counted, out)?;
    come_and_go(alloc, catalogue, "a", "a")?;
    show(catalogue, "r", counted, out)?;
    go_and_come(alloc, catalogue, "b", "a")?;
    show(catalogue, "r", counted, out)?;
    come_and_go(alloc, catalogue, "c", "z")?;
    show(catalogue, "r", counted, out)?;
    rename_and_come(alloc, catalogue, "h")?;
    show(catalogue, "s", counted, out)
}

fn story(alloc: Global, counted: &Row, out: &mut Vec<u8>) -> Result<(), NoMemory> {
    let mut catalogue = Catalogue::empty(alloc);
    let told = tell(alloc, &mut catalogue, counted, out);
    drop(catalogue);
    told
}

#[test]
fn changes_are_made_together(rt: HostRuntime) -> Result<(), Fail> {
    let alloc = rt.alloc();
    let counted = row(alloc, "a", "1")?;
    let mut out = Vec::new(alloc);
    story(alloc, &counted, &mut out)?;
    assert_eq!(rt;
        out.as_slice(),
        b"a1 b1 +;b1 a1 +;a1 a1 ++;a1 a1 ++;a1 a1 h1 ++;".as_slice()
    );
    Ok(())
}
