//! Rows through a bag, by hand.
ghost use Rattle.std.specs.Prelude.{◌≡◌, ◌∷◌, [], IfOk};
ghost use Rattle.other_operators.specs.RowCounts.{KeepsRows};

use operator_law::{Delta, Kept};
use other_operators::Bag;
use ss_text::{NoMemory, Row, Text};
use std::alloc::Global;
use std::test::Fail;

fn row(alloc: Global, cell: &[u8]) -> Result<Row, NoMemory>
    ensures { IfOk result (λ row. row ≡ cell.now ∷ []) }
{
    let mut cells = Vec::new(alloc);
    cells.push(Text::of(alloc, cell)?)?;
    Ok(Row::of(cells))
}

// Two equal rows, and another between them.
fn three_rows(alloc: Global, twice: &[u8], once: &[u8]) -> Result<Vec<Row>, NoMemory>
    ensures { IfOk result (λ rows. rows.items ≡ (twice.now ∷ []) ∷ (once.now ∷ []) ∷ (twice.now ∷ []) ∷ []) }
{
    let mut rows = Vec::new(alloc);
    rows.push(row(alloc, twice)?)?;
    rows.push(row(alloc, once)?)?;
    rows.push(row(alloc, twice)?)?;
    Ok(rows)
}

fn filled(alloc: Global, rows: Vec<Row>) -> Result<Bag, NoMemory>
    ensures { IfOk result (λ bag. KeepsRows bag rows.items) }
{
    let change = Delta::of(alloc, rows, true)?;
    let mut bag = Bag::new(alloc);
    let ready = bag.reserve(alloc, &change)?;
    bag.commit(ready);
    Ok(bag)
}

#[tactic(auto, using(operator_law::proofs::SignedRows::all_go))]
fn emptied(alloc: Global, bag: Bag, rows: Vec<Row>) -> Result<Bag, NoMemory>
    requires { KeepsRows bag rows.items }
    ensures { IfOk result (λ bag. KeepsRows bag []) }
{
    let change = Delta::of(alloc, rows, false)?;
    let mut bag = bag;
    let ready = bag.reserve(alloc, &change)?;
    bag.commit(ready);
    Ok(bag)
}

fn count(alloc: Global, bag: &Bag, cell: &[u8]) -> Result<u128, NoMemory> {
    let row = row(alloc, cell)?;
    Ok(bag.count(&row))
}

// How often both rows are there.
fn both(alloc: Global, bag: &Bag, twice: &[u8], once: &[u8]) -> Result<(u128, u128), NoMemory> {
    let twice = count(alloc, bag, twice)?;
    let once = count(alloc, bag, once)?;
    Ok((twice, once))
}

// How often both rows are there once the three have come, and once they have gone.
fn counted(alloc: Global, twice: &[u8], once: &[u8]) -> Result<[u128; 4], NoMemory> {
    let rows = three_rows(alloc, twice, once)?;
    let bag = filled(alloc, three_rows(alloc, twice, once)?)?;
    let come = both(alloc, &bag, twice, once);
    let bag = emptied(alloc, bag, rows)?;
    let gone = both(alloc, &bag, twice, once);
    drop(bag);
    let come = come?;
    let gone = gone?;
    Ok([come.0, come.1, gone.0, gone.1])
}

#[test]
fn a_bag_counts_its_rows(rt: HostRuntime) -> Result<(), Fail> {
    let counts = counted(rt.alloc(), b"a".as_slice(), b"b".as_slice())?;
    assert_eq!(rt; counts, [2, 1, 0, 0]);
    Ok(())
}
