//! Two signed rows through each operator, by hand.
ghost use Rattle.std.specs.Prelude.{◌≡◌, ◌<◌, IfOk, All, length};

use operator_law::{Delta, Operator, Signed};
use other_operators::{EitherFault, Project, Select, Side, Then};
use ss_text::{NoMemory, Row, Steps, Text};
use std::alloc::Global;
use std::marker::Brand;
use std::sync::ledger::{Blank, Ledger};
use std::test::Fail;

mod united;

fn row(alloc: Global, first: &str, second: &str) -> Result<Row, NoMemory>
    ensures { IfOk result (λ row. length row ≡ 2) }
{
    let mut cells = Vec::new(alloc);
    cells.push(Text::of(alloc, first.as_bytes())?)?;
    cells.push(Text::of(alloc, second.as_bytes())?)?;
    Ok(Row::of(cells))
}

// A row of two equal cells comes, and one whose cells differ goes.
fn change(alloc: Global) -> Result<Delta, NoMemory>
    ensures { IfOk result (λ d. All (λ m. length m.row ≡ 2) d) }
{
    let mut moves = Vec::new(alloc);
    let row_up = row(alloc, "a", "a")?;
    moves.push(Signed {
        row: row_up,
        up: true,
    })?;
    let row_down = row(alloc, "a", "b")?;
    moves.push(Signed {
        row: row_down,
        up: false,
    })?;
    Ok(Delta { moves })
}

fn places(alloc: Global, places: &[usize]) -> Result<Vec<usize>, NoMemory>
    ensures { IfOk result (λ made. made.items ≡ places.now) }
{
    let made = Vec::from_slice(alloc, places)?;
    Ok(made)
}

// Each move as its sign and its cells.
fn show(delta: &Delta, out: &mut Vec<u8>) -> Result<(), NoMemory> {
    for m in &delta.moves {
        out.push(if m.up { b'+' } else { b'-' })?;
        for cell in m.row.cells() {
            out.extend_from_slice(cell.as_slice())?;
        }
    }
    Ok(())
}

fn second_then_differing<L: Ledger>(alloc: Global, blank: Blank) -> Result<Delta, NoMemory>
    requires name { blank.name ≡ L.name }
    requires parts { blank.parts ≡ L.parts }
    requires some { 0 < L.parts }
{
    let places = places(alloc, &[1, 0])?;
    let operator = Then {
        first: Project { places },
        second: Select {
            left: 0,
            op_equal: false,
            right: 1,
        },
    };
    let change = change(alloc)?;
    let mut steps = Steps::<L>::of(blank);
    match operator.prepare(alloc, &(), &change, &mut steps) {
        Ok(out) => Ok(out),
        Err(EitherFault::First(fault) | EitherFault::Second(fault)) => Err(fault),
    }
}

fn equal_beside_first<L: Ledger>(alloc: Global, blank: Blank) -> Result<(Delta, Delta), NoMemory>
    requires name { blank.name ≡ L.name }
    requires parts { blank.parts ≡ L.parts }
    requires some { 0 < L.parts }
{
    let places = places(alloc, &[1])?;
    let operator = Side {
        left: Select {
            left: 0,
            op_equal: true,
            right: 1,
        },
        right: Project { places },
    };
    let left = change(alloc)?;
    let right = change(alloc)?;
    let both = (left, right);
    let mut steps = Steps::<L>::of(blank);
    match operator.prepare(alloc, &((), ()), &both, &mut steps) {
        Ok(out) => Ok(out),
        Err(EitherFault::First(fault) | EitherFault::Second(fault)) => Err(fault),
    }
}

fn one_after_the_other(alloc: Global) -> Result<Delta, NoMemory> {
    second_then_differing::<Brand>(alloc, Blank::new(1))
}

fn side_by_side(alloc: Global) -> Result<(Delta, Delta), NoMemory> {
    equal_beside_first::<Brand>(alloc, Blank::new(1))
}

fn written(alloc: Global, through: &Delta, beside: &(Delta, Delta)) -> Result<Vec<u8>, NoMemory> {
    let mut out = Vec::new(alloc);
    show(through, &mut out)?;
    out.push(b' ')?;
    show(&beside.0, &mut out)?;
    out.push(b' ')?;
    show(&beside.1, &mut out)?;
    Ok(out)
}

fn shown(alloc: Global) -> Result<Vec<u8>, NoMemory> {
    let through = one_after_the_other(alloc)?;
    let beside = side_by_side(alloc)?;
    let out = written(alloc, &through, &beside)?;
    Ok(out)
}

#[test]
fn moves_go_through(rt: HostRuntime) -> Result<(), Fail> {
    let shown = shown(rt.alloc())?;
    assert_eq!(rt; shown.as_slice(), b"-ba +aa +a-b".as_slice());
    Ok(())
}
