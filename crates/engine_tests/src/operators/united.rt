//! Two inputs, of which the second changes, by hand.
ghost use Rattle.std.specs.Prelude.{◌≡◌, ◌∷◌, ◌<◌, [], IfOk, All, length, map};

use operator_law::{Delta, Operator, Signed};
use other_operators::Select;
use ss_text::{NoMemory, Row, Steps, Text};
use std::alloc::Global;
use std::marker::Brand;
use std::sync::ledger::{Blank, Ledger};
use std::test::Fail;
use unite_op::{Named, Unite};

fn name(alloc: Global, text: &[u8]) -> Result<Row, NoMemory>
    ensures { IfOk result (λ row. row ≡ text.now ∷ []) }
{
    let mut cells = Vec::new(alloc);
    cells.push(Text::of(alloc, text)?)?;
    Ok(Row::of(cells))
}

// Two inputs, `x` and `y`.
fn inputs(alloc: Global) -> Result<Vec<Named<()>>, NoMemory>
    ensures { IfOk result (λ inputs. map (λ n. n.names) inputs.items ≡ ((120 ∷ []) ∷ []) ∷ ((121 ∷ []) ∷ []) ∷ []) }
{
    let mut inputs = Vec::new(alloc);
    let x = name(alloc, b"x")?;
    inputs.push(Named {
        names: x,
        value: (),
    })?;
    let y = name(alloc, b"y")?;
    inputs.push(Named {
        names: y,
        value: (),
    })?;
    Ok(inputs)
}

// A row of two equal cells goes.
fn one_gone(alloc: Global) -> Result<Delta, NoMemory>
    ensures { IfOk result (λ d. All (λ m. length m.row ≡ 2) d) }
{
    let mut cells = Vec::new(alloc);
    cells.push(Text::of(alloc, b"a")?)?;
    cells.push(Text::of(alloc, b"a")?)?;
    let mut moves = Vec::new(alloc);
    moves.push(Signed {
        row: Row::of(cells),
        up: false,
    })?;
    Ok(Delta { moves })
}

// The second input's change.
fn change(alloc: Global) -> Result<Named<Delta>, NoMemory>
    ensures names { IfOk result (λ n. n.names ≡ (121 ∷ []) ∷ []) }
    ensures two { IfOk result (λ n. All (λ m. length m.row ≡ 2) n.value) }
{
    let names = name(alloc, b"y")?;
    let value = one_gone(alloc)?;
    Ok(Named { names, value })
}

fn moved<L: Ledger>(alloc: Global, blank: Blank) -> Result<Delta, NoMemory>
    requires name { blank.name ≡ L.name }
    requires parts { blank.parts ≡ L.parts }
    requires some { 0 < L.parts }
{
    let unite = Unite {
        inner: Select {
            left: 0,
            op_equal: true,
            right: 1,
        },
        names: 1,
    };
    let inputs = inputs(alloc)?;
    let change = change(alloc)?;
    let mut steps = Steps::<L>::of(blank);
    let delta = unite.prepare(alloc, &inputs, &change, &mut steps)?;
    Ok(delta)
}

fn moved_once(alloc: Global) -> Result<Delta, NoMemory> {
    moved::<Brand>(alloc, Blank::new(1))
}

fn written(alloc: Global, delta: &Delta) -> Result<Vec<u8>, NoMemory> {
    let mut out = Vec::new(alloc);
    for m in &delta.moves {
        out.push(if m.up { b'+' } else { b'-' })?;
        for cell in m.row.cells() {
            out.extend_from_slice(cell.as_slice())?;
        }
    }
    Ok(out)
}

fn shown(alloc: Global) -> Result<Vec<u8>, NoMemory> {
    let delta = moved_once(alloc)?;
    let out = written(alloc, &delta)?;
    Ok(out)
}

#[test]
fn names_stand_before_the_row(rt: HostRuntime) -> Result<(), Fail> {
    let shown = shown(rt.alloc())?;
    assert_eq!(rt; shown.as_slice(), b"-yaa".as_slice());
    Ok(())
}
