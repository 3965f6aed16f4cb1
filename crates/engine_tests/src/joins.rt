//! A join by itself: how moves of both sides move it, by hand. The second cell of the first side equals the first cell
//! of the second.
ghost use Rattle.std.specs.Prelude.{◌≡◌, ◌<◌, [], true, List, IfOk};
ghost use Rattle.ss_text.specs.Texts.{Row as RowValue};
ghost use Rattle.operator_law.specs.Bags.{all_signed};

use crate::flat::{fields, lines};
use join_delta::{Join, KeyPlaces};
use operator_law::{Delta, Kept, Operator, Signed};
use ss_text::{NoMemory, Row, Seed, Steps};
use std::alloc::Global;
use std::marker::Brand;
use std::slice;
use std::sync::ledger::{Blank, Ledger};

// The kept rows of both sides, the moves of both, and what they move in the join, each a line, sorted. Rows and moves are
// parted by semicolons, their cells by blanks.
struct Joined {
    left: &'static str,
    right: &'static str,
    left_moves: &'static str,
    right_moves: &'static str,
    moves: &'static str,
}

const JOINED: &[Joined] = &[
    // One relation on both sides: an equal row comes twice, and goes twice. The join has no row, then 1, 4, 1 and none.
    Joined {
        left: "",
        right: "",
        left_moves: "+ 1 1",
        right_moves: "+ 1 1",
        moves: "+ 1 1 1 1\n",
    },
    Joined {
        left: "1 1",
        right: "1 1",
        left_moves: "+ 1 1",
        right_moves: "+ 1 1",
        moves: "+ 1 1 1 1\n+ 1 1 1 1\n+ 1 1 1 1\n",
    },
    Joined {
        left: "1 1;1 1",
        right: "1 1;1 1",
        left_moves: "- 1 1",
        right_moves: "- 1 1",
        moves: "+ 1 1 1 1\n- 1 1 1 1\n- 1 1 1 1\n- 1 1 1 1\n- 1 1 1 1\n",
    },
    Joined {
        left: "1 1",
        right: "1 1",
        left_moves: "- 1 1",
        right_moves: "- 1 1",
        moves: "+ 1 1 1 1\n- 1 1 1 1\n- 1 1 1 1\n",
    },
    // A row of one relation on both sides is changed: its pair with itself goes, and no other comes in net.
    Joined {
        left: "1 1",
        right: "1 1",
        left_moves: "- 1 1;+ 1 2",
        right_moves: "- 1 1;+ 1 2",
        moves: "+ 1 1 1 1\n+ 1 1 1 2\n- 1 1 1 1\n- 1 1 1 1\n- 1 1 1 2\n",
    },
    // A row that comes and goes in one change moves nothing in net, with kept rows and with itself.
    Joined {
        left: "1 2",
        right: "1 2",
        left_moves: "+ 2 1;- 2 1",
        right_moves: "+ 2 1;- 2 1",
        moves: "+ 1 2 2 1\n+ 2 1 1 2\n- 1 2 2 1\n- 2 1 1 2\n",
    },
    Joined {
        left: "",
        right: "",
        left_moves: "+ 1 1;- 1 1",
        right_moves: "+ 1 1;- 1 1",
        moves: "+ 1 1 1 1\n+ 1 1 1 1\n- 1 1 1 1\n- 1 1 1 1\n",
    },
    // A key that is on one side only has no partner.
    Joined {
        left: "1 2;7 3",
        right: "3 4",
        left_moves: "+ 9 3;+ 9 2",
        right_moves: "",
        moves: "+ 9 3 3 4\n",
    },
    Joined {
        left: "1 2",
        right: "3 4",
        left_moves: "",
        right_moves: "- 3 4;+ 5 4",
        moves: "",
    },
    // Equal rows of the other side are counted.
    Joined {
        left: "7 3",
        right: "3 4;3 4;3 5",
        left_moves: "- 7 3",
        right_moves: "",
        moves: "- 7 3 3 4\n- 7 3 3 4\n- 7 3 3 5\n",
    },
];

fn rows(alloc: Global, text: &str) -> Result<Vec<Row>, NoMemory> {
    let mut rows = Vec::new(alloc);
    if !text.is_empty() {
        for part in text.split(';') {
            rows.push(fields(alloc, part)?)?;
        }
    }
    Ok(rows)
}

fn delta(alloc: Global, text: &str) -> Result<Delta, NoMemory> {
    let mut moves = Vec::new(alloc);
    for part in text.split(';') {
        if let Some((sign, row)) = part.split_once(' ') {
            let row = fields(alloc, row)?;
            moves.push(Signed {
                row,
                up: sign == "+",
            })?;
        }
    }
    Ok(Delta { moves })
}

fn deltas(alloc: Global, joined: &Joined) -> Result<(Delta, Delta), NoMemory> {
    let left = delta(alloc, joined.left_moves)?;
    match delta(alloc, joined.right_moves) {
        Ok(right) => Ok((left, right)),
        Err(fault) => {
            drop(left);
            Err(fault)
        }
    }
}

// All rows of both sides come.
fn come(alloc: Global, left: Vec<Row>, right: Vec<Row>) -> Result<(Delta, Delta), NoMemory>
    ensures { IfOk result (λ d. (d.0 ≡ all_signed true left.items) × (d.1 ≡ all_signed true right.items)) }
{
    let left = Delta::of(alloc, left, true)?;
    match Delta::of(alloc, right, true) {
        Ok(right) => Ok((left, right)),
        Err(fault) => {
            drop(left);
            Err(fault)
        }
    }
}

fn empty(alloc: Global) -> Result<Join, NoMemory>
    ensures left { IfOk result (λ join. join.left ≡ []) }
    ensures right { IfOk result (λ join. join.right ≡ []) }
{
    let left_key = KeyPlaces::of(alloc, &[1])?;
    match KeyPlaces::of(alloc, &[0]) {
        Ok(right_key) => Join::new(alloc, Seed::of(2), left_key, right_key),
        Err(fault) => {
            drop(left_key);
            Err(fault)
        }
    }
}

fn fill(alloc: Global, join: &mut Join, change: &(Delta, Delta)) -> Result<(), NoMemory>
    requires left { join.old.left ≡ [] }
    requires right { join.old.right ≡ [] }
    requires come { (xs : List RowValue) × (ys : List RowValue) × (change.now.0 ≡ all_signed true xs) × (change.now.1 ≡ all_signed true ys) }
{
    let ready = join.reserve(alloc, change)?;
    join.commit(ready);
    Ok(())
}

// A join that keeps the rows that come.
fn filled(alloc: Global, change: &(Delta, Delta)) -> Result<Join, NoMemory>
    requires { (xs : List RowValue) × (ys : List RowValue) × (change.now.0 ≡ all_signed true xs) × (change.now.1 ≡ all_signed true ys) }
{
    let mut join = empty(alloc)?;
    match fill(alloc, &mut join, change) {
        Ok(()) => Ok(join),
        Err(fault) => {
            drop(join);
            Err(fault)
        }
    }
}

// A join that keeps these rows.
fn kept(alloc: Global, left: &str, right: &str) -> Result<Join, NoMemory> {
    let left = rows(alloc, left)?;
    let right = rows(alloc, right)?;
    let change = come(alloc, left, right)?;
    let join = filled(alloc, &change);
    drop(change);
    join
}

fn moves<L: Ledger>(
    alloc: Global,
    join: &Join,
    change: &(Delta, Delta),
    blank: Blank,
) -> Result<Delta, NoMemory>
    requires name { blank.name ≡ L.name }
    requires parts { blank.parts ≡ L.parts }
    requires some { 0 < L.parts }
{
    let mut steps = Steps::<L>::of(blank);
    join.prepare(alloc, &(), change, &mut steps)
}

// What the change moves in the join, each a line, sorted.
fn shown(alloc: Global, join: &Join, change: &(Delta, Delta)) -> Result<Vec<u8>, NoMemory> {
    let delta = moves::<Brand>(alloc, join, change, Blank::new(1))?;
    let shown = lines(alloc, slice::from_ref(&delta));
    drop(delta);
    Ok(shown?)
}

// Whether the moves move just these rows of the join.
fn is_joined(alloc: Global, joined: &Joined) -> Result<bool, NoMemory> {
    let join = kept(alloc, joined.left, joined.right)?;
    let same = is_joined_in(alloc, &join, joined);
    drop(join);
    same
}

fn is_joined_in(alloc: Global, join: &Join, joined: &Joined) -> Result<bool, NoMemory> {
    let change = deltas(alloc, joined)?;
    let shown = shown(alloc, join, &change);
    drop(change);
    Ok(shown?.as_slice() == joined.moves.as_bytes())
}

#[test]
fn moves_of_both_sides_move_a_join(rt: HostRuntime) -> Result<(), NoMemory> {
    for joined in JOINED {
        assert!(rt;
            is_joined(rt.alloc(), joined)?,
            "at {} and {} over {} and {}",
            joined.left_moves,
            joined.right_moves,
            joined.left,
            joined.right
        );
    }
    Ok(())
}
