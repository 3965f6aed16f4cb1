//! Moves in net.
ghost use Rattle.std.specs.Prelude.{◌≡◌, ◌-◌, not, IfOk};
ghost use Rattle.ss_text.specs.Texts.{Row as RowValue};
ghost use Rattle.std.specs.List.{list_all, AllZip, AllByRecursion};
ghost use Rattle.operator_law.specs.Bags.{weigh, is};
ghost use Rattle.join_delta.specs.Ready.{ups_of, downs_of};
ghost use Rattle.operator_law.specs.declared.delta.Signed.{Signed as SignedValue};
ghost use Rattle.schema_delta.specs.Net.{SameNet, IsNet};

use crate::cancel::without;
use join_delta::rows_of_moves;
use operator_law::{Delta, Signed};
use ss_text::{NoMemory, Row, Seed};
use std::alloc::Global;

fn all_come(moves: &[Signed]) -> bool
    ensures { result ≡ list_all (λ (m : SignedValue). m.up) moves.now }
{
    moves.iter().all(|m| m.up)
}

fn all_go(moves: &[Signed]) -> bool
    ensures { result ≡ list_all (λ (m : SignedValue). not m.up) moves.now }
{
    moves.iter().all(|m| !m.up)
}

// The rows that come more often than they go.
fn ups_left(alloc: Global, seed: Seed, moves: &[Signed]) -> Result<Vec<Row>, NoMemory>
    ensures { IfOk result (λ rows. (r : RowValue) → weigh (is r) rows.items ≡ weigh (is r) (ups_of moves.now) - weigh (is r) (downs_of moves.now)) }
{
    let ups = rows_of_moves(alloc, moves, true)?;
    let downs = rows_of_moves(alloc, moves, false)?;
    let left = without(alloc, seed, ups, downs)?;
    Ok(left)
}

// The rows that go more often than they come.
fn downs_left(alloc: Global, seed: Seed, moves: &[Signed]) -> Result<Vec<Row>, NoMemory>
    ensures { IfOk result (λ rows. (r : RowValue) → weigh (is r) rows.items ≡ weigh (is r) (downs_of moves.now) - weigh (is r) (ups_of moves.now)) }
{
    let downs = rows_of_moves(alloc, moves, false)?;
    let ups = rows_of_moves(alloc, moves, true)?;
    let left = without(alloc, seed, downs, ups)?;
    Ok(left)
}

// The moves without those that come and go again.
fn cancelled(alloc: Global, seed: Seed, moves: &[Signed]) -> Result<Delta, NoMemory>
    ensures same { IfOk result (SameNet moves.now) }
    ensures net { IfOk result IsNet }
{
    let ups = ups_left(alloc, seed, moves)?;
    let downs = downs_left(alloc, seed, moves)?;
    let come = Delta::of(alloc, ups, true)?;
    let go = Delta::of(alloc, downs, false)?;
    let both = come.followed_by(go)?;
    Ok(both)
}

/// The same moves in net: no row comes and goes again. Rows are hashed by a seed.
pub fn net(alloc: Global, seed: Seed, delta: Delta) -> Result<Delta, NoMemory>
    ensures same { IfOk result (SameNet delta) }
    ensures net { IfOk result IsNet }
{
    if all_come(&delta.moves) {
        return Ok(delta);
    }
    if all_go(&delta.moves) {
        return Ok(delta);
    }
    let net = cancelled(alloc, seed, &delta.moves)?;
    Ok(net)
}

/// Each of these moves in net.
pub fn each_net(alloc: Global, seed: Seed, deltas: Vec<Delta>) -> Result<Vec<Delta>, NoMemory>
    ensures same { IfOk result (λ nets. AllZip SameNet deltas.items nets.items) }
    ensures net { IfOk result (λ nets. AllByRecursion IsNet nets.items) }
{
    let mut nets = Vec::with_capacity(alloc, deltas.len())?;
    for delta in deltas {
        nets.push(net(alloc, seed, delta)?)?;
    }
    Ok(nets)
}
