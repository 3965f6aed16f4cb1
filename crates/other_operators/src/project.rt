//! Some cells of each row.
ghost use Rattle.std.specs.Prelude.{◌≡◌, ◌+◌, ◌≤◌, ◌<◌, ℕ, IfOk, IfErr, All, map, length};
ghost use Rattle.operator_law.specs.Rows.{cells_at, projected};

use flow_law::Moves;
use operator_law::{Delta, Operator, Signed};
use ss_text::{NoMemory, Row, Steps};
use std::alloc::Global;
use std::sync::ledger::Ledger;

/// The cells of a row at these places, in the order of the places.
pub fn cells_at(alloc: Global, places: &[usize], row: &Row) -> Result<Row, NoMemory>
    requires { All (λ k. k < length row.now) places.now }
    ensures { IfOk result (λ r. r ≡ cells_at places.now row.now) }
{
    let mut cells = Vec::with_capacity(alloc, places.len())?;
    for place in places {
        cells.push(row.cells()[*place].copy()?)?;
    }
    Ok(Row::of(cells))
}

/// Takes the cells at these places of each row.
#[derive(Debug, Drop)]
pub struct Project {
    pub places: Vec<usize>,
}

impl Project {
    fn projected(&self, alloc: Global, change: &Delta) -> Result<Delta, NoMemory>
        requires { All (λ m. All (λ k. k < length m.row) self.now.places.items) change.now }
        ensures { IfOk result (λ d. d ≡ projected self.now.places.items change.now) }
    {
        let mut moves = Vec::with_capacity(alloc, change.moves.len())?;
        for m in &change.moves {
            let row = cells_at(alloc, &self.places, &m.row)?;
            moves.push(Signed { row, up: m.up })?;
        }
        Ok(Delta { moves })
    }
}

impl Operator for Project {
    type Input = ();

    type Change = Delta;

    type Output = Delta;

    type Fault = NoMemory;

    ghost value = { λ s x. map (cells_at s.places.items) x };

    ghost stands_for = { λ s i x. Unit {0} };

    ghost can_prepare = { λ s i g. All (λ m. All (λ k. k < length m.row) s.places.items) g };

    ghost gives = { λ s i g o. o ≡ projected s.places.items g };

    ghost may_stop = { λ s i g e. Unit {0} };

    ghost is_bound = { λ s i g n. Unit {0} };

    #[tactic(auto, using(operator_law::proofs::SignedRows::moves_projected))]
    fn prepare<L: Ledger>(
        &self,
        alloc: Global,
        input: &(),
        change: &Delta,
        steps: &mut Steps<L>,
    ) -> Result<Delta, NoMemory> {
        match self.projected(alloc, change) {
            Ok(delta) => Ok(delta),
            Err(fault) => Err(fault),
        }
    }
}
