//! Rows that are kept, and rows that are left out.
ghost use Rattle.std.specs.Prelude.{◌≡◌, ◌+◌, ◌≤◌, ◌<◌, ℕ, IfOk, IfErr, All, filter, length};
ghost use Rattle.operator_law.specs.Rows.{passes, filtered};

use flow_law::Moves;
use operator_law::{Delta, Operator, Signed};
use ss_text::{NoMemory, Row, Steps};
use std::alloc::Global;
use std::sync::ledger::Ledger;

/// Keeps the rows whose cells at two places are equal, or where `op_equal` is false differ.
#[derive(Debug, Drop)]
pub struct Select {
    pub left: usize,
    pub op_equal: bool,
    pub right: usize,
}

impl Select {
    fn passes(&self, row: &Row) -> bool
        requires left { self.now.left < length row.now }
        requires right { self.now.right < length row.now }
        ensures { result ≡ passes self.now.left self.now.op_equal self.now.right row.now }
    {
        let cells = row.cells();
        let same = cells[self.left] == cells[self.right];
        if self.op_equal { same } else { !same }
    }

    fn filtered(&self, alloc: Global, change: &Delta) -> Result<Delta, NoMemory>
        requires { All (λ m. (self.now.left < length m.row) × (self.now.right < length m.row)) change.now }
        ensures { IfOk result (λ d. d ≡ filtered (passes self.now.left self.now.op_equal self.now.right) change.now) }
    {
        let mut moves = Vec::new(alloc);
        for m in &change.moves {
            if self.passes(&m.row) {
                moves.push(m.copy()?)?;
            }
        }
        Ok(Delta { moves })
    }
}

impl Operator for Select {
    type Input = ();

    type Change = Delta;

    type Output = Delta;

    type Fault = NoMemory;

    ghost value = { λ s x. filter (passes s.left s.op_equal s.right) x };

    ghost stands_for = { λ s i x. Unit {0} };

    ghost can_prepare = { λ s i g. All (λ m. (s.left < length m.row) × (s.right < length m.row)) g };

    ghost gives = { λ s i g o. o ≡ filtered (passes s.left s.op_equal s.right) g };

    ghost may_stop = { λ s i g e. Unit {0} };

    ghost is_bound = { λ s i g n. Unit {0} };

    #[tactic(auto, using(operator_law::proofs::SignedRows::moves_filtered))]
    fn prepare<L: Ledger>(
        &self,
        alloc: Global,
        input: &(),
        change: &Delta,
        steps: &mut Steps<L>,
    ) -> Result<Delta, NoMemory> {
        match self.filtered(alloc, change) {
            Ok(delta) => Ok(delta),
            Err(fault) => Err(fault),
        }
    }
}
