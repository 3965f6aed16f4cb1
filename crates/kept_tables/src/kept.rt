//! Tables as what is kept, moved by lines.
ghost use Rattle.std.specs.Prelude.{◌≡◌};

use crate::KeptTables;
use flow_law::TableLine;
use operator_law::Kept;
use ss_text::NoMemory;
use std::alloc::Global;
use std::marker::Model;
use std::snapshot::Snapshot;

/// Names the lines for which memory was taken.
pub struct LinesReady {
    of: Snapshot<Vec<TableLine>>,
}

impl Drop for LinesReady {
    fn drop(self) {
        let LinesReady { of } = self;
        drop(of);
    }
}

impl Model for LinesReady {
    ghost use Rattle.std.specs.Prelude.{Vec};
    ghost use Rattle.std.proofs.Common.{Global};
    ghost use Rattle.flow_law.specs.declared.line.TableLine.{TableLine};

    ghost Value = { Vec TableLine Global };

    ghost view = { λ r. r.of.value };
}

impl LinesReady {
    // Names these lines.
    fn of(lines: &Vec<TableLine>) -> LinesReady
        ensures { result ≡ lines.now }
    {
        LinesReady {
            of: Snapshot::of(lines),
        }
    }
}

impl Kept for KeptTables {
    ghost use Rattle.std.specs.Prelude.{◌≡◌, ⊤};

    type Change = Vec<TableLine>;

    type Ready = LinesReady;

    ghost keeps = { λ t x. t.tables ≡ x };

    ghost can_keep = { λ t x. ⊤ };

    ghost alike = { λ s t. ⊤ };

    ghost waiting = { λ t. t.waiting };

    ghost made_for = { λ r. r };

    ghost can_reserve = { λ t lines. ⊤ };

    fn reserve(&mut self, alloc: Global, change: &Vec<TableLine>) -> Result<LinesReady, NoMemory> {
        self.take_memory(alloc, change)?;
        Ok(LinesReady::of(change))
    }

    fn commit(&mut self, ready: LinesReady) {
        self.make();
    }

    ghost keeps_alike = { λ s t x a h. h };
}
