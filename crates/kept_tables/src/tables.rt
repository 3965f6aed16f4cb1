//! Tables by their labels, moved by lists of lines in two steps.
ghost use Rattle.std.specs.Prelude.{◌≡◌, [], Vec, None, Some, IsTrue, IfOk, OnOk, OnErr, option_map};
ghost use Rattle.std.proofs.Common.{Global as GlobalValue};
ghost use Rattle.std.specs.Option.{option_copied};
ghost use Rattle.std.specs.List.Sorted.{IsStrictlySortedBy};
ghost use Rattle.ss_text.specs.Texts.{text_cmp};
ghost use Rattle.flow_law.specs.declared.line.TableLine.{TableLine as Line};
ghost use Rattle.flow_law.specs.Tables.{labels_of, table_of};
ghost use Rattle.flow_law.specs.InOrder.{AreTables};
ghost use Rattle.flow_law.specs.Lines.{fit_lines, after_lines};
ghost use Rattle.kept_tables.specs.Kept.{KeptTableValue};
ghost use Rattle.kept_tables.specs.Slots.{tables_in};
ghost use Rattle.kept_tables.specs.KeptTables.{kept_tables};

use crate::KeptTable;
use crate::copies::copies;
use crate::labels::labels_of;
use crate::making::make_all;
use crate::opening::slots_of;
use crate::room::{expect_all, forget};
use crate::slot::{Slot, drop_many_gone, find};
use fact_tables::{FactCell, TableFacts};
use flow_law::TableLine;
use ss_text::{NoMemory, Text};
use std::alloc::Global;
use std::marker::Model;
use std::snapshot::Snapshot;

/// Lines that were made ready, with the change that they are.
#[derive(Drop)]
pub(crate) struct Waiting {
    pub of: Snapshot<Vec<TableLine>>,
    pub lines: Vec<TableLine>,
}

/// Tables by their labels, in ascending order, and how many slots at most are without one. Contracts see the tables, and
/// the lines that wait.
pub struct KeptTables {
    slots: Vec<Slot>,
    gone: usize,
    waiting: Option<Waiting>,
}

impl Drop for KeptTables {
    fn drop(self) {
        let KeptTables {
            slots,
            gone: _,
            waiting,
        } = self;
        drop(slots);
        drop(waiting);
    }
}

impl Model for KeptTables {
    ghost use Rattle.kept_tables.specs.KeptTables.{KeptTablesValue, kept_tables};

    ghost Value = { KeptTablesValue };

    ghost use Rattle.kept_tables.specs.Slots.{tables_in};
    ghost use Rattle.kept_tables.specs.Waits.{change_of, AreKept};

    ghost view = { λ t. kept_tables (tables_in t.slots.items) (change_of t.waiting) };

    ghost invariant = { λ t. AreKept t.slots t.waiting };
}

impl KeptTables {
    /// No tables.
    pub fn new(alloc: Global) -> KeptTables
        ensures { result ≡ kept_tables [] None }
    {
        KeptTables {
            slots: Vec::new(alloc),
            gone: 0,
            waiting: None,
        }
    }

    /// The tables of these facts, in their order.
    pub fn of<C: FactCell>(
        alloc: Global,
        tables: &[TableFacts<'_, '_, C>],
    ) -> Result<KeptTables, NoMemory>
        requires { AreTables tables.now }
        ensures { IfOk result (λ kept. kept ≡ kept_tables tables.now None) }
    {
        let slots = slots_of(alloc, tables)?;
        Ok(KeptTables {
            slots,
            gone: 0,
            waiting: None,
        })
    }

    /// The places of the tables, in ascending order of their labels.
    pub fn slots(&self) -> &[Slot]
        ensures tables { tables_in result.now ≡ self.now.tables }
        ensures ascend { IsStrictlySortedBy text_cmp (labels_of self.now.tables) }
    {
        &self.slots
    }

    /// The labels of the tables, in ascending order.
    pub fn labels(&self, alloc: Global) -> Result<Vec<Text>, NoMemory>
        ensures labels { IfOk result (λ labels. labels.items ≡ labels_of self.now.tables) }
        ensures ascend { IfOk result (λ labels. IsStrictlySortedBy text_cmp labels.items) }
    {
        let labels = labels_of(alloc, &self.slots)?;
        Ok(labels)
    }

    /// The table of a label, if there is one.
    pub fn table_of(&self, label: &Text) -> Option<&KeptTable>
        ensures { option_map (λ (t : KeptTableValue). t.table) (option_copied result) ≡ table_of self.now.tables label.now }
    {
        let Ok(place) = find(&self.slots, label) else {
            return None;
        };
        self.slots[place].table()
    }

    /// Gives the memory for the lines that wait back, so that none do.
    pub fn drop_waiting(&mut self)
        ensures { self.new ≡ kept_tables self.old.tables None }
    {
        if let Some(waiting) = self.waiting.take() {
            forget(&mut self.slots, &waiting.lines);
            let gone = self.gone.saturating_add(waiting.lines.len());
            self.gone = drop_many_gone(&mut self.slots, gone);
        }
    }

    /// Takes all memory for lines, each of which fits those before it. They wait then, or after `NoMemory` none do.
    pub(crate) fn take_memory(
        &mut self,
        alloc: Global,
        lines: &Vec<TableLine>,
    ) -> Result<(), NoMemory>
        requires { IsTrue (fit_lines self.old.tables lines.now.items) }
        ensures tables { self.new.tables ≡ self.old.tables }
        ensures waits { OnOk result (self.new.waiting ≡ Some lines.now) }
        ensures none { OnErr result (self.new.waiting ≡ None) }
    {
        self.drop_waiting();
        let copies = copies(alloc, lines)?;
        expect_all(alloc, &mut self.slots, lines)?;
        self.waiting = Some(Waiting {
            of: Snapshot::of(lines),
            lines: copies,
        });
        Ok(())
    }

    /// Makes the lines that wait. It takes no memory.
    pub(crate) fn make(&mut self)
        ensures made { (lines : Vec Line GlobalValue) → self.old.waiting ≡ Some lines → self.new.tables ≡ after_lines self.old.tables lines.items }
        ensures none { self.new.waiting ≡ None }
    {
        if let Some(waiting) = self.waiting.take() {
            self.gone = make_all(&mut self.slots, waiting.lines, self.gone);
        }
    }
}
