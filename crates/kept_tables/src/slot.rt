//! A place for the table of a label.
ghost use Rattle.std.specs.Prelude.{◌≡◌, true, IsTrue, IfOk, IfErr, OnOk, OnErr};
ghost use Rattle.ss_text.specs.Texts.{text_cmp};
ghost use Rattle.ss_text.specs.Keys.{IsPlaceOf, IsPlaceFor};
ghost use Rattle.std.specs.Option.{option_copied};
ghost use Rattle.flow_law.specs.Lines.{fits_table};
ghost use Rattle.kept_tables.specs.Kept.{HasFor};
ghost use Rattle.kept_tables.specs.Slots.{slot_label, slot_after, slot_for, slot_without, new_slot, table_there, tables_in, AreSlots};

use crate::KeptTable;
use flow_law::TableLine;
use ss_text::{NoMemory, Text};
use std::alloc::Global;
use std::marker::Model;

/// What a slot holds: a table, or where it is not there memory for one that may come.
#[derive(Debug)]
pub struct Held {
    label: Text,
    there: bool,
    table: KeptTable,
}

impl Drop for Held {
    fn drop(self) {
        let Held {
            label,
            there: _,
            table,
        } = self;
        drop(label);
        drop(table);
    }
}

/// A table under its label, or where it is not there memory for one that may come. Contracts see what it holds.
// It stands in a box, so that a slot that comes or goes moves one word for each slot behind it.
#[derive(Debug, Drop)]
pub struct Slot {
    held: Box<Held>,
}

impl Model for Slot {
    ghost use Rattle.kept_tables.specs.declared.slot.Held.{Held};

    ghost Value = { Held };

    ghost view = { λ s. s.held.value };
}

impl Slot {
    /// No table, and memory for none.
    pub(crate) fn new(alloc: Global, label: Text) -> Result<Slot, NoMemory>
        ensures { IfOk result (λ slot. slot ≡ new_slot label) }
    {
        let held = Held {
            label,
            there: false,
            table: KeptTable::new(alloc),
        };
        Ok(Slot {
            held: Box::new(alloc, held)?,
        })
    }

    /// A table that is there.
    pub(crate) fn full(alloc: Global, label: Text, table: KeptTable) -> Result<Slot, NoMemory>
        ensures { IfOk result (λ slot. slot ≡ record { label = label; there = true; table = table }) }
    {
        let held = Held {
            label,
            there: true,
            table,
        };
        Ok(Slot {
            held: Box::new(alloc, held)?,
        })
    }

    /// The label.
    pub fn label(&self) -> &Text
        ensures { result.now ≡ slot_label self.now }
    {
        &self.held.label
    }

    /// Whether its table is there.
    pub(crate) fn is_there(&self) -> bool
        ensures { result ≡ self.now.there }
    {
        self.held.there
    }

    /// The table, if it is there.
    pub fn table(&self) -> Option<&KeptTable>
        ensures { option_copied result ≡ table_there self.now }
    {
        if self.held.there {
            Some(&self.held.table)
        } else {
            None
        }
    }

    /// Takes the memory for what a line of this label adds.
    pub(crate) fn expect(&mut self, alloc: Global, line: &TableLine) -> Result<(), NoMemory>
        ensures ok { OnOk result (self.new ≡ slot_for line.now self.old) }
        ensures err { OnErr result (self.new ≡ self.old) }
    {
        let held = &mut *self.held;
        held.table.expect(alloc, line)?;
        Ok(())
    }

    /// Makes the step of a line of this label. It takes no memory.
    pub(crate) fn make(&mut self, line: TableLine)
        requires fits { IsTrue (fits_table line self.old.table.table) }
        requires memory { HasFor line self.old.table }
        ensures { self.new ≡ slot_after line self.old }
    {
        let held = &mut *self.held;
        match line {
            TableLine::TableMinus { .. } => {
                held.table.clear();
                held.there = false;
            }
            TableLine::TablePlus { .. } => held.there = true,
            _ => held.table.make(line),
        }
    }

    /// Gives the memory for rows and columns to come back.
    pub(crate) fn forget(&mut self)
        ensures { self.new ≡ slot_without self.old }
    {
        let held = &mut *self.held;
        held.table.forget();
    }
}

/// The place of the slot of a label, or where it would stand.
pub(crate) fn find(slots: &[Slot], label: &Text) -> Result<usize, usize>
    requires { AreSlots slots.now }
    ensures found { IfOk result (IsPlaceOf slot_label label.now slots.now) }
    ensures absent { IfErr result (IsPlaceFor text_cmp slot_label label.now slots.now) }
{
    slots.binary_search_by(|slot| slot.label().cmp(label))
}

/// Gives the slots back of tables that are not there.
pub(crate) fn drop_gone(slots: &mut Vec<Slot>)
    requires { AreSlots slots.old.items }
    ensures order { AreSlots slots.new.items }
    ensures tables { tables_in slots.new.items ≡ tables_in slots.old.items }
{
    slots.retain(|slot| slot.is_there());
}

/// The same where more than half of the slots may be such, which so many of them are at most. It answers how many may be
/// left. So a table that comes or goes walks over no others, in the mean.
pub(crate) fn drop_many_gone(slots: &mut Vec<Slot>, gone: usize) -> usize
    requires { AreSlots slots.old.items }
    ensures order { AreSlots slots.new.items }
    ensures tables { tables_in slots.new.items ≡ tables_in slots.old.items }
{
    if gone <= slots.len() / 2 {
        return gone;
    }
    drop_gone(slots);
    0
}
