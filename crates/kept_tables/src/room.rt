//! Memory for what lines add to tables.
ghost use Rattle.std.specs.Prelude.{◌≡◌, ◌∷◌, ◌++◌, [], List, IfOk, OnOk};
ghost use Rattle.ss_text.specs.Keys.{IsPlaceOf};
ghost use Rattle.flow_law.specs.declared.line.TableLine.{TableLine as Line};
ghost use Rattle.kept_tables.specs.Slots.{slot_label, tables_in, AreSlots, HaveRoom};

use crate::slot::{Slot, drop_gone, find};
use flow_law::TableLine;
use ss_text::{NoMemory, Text};
use std::alloc::Global;

// The place of the slot of a label, which is made where there is none.
fn slot_of(alloc: Global, slots: &mut Vec<Slot>, label: &Text) -> Result<usize, NoMemory>
    requires { AreSlots slots.old.items }
    ensures place { IfOk result (IsPlaceOf slot_label label.now slots.new.items) }
    ensures order { AreSlots slots.new.items }
    ensures tables { tables_in slots.new.items ≡ tables_in slots.old.items }
    ensures memory { (lines : List Line) → HaveRoom lines slots.old.items → HaveRoom lines slots.new.items }
{
    match find(slots, label) {
        Ok(place) => Ok(place),
        Err(place) => {
            let slot = Slot::new(alloc, label.copy()?)?;
            slots.insert(place, slot)?;
            Ok(place)
        }
    }
}

// Takes the memory for what a line adds.
fn expect_line(alloc: Global, slots: &mut Vec<Slot>, line: &TableLine) -> Result<(), NoMemory>
    requires { AreSlots slots.old.items }
    ensures order { AreSlots slots.new.items }
    ensures tables { tables_in slots.new.items ≡ tables_in slots.old.items }
    ensures memory { OnOk result ((lines : List Line) → HaveRoom lines slots.old.items → HaveRoom (lines ++ line.now ∷ []) slots.new.items) }
{
    let place = slot_of(alloc, slots, line.label())?;
    let slot = &mut slots[place];
    slot.expect(alloc, line)?;
    Ok(())
}

// Takes the memory for what all lines add.
fn expect_lines(alloc: Global, slots: &mut Vec<Slot>, lines: &[TableLine]) -> Result<(), NoMemory>
    requires { AreSlots slots.old.items }
    ensures order { AreSlots slots.new.items }
    ensures tables { tables_in slots.new.items ≡ tables_in slots.old.items }
    ensures memory { OnOk result (HaveRoom lines.now slots.new.items) }
{
    for line in lines {
        expect_line(alloc, slots, line)?;
    }
    Ok(())
}

// Gives the memory that a table has for lines back.
fn forget_label(slots: &mut Vec<Slot>, label: &Text)
    requires { AreSlots slots.old.items }
    ensures order { AreSlots slots.new.items }
    ensures tables { tables_in slots.new.items ≡ tables_in slots.old.items }
{
    let Ok(place) = find(slots, label) else {
        return;
    };
    let slot = &mut slots[place];
    slot.forget();
}

/// Gives the memory for lines back. It looks at their tables alone, and leaves slots of tables that are not there.
pub(crate) fn forget(slots: &mut Vec<Slot>, lines: &[TableLine])
    requires { AreSlots slots.old.items }
    ensures order { AreSlots slots.new.items }
    ensures tables { tables_in slots.new.items ≡ tables_in slots.old.items }
{
    for line in lines {
        forget_label(slots, line.label());
    }
}

/// Takes the memory for what all lines add, or after `NoMemory` none of it.
pub(crate) fn expect_all(
    alloc: Global,
    slots: &mut Vec<Slot>,
    lines: &[TableLine],
) -> Result<(), NoMemory>
    requires { AreSlots slots.old.items }
    ensures order { AreSlots slots.new.items }
    ensures tables { tables_in slots.new.items ≡ tables_in slots.old.items }
    ensures memory { OnOk result (HaveRoom lines.now slots.new.items) }
{
    match expect_lines(alloc, slots, lines) {
        Ok(()) => Ok(()),
        Err(fault) => {
            forget(slots, lines);
            drop_gone(slots);
            Err(fault)
        }
    }
}
