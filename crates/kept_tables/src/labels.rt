//! The labels of tables that are there.
ghost use Rattle.std.specs.Prelude.{◌≡◌, ◌∷◌, ◌++◌, [], IfOk, OnOk};
ghost use Rattle.flow_law.specs.Tables.{labels_of};
ghost use Rattle.kept_tables.specs.Slots.{tables_in};

use crate::slot::Slot;
use ss_text::{NoMemory, Text};
use std::alloc::Global;

/// The labels of the tables that are there, in the order of their slots.
pub(crate) fn labels_of(alloc: Global, slots: &[Slot]) -> Result<Vec<Text>, NoMemory>
    ensures { IfOk result (λ labels. labels.items ≡ labels_of (tables_in slots.now)) }
{
    let mut labels = Vec::new(alloc);
    for slot in slots {
        push_label(&mut labels, slot)?;
    }
    Ok(labels)
}

// Puts a label last whose table is there.
fn push_label(labels: &mut Vec<Text>, slot: &Slot) -> Result<(), NoMemory>
    ensures { OnOk result (labels.new.items ≡ labels.old.items ++ labels_of (tables_in (slot.now ∷ []))) }
{
    if slot.is_there() {
        labels.push(slot.label().copy()?)?;
    }
    Ok(())
}
