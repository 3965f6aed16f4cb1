//! Lines that are made with memory that was taken before.
ghost use Rattle.std.specs.Prelude.{◌≡◌, ◌∷◌, [], List, IsTrue};
ghost use Rattle.flow_law.specs.Lines.{fits_line, fit_lines, after_line, after_lines};
ghost use Rattle.flow_law.specs.declared.line.TableLine.{TableLine as Line};
ghost use Rattle.kept_tables.specs.Slots.{tables_in, AreSlots, HaveRoom};

use crate::slot::{Slot, drop_many_gone, find};
use flow_law::TableLine;

// Makes the step of a line.
fn make_line(slots: &mut Vec<Slot>, line: TableLine)
    requires order { AreSlots slots.old.items }
    requires fits { IsTrue (fits_line (tables_in slots.old.items) line) }
    requires memory { HaveRoom (line ∷ []) slots.old.items }
    ensures order { AreSlots slots.new.items }
    ensures tables { tables_in slots.new.items ≡ after_line (tables_in slots.old.items) line }
    ensures memory { (lines : List Line) → HaveRoom (line ∷ lines) slots.old.items → HaveRoom lines slots.new.items }
{
    let Ok(place) = find(slots, line.label()) else {
        unreachable!()
    };
    let slot = &mut slots[place];
    slot.make(line);
}

// Makes the steps of all lines.
fn make_lines(slots: &mut Vec<Slot>, lines: Vec<TableLine>)
    requires order { AreSlots slots.old.items }
    requires fit { IsTrue (fit_lines (tables_in slots.old.items) lines.items) }
    requires memory { HaveRoom lines.items slots.old.items }
    ensures order { AreSlots slots.new.items }
    ensures tables { tables_in slots.new.items ≡ after_lines (tables_in slots.old.items) lines.items }
{
    for line in lines {
        make_line(slots, line);
    }
}

/// Makes the steps of all lines, each of which fits those before it. It takes no memory. So many slots may be without a
/// table before, and as many as it answers afterwards.
pub(crate) fn make_all(slots: &mut Vec<Slot>, lines: Vec<TableLine>, gone: usize) -> usize
    requires order { AreSlots slots.old.items }
    requires fit { IsTrue (fit_lines (tables_in slots.old.items) lines.items) }
    requires memory { HaveRoom lines.items slots.old.items }
    ensures order { AreSlots slots.new.items }
    ensures tables { tables_in slots.new.items ≡ after_lines (tables_in slots.old.items) lines.items }
{
    let gone = gone.saturating_add(tables_that_go(&lines));
    make_lines(slots, lines);
    drop_many_gone(slots, gone)
}

// How many of the lines take a table away.
fn tables_that_go(lines: &[TableLine]) -> usize {
    lines.iter().filter(|line| takes_table(line)).count()
}

fn takes_table(line: &TableLine) -> bool {
    matches!(line, TableLine::TableMinus { .. })
}
