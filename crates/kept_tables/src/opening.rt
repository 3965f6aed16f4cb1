//! Tables that are kept from now on.
ghost use Rattle.std.specs.Prelude.{◌≡◌, map, IfOk};
ghost use Rattle.std.specs.List.Sorted.{IsStrictlySortedBy};
ghost use Rattle.ss_text.specs.Texts.{row_cmp};
ghost use Rattle.flow_law.specs.Tables.{key_of};
ghost use Rattle.flow_law.specs.InOrder.{IsTable, AreTables};
ghost use Rattle.row_shelves.specs.Values.{rows_value};
ghost use Rattle.kept_tables.specs.Kept.{kept_table};
ghost use Rattle.kept_tables.specs.Slots.{tables_in, AreSlots};

use crate::KeptTable;
use crate::slot::Slot;
use fact_tables::{FactCell, Rows, TableFacts};
use row_shelves::RowShelves;
use ss_text::NoMemory;
use std::alloc::Global;

// Rows that are kept.
fn kept_rows<C: FactCell>(alloc: Global, rows: Rows<'_, '_, '_, C>) -> Result<RowShelves, NoMemory>
    requires { IsStrictlySortedBy row_cmp (map key_of rows) }
    ensures { IfOk result (λ kept. kept ≡ rows_value rows.entry 0 0) }
{
    let mut rows = rows;
    let mut kept = RowShelves::new(alloc);
    while let Some(row) = rows.take_next() {
        let key = row.copy_key(alloc)?;
        let cells = row.copy_cells(alloc)?;
        kept.push(alloc, key, cells)?;
    }
    Ok(kept)
}

// The table of facts, which is kept.
fn kept<C: FactCell>(alloc: Global, facts: &TableFacts<'_, '_, C>) -> Result<KeptTable, NoMemory>
    requires { IsTable facts.now.1 }
    ensures { IfOk result (λ kept. kept ≡ kept_table facts.now.1 0 0) }
{
    let columns = facts.columns(alloc)?;
    let names = facts.copy_columns(alloc, &columns)?;
    let rows = kept_rows(alloc, facts.rows(&columns))?;
    let kept = KeptTable::of(names, rows)?;
    Ok(kept)
}

/// A slot for each table, in the same order.
pub(crate) fn slots_of<C: FactCell>(
    alloc: Global,
    tables: &[TableFacts<'_, '_, C>],
) -> Result<Vec<Slot>, NoMemory>
    requires { AreTables tables.now }
    ensures order { IfOk result (λ slots. AreSlots slots.items) }
    ensures tables { IfOk result (λ slots. tables_in slots.items ≡ tables.now) }
{
    let mut slots = Vec::with_capacity(alloc, tables.len())?;
    for facts in tables {
        let table = kept(alloc, facts)?;
        slots.push(Slot::full(alloc, facts.label().copy()?, table)?)?;
    }
    Ok(slots)
}
