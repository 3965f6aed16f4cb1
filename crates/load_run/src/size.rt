//! The size of a table.
ghost use Rattle.std.specs.Prelude.{◌≡◌, length, IfOk};
ghost use Rattle.row_shelves.specs.Shelves.{all_rows};
ghost use Rattle.view_folder.specs.TableFiles.{FitsShape};
ghost use Rattle.load_run.specs.Start.{query};
ghost use Rattle.load_run.specs.Runs.{size_of, size_in};

use crate::summary::Size;
use flow_law::Shape;
use kept_tables::KeptTable;
use row_shelves::RowShelf;
use ss_text::{NoMemory, Text};
use std::alloc::Global;
use view_folder::kept_text;
use view_session::Session;

// The size of the table `t`; nothing where there is none.
#[tactic(auto, using(crate::proofs::TableLemmas::table_fits))]
pub(crate) fn table_size(alloc: Global, session: &Session) -> Result<Size, NoMemory>
    requires { session.now.query ≡ query }
    ensures { IfOk result (λ size. size ≡ size_of session.now) }
{
    let label = Text::of(alloc, b"t")?;
    match session.tables().table_of(&label) {
        Some(table) => size_in(alloc, table, session.shape()),
        None => Ok(Size {
            rows: 0,
            columns: 0,
            bytes: 0,
        }),
    }
}

// The size of a table of this form.
fn size_in(alloc: Global, table: &KeptTable, shape: &Shape) -> Result<Size, NoMemory>
    requires { FitsShape shape.now table.now.table }
    ensures { IfOk result (λ size. size ≡ size_in shape.now table.now.table) }
{
    Ok(Size {
        rows: row_count(table.shelves())?,
        columns: table.columns().len(),
        bytes: kept_text(alloc, table, shape)?.as_slice().len(),
    })
}

// How many rows stand on shelves.
#[tactic(auto, using(crate::proofs::ShelfLemmas::shelf_more))]
fn row_count(shelves: &[RowShelf]) -> Result<usize, NoMemory>
    ensures { IfOk result (λ count. count ≡ length (all_rows shelves.now)) }
{
    let mut count: usize = 0;
    for shelf in shelves {
        // More rows than can be counted are no memory.
        let Some(more) = count.checked_add(shelf.rows().len()) else {
            return Err(NoMemory);
        };
        count = more;
    }
    Ok(count)
}
