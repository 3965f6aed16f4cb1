//! What a sheet is.
ghost use Rattle.std.specs.Prelude.{◌≡◌, IsTrue, IfOk, map};
ghost use Rattle.schema_model.specs.Placed.{ArePlaces, placed_rows, first_place, after_place, row_at, is_place};
ghost use Rattle.fold_op.specs.Sheets.{IsSheet};

use ss_text::{NoMemory, Row};
use std::alloc::Global;

/// Attributes, and rows of as many texts, each at a place of its own.
pub trait Sheet {
    ghost use Rattle.std.specs.Prelude.{List, ℕ};

    ghost attributes: { Self → List (List ℕ) };

    // The rows in order, each behind its place.
    ghost placed: { Self → List (ℕ × List (List ℕ)) };

    /// Its attributes, which are distinct.
    fn attributes(&self) -> &Row
        ensures attributes { result.now ≡ attributes self.now }
        ensures sheet { IsSheet (attributes self.now, placed_rows (placed self.now)) }
        ensures places { ArePlaces (placed self.now) };

    /// The place of the first row.
    fn first(&self) -> Option<usize>
        ensures { result ≡ first_place (placed self.now) };

    /// The place of the row after the one at this place.
    fn after(&self, place: usize) -> Option<usize>
        requires { IsTrue (is_place place (placed self.now)) }
        ensures { result ≡ first_place (after_place place (placed self.now)) };

    /// The row at a place.
    fn row(&self, place: usize) -> &Row
        requires { IsTrue (is_place place (placed self.now)) }
        ensures { result.now ≡ row_at place (placed self.now) };
}

impl<'a, S: Sheet> Sheet for &'a S {
    ghost attributes = { λ s. S.attributes s.now };

    ghost placed = { λ s. S.placed s.now };

    fn attributes(&self) -> &Row {
        (**self).attributes()
    }

    fn first(&self) -> Option<usize> {
        (**self).first()
    }

    fn after(&self, place: usize) -> Option<usize> {
        (**self).after(place)
    }

    fn row(&self, place: usize) -> &Row {
        (**self).row(place)
    }
}

/// The rows of a sheet, in order.
pub fn rows_of<S: Sheet>(alloc: Global, sheet: &S) -> Result<Vec<&Row>, NoMemory>
    ensures { IfOk result (λ rows. map (λ r. r.now) rows.items ≡ placed_rows (S.placed sheet.now)) }
{
    let mut rows = Vec::new(alloc);
    let _attributes = sheet.attributes();
    let mut next = sheet.first();
    while let Some(place) = next {
        rows.push(sheet.row(place))?;
        next = sheet.after(place);
    }
    Ok(rows)
}
