//! The first place of a chain whose row has the cells that are sought.
ghost use Rattle.std.specs.Prelude.{◌≡◌, ◌≤◌, ℕ, List, Option, None, Some, length, filter, nat_lt};
ghost use Rattle.ss_text.specs.Texts.{Row};
ghost use Rattle.slab.specs.Slab.{get, slab_len};
ghost use Rattle.row_links.specs.Links.{IsPath, first_or, after_at};
ghost use Rattle.row_links.specs.Chained.{Placed, places};
ghost use Rattle.row_links.specs.Parts.{picked, same_cells, whole};
ghost use Rattle.row_links.specs.Live.{first_place, AreStored};

use crate::link::Link;
use crate::part::{Part, same_cells};
use slab::Slab;
use ss_text::Row;

/// The first place, from the given one along the links, whose row has the sought row's cells.
pub(crate) fn seek(
    rows: &Slab<Row>,
    links: &Vec<Link>,
    from: Option<usize>,
    part: Part<'_>,
    sought_part: Part<'_>,
    sought: &Row,
) -> Option<usize>
    ensures { (mark : ℕ) (before : Option ℕ) (es : Placed) → IsPath links.now.items mark before (places es) None → from ≡ first_or (places es) None → AreStored rows.now es
        → length es ≤ slab_len rows.now → result ≡ first_place (filter (λ e. same_cells (picked part.entry e.1) (picked sought_part.entry sought.now)) es) }
{
    let mut at = from;
    for _turn in 0..rows.len() {
        match at {
            None => return None,
            Some(place) => {
                if fits(rows, place, part, sought_part, sought) {
                    return Some(place);
                }
                at = after(links, place);
            }
        }
    }
    None
}

/// Whether more than so many places, from the given one along the links, have a row with the same cells.
pub(crate) fn has_more(
    rows: &Slab<Row>,
    links: &Vec<Link>,
    from: Option<usize>,
    sought: &Row,
    count: u128,
) -> bool
    ensures { (mark : ℕ) (before : Option ℕ) (es : Placed) → IsPath links.now.items mark before (places es) None → from ≡ first_or (places es) None → AreStored rows.now es
        → length es ≤ slab_len rows.now → result ≡ nat_lt count (length (filter (λ e. same_cells (whole e.1) (whole sought.now)) es)) }
{
    let mut at = from;
    let mut left = count;
    for _turn in 0..rows.len() {
        match at {
            None => return false,
            Some(place) => {
                at = after(links, place);
                if fits(rows, place, Part::Whole, Part::Whole, sought) {
                    if left == 0 {
                        return true;
                    }
                    left -= 1;
                }
            }
        }
    }
    false
}

// Whether the row at this place has the sought row's cells.
fn fits(rows: &Slab<Row>, place: usize, part: Part<'_>, sought_part: Part<'_>, sought: &Row) -> bool
    ensures { (row : Row) → get rows.now place ≡ Some row → result ≡ same_cells (picked part.entry row) (picked sought_part.entry sought.now) }
{
    match rows.get(place) {
        Some(row) => same_cells(part, row, sought_part, sought),
        None => false,
    }
}

/// The place that the link at this place leads on to.
pub(crate) fn after(links: &Vec<Link>, place: usize) -> Option<usize>
    ensures { result ≡ after_at links.now.items place }
{
    match links.get(place) {
        Some(link) => link.after,
        None => None,
    }
}
