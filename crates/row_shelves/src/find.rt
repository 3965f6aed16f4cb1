//! Rows that are sought by their keys.
ghost use Rattle.std.specs.Prelude.{◌≡◌, ◌<◌, ◌≤◌, map, is_ok, slice_index_or, IfOk, IfErr};
ghost use Rattle.std.specs.Map.{lookup};
ghost use Rattle.std.specs.Option.{option_copied};
ghost use Rattle.ss_text.specs.Texts.{row_cmp, row_eq};
ghost use Rattle.ss_text.specs.Keys.{IsPlaceOf, IsPlaceFor};
ghost use Rattle.std.specs.List.Sorted.{IsStrictlySortedBy};
ghost use Rattle.row_shelves.specs.Stocks.{stock_key, rows_of, has_key};
ghost use Rattle.row_shelves.specs.Shelves.{on_shelf, all_rows, first_key, AreShelves, place_of, IsOn, IsAt};

use crate::sought::SoughtKey;
use crate::spot::Spot;
use crate::{KeptRow, RowShelf};
use ss_text::{Row, Text};

// The shelf that begins with this key, or before which such a shelf would stand.
fn shelf_of(shelves: &[RowShelf], key: &SoughtKey<'_>) -> Result<usize, usize>
    requires { AreShelves shelves.now }
    ensures found { IfOk result (IsPlaceOf first_key key.now shelves.now) }
    ensures absent { IfErr result (IsPlaceFor row_cmp first_key key.now shelves.now) }
{
    shelves.binary_search_by(|shelf| shelf.cmp_first_key(key))
}

// The place of a key on one shelf, or where it would stand.
fn place_on(shelf: &RowShelf, key: &SoughtKey<'_>) -> Result<usize, usize>
    requires { IsStrictlySortedBy row_cmp (map stock_key (on_shelf shelf.now)) }
    ensures found { IfOk result (IsPlaceOf stock_key key.now (on_shelf shelf.now)) }
    ensures absent { IfErr result (IsPlaceFor row_cmp stock_key key.now (on_shelf shelf.now)) }
{
    shelf.rows().binary_search_by(|row| row.cmp_key(key))
}

// The spot of a key, or where it would stand.
fn find_sought(shelves: &[RowShelf], key: &SoughtKey<'_>) -> Result<Spot, Spot>
    requires { AreShelves shelves.now }
    ensures found { IfOk result (λ s. IsPlaceOf stock_key key.now (all_rows shelves.now) (place_of shelves.now s)) }
    ensures absent { IfErr result (λ s. IsPlaceFor row_cmp stock_key key.now (all_rows shelves.now) (place_of shelves.now s)) }
    ensures on_shelf { IfOk result (IsOn shelves.now) }
    ensures at_shelf { IfErr result (IsAt shelves.now) }
{
    match shelf_of(shelves, key) {
        Ok(shelf) => Ok(Spot { shelf, place: 0 }),
        Err(0) => Err(Spot { shelf: 0, place: 0 }),
        Err(after) => {
            let shelf = after - 1;
            match place_on(&shelves[shelf], key) {
                Ok(place) => Ok(Spot { shelf, place }),
                Err(place) => Err(Spot { shelf, place }),
            }
        }
    }
}

/// The spot of a key, or where it would stand: at the front of the first shelf, or on the last one that begins with a
/// lesser key.
pub(crate) fn find(shelves: &[RowShelf], key: &Row) -> Result<Spot, Spot>
    requires { AreShelves shelves.now }
    ensures found { IfOk result (λ s. IsPlaceOf stock_key key.now (all_rows shelves.now) (place_of shelves.now s)) }
    ensures absent { IfErr result (λ s. IsPlaceFor row_cmp stock_key key.now (all_rows shelves.now) (place_of shelves.now s)) }
    ensures on_shelf { IfOk result (IsOn shelves.now) }
    ensures at_shelf { IfErr result (IsAt shelves.now) }
{
    find_sought(shelves, &SoughtKey::of(key))
}

/// Whether a row has the key.
pub(crate) fn has(shelves: &[RowShelf], key: &Row) -> bool
    requires { AreShelves shelves.now }
    ensures { result ≡ has_key key.now (all_rows shelves.now) }
{
    find(shelves, key).is_ok()
}

// The row at a spot.
fn row_at(shelves: &[RowShelf], spot: Spot) -> &KeptRow
    requires { IsOn shelves.now spot }
    ensures { slice_index_or (all_rows shelves.now) (place_of shelves.now spot) result.now ≡ result.now }
{
    let shelf = &shelves[spot.shelf];
    &shelf.rows()[spot.place]
}

/// The cells of the row of a key, if there is one.
pub(crate) fn cells_of<'s>(shelves: &'s [RowShelf], key: &Row) -> Option<&'s [Text]>
    requires { AreShelves shelves.now }
    ensures { option_copied result ≡ lookup (row_eq key.now) (rows_of (all_rows shelves.now)) }
{
    let Ok(spot) = find(shelves, key) else {
        return None;
    };
    Some(row_at(shelves, spot).cells())
}
