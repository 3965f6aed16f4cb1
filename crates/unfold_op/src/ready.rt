//! A change is made ready, and then made without memory.
ghost use Rattle.std.specs.Prelude.{◌≡◌, ◌≤◌, ◌<◌, List, length, map, None, Some, option_map, IfOk, IfSome, OnOk};
ghost use Rattle.std.specs.List.Sorted.{IsStrictlySortedBy};
ghost use Rattle.std.specs.Map.{lookup};
ghost use Rattle.indexmap.specs.IndexMap.{get, spare};
ghost use Rattle.counts.specs.Counted.{keys_of, changed_get};
ghost use Rattle.ss_text.specs.Texts.{Text, Row, row_eq, text_eq};
ghost use Rattle.unfold_op.specs.Touched.{Place, place_eq, place_cmp, entry_eq};
ghost use Rattle.unfold_op.specs.Kept.{places_of, held, first_clash};
ghost use Rattle.unfold_op.specs.Nets.{now, CanMoveAll, present_of};
ghost use Rattle.unfold_op.specs.Stored.{new_cell, IsReady, HasRoom, SameKept};
ghost use Rattle.unfold_op.specs.Moves.{IsChange, Stands};
ghost use Rattle.flow_law.specs.Facts.{Fact, conflict};
ghost use Rattle.counts.specs.declared.moves.Move.{Move};
ghost use Rattle.unfold_op.specs.declared.facts.Nets.{Nets};

use crate::facts::{FactCounts, Nets};
use crate::lines::present_of;
use crate::values::{held, places};
use counts::{Key, make_room, store_all};
use ss_text::{NoMemory, Row, Text};
use std::alloc::Global;

/// The new counts of the keys and the columns, and the new cells, that a change names.
#[derive(Drop)]
pub struct NewCounts {
    pub keys: Vec<(Row, Option<u128>)>,
    pub columns: Vec<(Text, Option<u128>)>,
    pub cells: Vec<((Row, Text), Option<(Text, u128)>)>,
}

// The value of a place among entries of one value for each place.
fn found(entries: &[((Row, Text), Text)], place: &(Row, Text)) -> Result<Option<Text>, NoMemory>
    requires { IsStrictlySortedBy place_cmp (map (λ e. e.0) entries.now) }
    ensures { IfOk result (λ value. value ≡ lookup (place_eq place.now) entries.now) }
{
    match entries.binary_search_by(|entry| entry.0.cmp(place)) {
        Ok(at) => {
            let value = entries[at].1.copy()?;
            Ok(Some(value))
        }
        Err(_) => Ok(None),
    }
}

fn count_after(counts: &FactCounts, nets: &Nets, entry: &((Row, Text), Text)) -> u128
    requires { CanMoveAll counts.now nets.now }
    ensures { result ≡ (now counts.now nets.now).entries entry.now }
{
    nets.entries.after(held(&counts.cells, entry), entry)
}

fn new_cell(
    counts: &FactCounts,
    nets: &Nets,
    present: &[((Row, Text), Text)],
    place: &(Row, Text),
) -> Result<Option<(Text, u128)>, NoMemory>
    requires moves { CanMoveAll counts.now nets.now }
    requires present { present.now ≡ present_of counts.now nets.now }
    requires ascend { IsStrictlySortedBy place_cmp (map (λ e. e.0) present.now) }
    ensures { IfOk result (λ cell. cell ≡ new_cell counts.now nets.now place.now) }
{
    let Some(value) = found(present, place)? else {
        return Ok(None);
    };
    let entry = (place.copied()?, value);
    let count = count_after(counts, nets, &entry);
    Ok(Some((entry.1, count)))
}

fn new_cells(
    alloc: Global,
    counts: &FactCounts,
    nets: &Nets,
    present: &[((Row, Text), Text)],
    places: &[(Row, Text)],
) -> Result<Vec<((Row, Text), Option<(Text, u128)>)>, NoMemory>
    requires moves { CanMoveAll counts.now nets.now }
    requires present { present.now ≡ present_of counts.now nets.now }
    requires ascend { IsStrictlySortedBy place_cmp (map (λ e. e.0) present.now) }
    ensures { IfOk result (λ cells. cells.items ≡ map (λ p. (p, new_cell counts.now nets.now p)) places.now) }
{
    let mut cells = Vec::new(alloc);
    for place in places {
        let cell = new_cell(counts, nets, present, place)?;
        cells.push((place.copied()?, cell))?;
    }
    Ok(cells)
}

fn cells_of(
    alloc: Global,
    counts: &FactCounts,
    nets: &Nets,
) -> Result<Vec<((Row, Text), Option<(Text, u128)>)>, NoMemory>
    requires moves { CanMoveAll counts.now nets.now }
    requires ascend { IsStrictlySortedBy place_cmp (map (λ e. e.0) (present_of counts.now nets.now)) }
    ensures { IfOk result (λ cells. cells.items ≡ map (λ p. (p, new_cell counts.now nets.now p)) (places_of (keys_of nets.now.entries))) }
{
    let places = places(alloc, nets.entries.tallies())?;
    let present = present_of(alloc, counts, nets, &places)?;
    let cells = new_cells(alloc, counts, nets, &present, &places)?;
    Ok(cells)
}

/// Makes ready what is new after a change.
pub fn made_ready(alloc: Global, counts: &FactCounts, nets: Nets) -> Result<NewCounts, NoMemory>
    requires moves { CanMoveAll counts.now nets }
    requires ascend { IsStrictlySortedBy place_cmp (map (λ e. e.0) (present_of counts.now nets)) }
    ensures { IfOk result (λ ready. IsReady counts.now nets ready) }
{
    let cells = cells_of(alloc, counts, &nets)?;
    let keys = nets.keys.new_counts(alloc, &counts.keys)?;
    let columns = nets.columns.new_counts(alloc, &counts.columns)?;
    Ok(NewCounts {
        keys,
        columns,
        cells,
    })
}

fn room(counts: &mut FactCounts, nets: &Nets, cells: usize) -> Result<(), NoMemory>
    ensures same { SameKept counts.old counts.new }
    ensures keys { OnOk result (length nets.now.keys ≤ spare counts.new.keys) }
    ensures columns { OnOk result (length nets.now.columns ≤ spare counts.new.columns) }
    ensures cells { OnOk result (cells ≤ spare counts.new.cells) }
{
    make_room(&mut counts.keys, nets.keys.tallies().len())?;
    make_room(&mut counts.columns, nets.columns.tallies().len())?;
    make_room(&mut counts.cells, cells)?;
    Ok(())
}

// Takes the memory, and makes ready what is new; what is kept stays.
#[tactic(auto, using(crate::proofs::SameKeptLemmas::present_is_same))]
fn take_ready(alloc: Global, counts: &mut FactCounts, nets: Nets) -> Result<NewCounts, NoMemory>
    requires moves { CanMoveAll counts.old nets }
    requires ascend { IsStrictlySortedBy place_cmp (map (λ e. e.0) (present_of counts.old nets)) }
    ensures same { SameKept counts.old counts.new }
    ensures ready { IfOk result (λ ready. IsReady counts.new nets ready) }
    ensures room { IfOk result (λ ready. HasRoom counts.new ready) }
{
    let cells = places(alloc, nets.entries.tallies())?.len();
    room(counts, &nets, cells)?;
    let ready = made_ready(alloc, counts, nets)?;
    Ok(ready)
}

/// Takes all memory that a change of the facts needs, and makes ready what is new. What is kept stays.
pub fn reserve(alloc: Global, counts: &mut FactCounts, nets: Nets) -> Result<NewCounts, NoMemory>
    requires { (label : Text) × (constants : Row) × (ms : List (Move Fact)) × (old : List Fact) × (new : List Fact) × IsChange counts.old nets label constants ms old new × (conflict new ≡ None) }
    ensures stands { (fs : List Fact) → Stands counts.old fs → Stands counts.new fs }
    ensures only { (fs : List Fact) → Stands counts.new fs → Stands counts.old fs }
    ensures ready { IfOk result (λ ready. IsReady counts.new nets ready) }
    ensures room { IfOk result (λ ready. HasRoom counts.new ready) }
{
    match take_ready(alloc, counts, nets) {
        Ok(ready) => Ok(ready),
        Err(NoMemory) => Err(NoMemory),
    }
}

/// Moves what was made ready in. This takes no memory and cannot fail.
pub fn commit(counts: &mut FactCounts, ready: NewCounts)
    requires { HasRoom counts.old ready }
    ensures { (n : Nets) (label : Text) (constants : Row) (ms : List (Move Fact)) (old new : List Fact) → IsChange counts.old n label constants ms old new → conflict new ≡ None
        → IsReady counts.old n ready → Stands counts.new new }
{
    let NewCounts {
        keys,
        columns,
        cells,
    } = ready;
    store_all(&mut counts.keys, keys);
    store_all(&mut counts.columns, columns);
    store_all(&mut counts.cells, cells);
}
