//! The values of places before and after a change.
ghost use Rattle.std.specs.Prelude.{◌≡◌, ◌<◌, ◌+◌, ◌++◌, [], ◌∷◌, map, filter, filter_map, nat_lt, length, option_copied, IfOk, OnOk};
ghost use Rattle.std.specs.List.Sorted.{IsStrictlySortedBy};
ghost use Rattle.std.specs.Map.{lookup};
ghost use Rattle.ss_text.specs.Ascending.{ascending};
ghost use Rattle.counts.specs.Counted.{keys_of, after, CanMove};
ghost use Rattle.unfold_op.specs.Touched.{place_cmp, place_eq, entry_cmp, entry_eq};
ghost use Rattle.unfold_op.specs.Kept.{held, held_at, value_held, value_among, places_of, clash_of_two, first_clash};

use counts::{Key, Net, Tally};
use flow_law::Clash;
use indexmap::IndexMap;
use ss_text::{NoMemory, Row, Seed, Text, make_ascending};
use std::alloc::Global;

/// How often an entry is kept.
pub(crate) fn held(
    cells: &IndexMap<(Row, Text), (Text, u128), Seed>,
    entry: &((Row, Text), Text),
) -> u128
    ensures { result ≡ held cells.now entry.now }
{
    match cells.get(&entry.0) {
        Some(kept) => { if entry.1 == kept.0 { kept.1 } else { 0 } }
        None => 0,
    }
}

/// The value that is kept at a place, empty where none is.
pub(crate) fn value_held<'a>(
    cells: &'a IndexMap<(Row, Text), (Text, u128), Seed>,
    place: &(Row, Text),
) -> &'a [u8]
    ensures { result.now ≡ value_held cells.now place.now }
{
    match cells.get(place) {
        Some(kept) => { if kept.1 > 0 { kept.0.as_slice() } else { &[] } }
        None => &[],
    }
}

/// The places of entries, each once, ascending.
#[tactic(auto, using(counts::specs::Pairs::pair_same, ss_text::proofs::KeyLemmas::text_order, ss_text::proofs::KeyLemmas::row_order))]
pub(crate) fn places(
    alloc: Global,
    entries: &[Tally<((Row, Text), Text)>],
) -> Result<Vec<(Row, Text)>, NoMemory>
    ensures { IfOk result (λ places. places.items ≡ places_of (keys_of entries.now)) }
{
    let mut places = Vec::new(alloc);
    for entry in entries {
        places.push(entry.key.0.copied()?)?;
    }
    make_ascending(&mut places)?;
    Ok(places)
}

fn push_held(
    entries: &mut Vec<((Row, Text), Text)>,
    cells: &IndexMap<(Row, Text), (Text, u128), Seed>,
    place: &(Row, Text),
) -> Result<(), NoMemory>
    ensures { OnOk result (entries.new.items ≡ entries.old.items ++ filter_map (held_at cells.now) (place.now ∷ [])) }
{
    if let Some(kept) = cells.get(place) {
        entries.push((place.copied()?, kept.0.copied()?))?;
    }
    Ok(())
}

/// The entries that a change names and those that are kept at their places, each once, ascending.
#[tactic(auto, using(counts::specs::Pairs::pair_same, ss_text::proofs::KeyLemmas::text_order, ss_text::proofs::KeyLemmas::row_order))]
pub(crate) fn touched(
    alloc: Global,
    cells: &IndexMap<(Row, Text), (Text, u128), Seed>,
    named: &[Tally<((Row, Text), Text)>],
    places: &[(Row, Text)],
) -> Result<Vec<((Row, Text), Text)>, NoMemory>
    ensures { IfOk result (λ entries. entries.items ≡ ascending entry_cmp (keys_of named.now ++ filter_map (held_at cells.now) places.now)) }
{
    let mut entries = Vec::new(alloc);
    for entry in named {
        entries.push(entry.key.copied()?)?;
    }
    for place in places {
        push_held(&mut entries, cells, place)?;
    }
    make_ascending(&mut entries)?;
    Ok(entries)
}

fn is_present(
    cells: &IndexMap<(Row, Text), (Text, u128), Seed>,
    net: &Net<((Row, Text), Text)>,
    entry: &((Row, Text), Text),
) -> bool
    requires { CanMove entry_eq (held cells.now) net.now }
    ensures { result ≡ nat_lt 0 (after entry_eq (held cells.now) net.now entry.now) }
{
    net.after(held(cells, entry), entry) > 0
}

/// Those of the entries that are there after the change.
pub(crate) fn present(
    alloc: Global,
    cells: &IndexMap<(Row, Text), (Text, u128), Seed>,
    net: &Net<((Row, Text), Text)>,
    touched: &[((Row, Text), Text)],
) -> Result<Vec<((Row, Text), Text)>, NoMemory>
    requires { CanMove entry_eq (held cells.now) net.now }
    ensures { IfOk result (λ entries. entries.items ≡ filter (λ e. nat_lt 0 (after entry_eq (held cells.now) net.now e)) touched.now) }
{
    let mut entries = Vec::new(alloc);
    for entry in touched {
        if is_present(cells, net, entry) {
            entries.push(entry.copied()?)?;
        }
    }
    Ok(entries)
}

/// The value of a place among entries of one value for each place.
pub(crate) fn value_among<'a>(entries: &'a [((Row, Text), Text)], place: &(Row, Text)) -> &'a [u8]
    requires { IsStrictlySortedBy place_cmp (map (λ e. e.0) entries.now) }
    ensures { result.now ≡ value_among entries.now place.now }
{
    match entries.binary_search_by(|entry| entry.0.cmp(place)) {
        Ok(found) => entries[found].1.as_slice(),
        Err(_) => &[],
    }
}

fn clash_of_two(
    label: &Text,
    entry: &((Row, Text), Text),
    next: &((Row, Text), Text),
) -> Result<Option<Clash>, NoMemory>
    ensures { IfOk result (λ clash. clash ≡ clash_of_two label.now entry.now next.now) }
{
    if entry.0 != next.0 {
        return Ok(None);
    }
    Ok(Some(Clash {
        table: label.copied()?,
        column: entry.0.1.copied()?,
        first: entry.1.copied()?,
        second: next.1.copied()?,
        key: entry.0.0.copied()?,
    }))
}

/// The clash of the first neighbours that have one place.
pub(crate) fn first_clash(
    label: &Text,
    entries: &[((Row, Text), Text)],
) -> Result<Option<Clash>, NoMemory>
    ensures { IfOk result (λ clash. clash ≡ first_clash label.now entries.now) }
{
    let mut place = 0;
    while let [entry, next, ..] = &entries[place..] {
        if let Some(clash) = clash_of_two(label, entry, next)? {
            return Ok(Some(clash));
        }
        place += 1;
    }
    Ok(None)
}
