//! Moves by the cells of a key.
ghost use Rattle.std.specs.Prelude.{◌≡◌, None, false, nat_eq, slice_get, option_copied, IfOk, OnOk, IsTrue};
ghost use Rattle.indexmap.specs.IndexMap.{get};
ghost use Rattle.row_links.specs.Parts.{cells_at};
ghost use Rattle.row_links.specs.Marks.{mark_of};
ghost use Rattle.join_delta.specs.Groups.{AreGroups, AddsTo};

use indexmap::IndexMap;
use operator_law::Signed;
use ss_text::{NoMemory, Row, Seed, Text};
use std::alloc::Global;
use std::hash::{BuildHasher, Hash, Hasher};

/// Moves whose key cells share a number, in their order, by this number. The map needs no seed: the numbers have one.
pub(crate) type Groups<'m> = IndexMap<u64, Vec<&'m Signed>>;

// A cell of a row, or none behind its end.
fn cell(row: &Row, position: usize) -> Option<&Text>
    ensures { option_copied result ≡ slice_get row.now position }
{
    row.cells().get(position)
}

/// A number that equal key cells share.
pub(crate) fn mark(seed: Seed, key: &[usize], row: &Row) -> u64
    ensures { result ≡ mark_of seed (cells_at key.now row.now) }
{
    let mut state = seed.build_hasher();
    for position in key {
        cell(row, *position).hash(&mut state);
    }
    state.finish()
}

// Adds a move behind those of its number, where there are some, and answers whether there were.
fn joins_group<'m>(groups: &mut Groups<'m>, number: u64, m: &'m Signed) -> Result<bool, NoMemory>
    ensures found { IfOk result (λ found. IsTrue found → AddsTo number m.now groups.old groups.new) }
    ensures none { IfOk result (λ found. found ≡ false → (groups.new ≡ groups.old) × (get nat_eq groups.old number ≡ None)) }
{
    match groups.get_mut(&number) {
        Some(group) => {
            group.push(m)?;
            Ok(true)
        }
        None => Ok(false),
    }
}

// Adds a move as the last of its number.
fn add_to_group<'m>(
    alloc: Global,
    groups: &mut Groups<'m>,
    number: u64,
    m: &'m Signed,
) -> Result<(), NoMemory>
    ensures { OnOk result (AddsTo number m.now groups.old groups.new) }
{
    if joins_group(groups, number, m)? {
        return Ok(());
    }
    let mut group = Vec::new(alloc);
    group.push(m)?;
    groups.insert(number, group)?;
    Ok(())
}

/// Groups moves by the numbers of their key cells.
pub(crate) fn groups_of<'m>(
    alloc: Global,
    seed: Seed,
    moves: &'m [Signed],
    key: &[usize],
) -> Result<Groups<'m>, NoMemory>
    ensures { IfOk result (λ groups. AreGroups seed groups key.now moves.now) }
{
    let mut groups = IndexMap::new(alloc);
    for m in moves {
        add_to_group(alloc, &mut groups, mark(seed, key, &m.row), m)?;
    }
    Ok(groups)
}
