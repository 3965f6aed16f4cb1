//! The pairs of moves of both sides that have the same key cells.
ghost use Rattle.std.specs.Prelude.{◌≡◌, ◌+◌, ℕ, List, ◌∷◌, [], ◌++◌, OnOk};
ghost use Rattle.std.specs.List.{flat_map};
ghost use Rattle.row_links.specs.Parts.{cells_at};
ghost use Rattle.row_links.specs.Marks.{mark_of};
ghost use Rattle.operator_law.specs.Bags.{weigh};
ghost use Rattle.operator_law.specs.declared.delta.Signed.{Signed as SignedValue};
ghost use Rattle.join_delta.specs.Joined.{matches, with_moves};
ghost use Rattle.join_delta.specs.Partners.{crossed_with};
ghost use Rattle.join_delta.specs.Groups.{group_in, moves_now};

use crate::groups::{Groups, groups_of, mark};
use crate::partners::add_joined;
use operator_law::Signed;
use row_links::agree;
use ss_text::{NoMemory, Seed};
use std::alloc::Global;

// So few moves are compared with each of the other side; more of them are grouped by their key cells.
const FEW: usize = 8;

/// Moves of a side, with the key of their rows.
#[derive(Clone, Copy)]
pub(crate) struct Keyed<'m> {
    pub moves: &'m [Signed],
    pub key: &'m [usize],
}

// Adds the pair of two moves whose key cells are equal. The other's cells may stand first.
fn add_if_equal(
    alloc: Global,
    m: &Signed,
    key: &[usize],
    other: &Signed,
    other_key: &[usize],
    other_first: bool,
    out: &mut Vec<Signed>,
) -> Result<(), NoMemory>
    ensures { OnOk result (out.new.items ≡ out.old.items ++ crossed_with other_first other_key.now key.now (other.now ∷ []) m.now) }
{
    if !agree(other_key, &other.row, key, &m.row) {
        return Ok(());
    }
    let up = m.up == other.up;
    if other_first {
        add_joined(alloc, &other.row, &m.row, up, out)
    } else {
        add_joined(alloc, &m.row, &other.row, up, out)
    }
}

// Adds the pairs of a move with moves of the other side.
fn add_each(
    alloc: Global,
    m: &Signed,
    key: &[usize],
    others: &[Signed],
    other_key: &[usize],
    other_first: bool,
    out: &mut Vec<Signed>,
) -> Result<(), NoMemory>
    ensures { OnOk result (out.new.items ≡ out.old.items ++ crossed_with other_first other_key.now key.now others.now m.now) }
{
    for other in others {
        add_if_equal(alloc, m, key, other, other_key, other_first, out)?;
    }
    Ok(())
}

// The same, where the moves are borrowed one by one.
fn add_group(
    alloc: Global,
    m: &Signed,
    key: &[usize],
    group: &[&Signed],
    other_key: &[usize],
    other_first: bool,
    out: &mut Vec<Signed>,
) -> Result<(), NoMemory>
    ensures { OnOk result (out.new.items ≡ out.old.items ++ crossed_with other_first other_key.now key.now (moves_now group.now) m.now) }
{
    for other in group {
        add_if_equal(alloc, m, key, other, other_key, other_first, out)?;
    }
    Ok(())
}

// Adds the pairs of a move with moves of the other side that are grouped: only a group can have its key cells.
fn add_grouped(
    alloc: Global,
    seed: Seed,
    m: &Signed,
    key: &[usize],
    groups: &Groups<'_>,
    other_key: &[usize],
    other_first: bool,
    out: &mut Vec<Signed>,
) -> Result<(), NoMemory>
    ensures { let group = group_in groups.now (mark_of seed (cells_at key.now m.now.row)) in
        OnOk result (out.new.items ≡ out.old.items ++ crossed_with other_first other_key.now key.now group m.now) }
{
    match groups.get(&mark(seed, key, &m.row)) {
        Some(group) => add_group(alloc, m, key, group, other_key, other_first, out),
        None => Ok(()),
    }
}

// Adds the pairs of the moves of one side with few moves of the other.
fn add_with_few(
    alloc: Global,
    side: Keyed<'_>,
    few: Keyed<'_>,
    few_first: bool,
    out: &mut Vec<Signed>,
) -> Result<(), NoMemory>
    ensures { OnOk result (out.new.items ≡ out.old.items ++ flat_map (crossed_with few_first few.entry.key.now side.entry.key.now few.entry.moves.now) side.entry.moves.now) }
{
    for m in side.moves {
        add_each(alloc, m, side.key, few.moves, few.key, few_first, out)?;
    }
    Ok(())
}

// Adds the pairs of the moves of one side with those of the other, which it groups.
fn add_with_many(
    alloc: Global,
    seed: Seed,
    side: Keyed<'_>,
    many: Keyed<'_>,
    many_first: bool,
    out: &mut Vec<Signed>,
) -> Result<(), NoMemory>
    ensures { OnOk result (out.new.items ≡ out.old.items ++ flat_map (crossed_with many_first many.entry.key.now side.entry.key.now many.entry.moves.now) side.entry.moves.now) }
{
    let groups = groups_of(alloc, seed, many.moves, many.key)?;
    for m in side.moves {
        add_grouped(alloc, seed, m, side.key, &groups, many.key, many_first, out)?;
    }
    Ok(())
}

// Adds the pairs of the moves of one side with those of the other.
fn add_crossed(
    alloc: Global,
    seed: Seed,
    side: Keyed<'_>,
    other: Keyed<'_>,
    other_first: bool,
    out: &mut Vec<Signed>,
) -> Result<(), NoMemory>
    ensures { OnOk result (out.new.items ≡ out.old.items ++ flat_map (crossed_with other_first other.entry.key.now side.entry.key.now other.entry.moves.now) side.entry.moves.now) }
{
    if other.moves.len() <= FEW {
        add_with_few(alloc, side, other, other_first, out)
    } else {
        add_with_many(alloc, seed, side, other, other_first, out)
    }
}

/// Adds the pairs of the moves of both sides, in some order. The shorter list is compared whole or grouped, once, by marks of
/// a seed.
pub(crate) fn add_products(
    alloc: Global,
    seed: Seed,
    first: Keyed<'_>,
    second: Keyed<'_>,
    out: &mut Vec<Signed>,
) -> Result<(), NoMemory>
    ensures { let both = flat_map (with_moves (matches first.entry.key.now second.entry.key.now) second.entry.moves.now) first.entry.moves.now in
        OnOk result ((f : SignedValue → ℕ) → weigh f out.new.items ≡ weigh f out.old.items + weigh f both) }
{
    if second.moves.len() <= first.moves.len() {
        add_crossed(alloc, seed, first, second, false, out)
    } else {
        add_crossed(alloc, seed, second, first, true, out)
    }
}
