//! The lines that a stack prints.
ghost use Rattle.std.specs.Prelude.{◌≡◌, ◌≤◌, ◌+◌, ◌++◌, ◌∷◌, [], map, length, codes, decimal, IfOk, OnOk};
ghost use Rattle.outside.specs.Effects.{Does, world_of};
ghost use Rattle.outside.specs.Blame.{SinkBlames};
ghost use Rattle.change_script.specs.Printed.{printed};
ghost use Rattle.ss_print.specs.Printing.{says, lines_text};
ghost use Rattle.ss_print.specs.LevelLines.{level_row, names_level, refuses_at, rows_from, line_count, stack_rows, prints_scripts};

use crate::printing::{counted_row, lines_text, refuse, say};
use change_script::{Script, script_lines};
use outside::{Sink, Stop, print};
use ss_text::{NoMemory, Row};
use std::alloc::Global;

/// Prints a refusal by a level, behind its number where that is not the lowest. Levels count from 1, the lowest.
#[tactic(auto, using(outside::proofs::Following::following, outside::proofs::EffectLemmas::partly_more, outside::proofs::EffectLemmas::partly_later, outside::proofs::EffectLemmas::performed_append))]
pub fn refuse_level<K: Sink>(
    alloc: Global,
    output: &mut K,
    level: usize,
    fields: Row,
) -> Result<(), Stop>
    ensures does { (s : _) → Does (refuses_at level fields) (world_of s (K.state output.old)) (world_of s (K.state output.new)) result }
    ensures blames { SinkBlames (K.state output.old) (K.state output.new) result }
{
    name_level(alloc, output, level)?;
    refuse(alloc, output, fields)?;
    Ok(())
}

// Prints the number of a level above the lowest.
#[tactic(auto, using(outside::proofs::Following::following))]
fn name_level<K: Sink>(alloc: Global, output: &mut K, level: usize) -> Result<(), Stop>
    ensures does { (s : _) → Does (names_level level) (world_of s (K.state output.old)) (world_of s (K.state output.new)) result }
    ensures blames { SinkBlames (K.state output.old) (K.state output.new) result }
{
    if level <= 1 {
        return Ok(());
    }
    say_level(alloc, output, level)
}

// Prints the number of a level.
#[tactic(auto, using(outside::proofs::Following::following))]
fn say_level<K: Sink>(alloc: Global, output: &mut K, level: usize) -> Result<(), Stop>
    ensures does { (s : _) → Does (says (level_row level) ∷ []) (world_of s (K.state output.old)) (world_of s (K.state output.new)) result }
    ensures blames { SinkBlames (K.state output.old) (K.state output.new) result }
{
    let row = level_row(alloc, level)?;
    say(alloc, output, &row)?;
    Ok(())
}

/// Prints the lines of each level, behind its number, and how many they are together.
#[tactic(auto, using(outside::proofs::Following::following))]
pub fn print_scripts<K: Sink>(alloc: Global, output: &mut K, all: Vec<Script>) -> Result<(), Stop>
    ensures does { (s : _) → Does (prints_scripts all.items ∷ []) (world_of s (K.state output.old)) (world_of s (K.state output.new)) result }
    ensures blames { SinkBlames (K.state output.old) (K.state output.new) result }
{
    let text = scripts_text(alloc, &all)?;
    drop(all);
    print(alloc, output, text.as_slice())?;
    Ok(())
}

// The lines of each level, behind its number, and how many they are together.
#[tactic(auto, using(crate::proofs::LevelLineLemmas::rows_have_fields))]
fn scripts_text(alloc: Global, all: &[Script]) -> Result<Vec<u8>, NoMemory>
    ensures { IfOk result (λ text. text.items ≡ lines_text (stack_rows all.now)) }
{
    let _levels = all.len();
    let mut rows = Vec::new(alloc);
    push_levels(alloc, &mut rows, 1, all)?;
    rows.push(done_row(alloc, all)?)?;
    lines_text(alloc, &rows)
}

// Puts the rows of levels last, the first being this one.
fn push_levels(
    alloc: Global,
    rows: &mut Vec<Row>,
    level: usize,
    all: &[Script],
) -> Result<(), NoMemory>
    requires { level + length all.now ≤ 18446744073709551615 }
    ensures { OnOk result (rows.new.items ≡ rows.old.items ++ rows_from level all.now) }
{
    let Some((script, above)) = all.split_first() else {
        return Ok(());
    };
    push_level(alloc, rows, level, script)?;
    push_levels(alloc, rows, level + 1, above)
}

// Puts the rows of a level last.
fn push_level(
    alloc: Global,
    rows: &mut Vec<Row>,
    level: usize,
    script: &Script,
) -> Result<(), NoMemory>
    ensures { OnOk result (rows.new.items ≡ rows.old.items ++ level_row level ∷ map printed script.now) }
{
    rows.push(level_row(alloc, level)?)?;
    for line in script_lines(alloc, script)? {
        rows.push(line)?;
    }
    Ok(())
}

// The number of a level.
fn level_row(alloc: Global, level: usize) -> Result<Row, NoMemory>
    ensures { IfOk result (λ row. row ≡ level_row level) }
{
    counted_row(alloc, b"level", level)
}

// How many lines there are.
fn done_row(alloc: Global, all: &[Script]) -> Result<Row, NoMemory>
    ensures { IfOk result (λ row. row ≡ codes "done" ∷ decimal (line_count all.now) ∷ []) }
{
    let count = line_count(all)?;
    counted_row(alloc, b"done", count)
}

// How many lines levels have together. More than can be counted are no memory.
fn line_count(all: &[Script]) -> Result<usize, NoMemory>
    ensures { IfOk result (λ count. count ≡ line_count all.now) }
{
    let Some((script, above)) = all.split_first() else {
        return Ok(0);
    };
    match line_count(above)?.checked_add(script.lines().len()) {
        Some(count) => Ok(count),
        None => Err(NoMemory),
    }
}
