//! What is printed.
ghost use Rattle.std.specs.Prelude.{◌≡◌, ◌≢◌, ◌++◌, [], ◌∷◌, IfOk, OnOk, codes, decimal};
ghost use Rattle.tab_lines.specs.Spelling.{spell};
ghost use Rattle.outside.specs.Effects.{Does, world_of};
ghost use Rattle.outside.specs.Blame.{SinkBlames};
ghost use Rattle.std.specs.List.{All};
ghost use Rattle.ss_print.specs.Printing.{says, refuses, prints_synced, prints_reply, prints_begun, prints_held, prints_aborted, prints_script, prints_applied, applied_rows, script_rows, lines_text, prints_same, prints_difference, length_text};

use change_script::{Script, script_lines};
use itoa::Buffer;
use outside::{Sink, Stop, print};
use ss_text::{NoMemory, Row, Text};
use std::alloc::Global;
use tab_lines::push_line;

/// A number in decimal.
pub fn number_text(alloc: Global, number: usize) -> Result<Text, NoMemory>
    ensures { IfOk result (λ text. text ≡ decimal number) }
{
    let mut buffer = Buffer::new();
    Text::of(alloc, buffer.format(number).as_bytes())
}

// Puts the line of a row, with its LF, behind this text.
fn push_row(text: &mut Vec<u8>, row: &Row) -> Result<(), NoMemory>
    requires { row.now ≢ [] }
    ensures { OnOk result (text.new.items ≡ text.old.items ++ spell row.now ++ 10 ∷ []) }
{
    push_line(text, row)?;
    text.push(b'\n')?;
    Ok(())
}

// The line of a row, with its LF.
fn line_of(alloc: Global, row: &Row) -> Result<Vec<u8>, NoMemory>
    requires { row.now ≢ [] }
    ensures { IfOk result (λ line. line.items ≡ spell row.now ++ 10 ∷ []) }
{
    let mut line = Vec::new(alloc);
    push_row(&mut line, row)?;
    Ok(line)
}

/// Prints a row as a line.
#[tactic(auto, using(outside::proofs::Following::following))]
pub fn say<K: Sink>(alloc: Global, output: &mut K, row: &Row) -> Result<(), Stop>
    requires { row.now ≢ [] }
    ensures does { (s : _) → Does (says row.now ∷ []) (world_of s (K.state output.old)) (world_of s (K.state output.new)) result }
    ensures blames { SinkBlames (K.state output.old) (K.state output.new) result }
{
    let line = line_of(alloc, row)?;
    print(alloc, output, line.as_slice())?;
    Ok(())
}

/// Prints a refusal, its name and fields.
#[tactic(auto, using(outside::proofs::Following::following))]
pub fn refuse<K: Sink>(alloc: Global, output: &mut K, fields: Row) -> Result<(), Stop>
    ensures does { (s : _) → Does (refuses fields ∷ []) (world_of s (K.state output.old)) (world_of s (K.state output.new)) result }
    ensures blames { SinkBlames (K.state output.old) (K.state output.new) result }
{
    let row = refused_row(alloc, &fields)?;
    drop(fields);
    say(alloc, output, &row)?;
    Ok(())
}

// The row of a refusal.
fn refused_row(alloc: Global, fields: &Row) -> Result<Row, NoMemory>
    ensures { IfOk result (λ row. row ≡ codes "refused" ∷ fields.now) }
{
    let mut row = Vec::new(alloc);
    row.push(Text::of(alloc, b"refused")?)?;
    for field in fields.cells() {
        row.push(field.copy()?)?;
    }
    Ok(Row::of(row))
}

/// Prints that a sync wrote and removed so many files.
#[tactic(auto, using(outside::proofs::Following::following))]
pub fn print_synced<K: Sink>(alloc: Global, output: &mut K, count: usize) -> Result<(), Stop>
    ensures does { (s : _) → Does (prints_synced count ∷ []) (world_of s (K.state output.old)) (world_of s (K.state output.new)) result }
    ensures blames { SinkBlames (K.state output.old) (K.state output.new) result }
{
    let row = counted_row(alloc, b"synced", count)?;
    say(alloc, output, &row)?;
    Ok(())
}

/// Prints that a group opens.
#[tactic(auto, using(outside::proofs::Following::following))]
pub fn print_begun<K: Sink>(alloc: Global, output: &mut K) -> Result<(), Stop>
    ensures does { (s : _) → Does (prints_begun ∷ []) (world_of s (K.state output.old)) (world_of s (K.state output.new)) result }
    ensures blames { SinkBlames (K.state output.old) (K.state output.new) result }
{
    print(alloc, output, b"begun\n")
}

/// Prints that a group holds a change.
#[tactic(auto, using(outside::proofs::Following::following))]
pub fn print_held<K: Sink>(alloc: Global, output: &mut K) -> Result<(), Stop>
    ensures does { (s : _) → Does (prints_held ∷ []) (world_of s (K.state output.old)) (world_of s (K.state output.new)) result }
    ensures blames { SinkBlames (K.state output.old) (K.state output.new) result }
{
    print(alloc, output, b"held\n")
}

/// Prints that a group is given up.
#[tactic(auto, using(outside::proofs::Following::following))]
pub fn print_aborted<K: Sink>(alloc: Global, output: &mut K) -> Result<(), Stop>
    ensures does { (s : _) → Does (prints_aborted ∷ []) (world_of s (K.state output.old)) (world_of s (K.state output.new)) result }
    ensures blames { SinkBlames (K.state output.old) (K.state output.new) result }
{
    print(alloc, output, b"aborted\n")
}

/// Prints that so many lines were applied, and that a sync wrote and removed so many files.
#[tactic(auto, using(outside::proofs::Following::following))]
pub fn print_applied<K: Sink>(
    alloc: Global,
    output: &mut K,
    lines: usize,
    count: usize,
) -> Result<(), Stop>
    ensures does { (s : _) → Does (prints_applied lines count ∷ []) (world_of s (K.state output.old)) (world_of s (K.state output.new)) result }
    ensures blames { SinkBlames (K.state output.old) (K.state output.new) result }
{
    let text = applied_text(alloc, lines, count)?;
    print(alloc, output, text.as_slice())?;
    Ok(())
}

// The lines of these two numbers.
#[tactic(auto, using(crate::proofs::PrintingLemmas::two_have_fields))]
fn applied_text(alloc: Global, lines: usize, count: usize) -> Result<Vec<u8>, NoMemory>
    ensures { IfOk result (λ text. text.items ≡ lines_text (applied_rows lines count)) }
{
    let mut rows = Vec::new(alloc);
    rows.push(counted_row(alloc, b"applied", lines)?)?;
    rows.push(counted_row(alloc, b"synced", count)?)?;
    lines_text(alloc, &rows)
}

/// Prints whose reply follows: that to the change which a source sent under a number.
#[tactic(auto, using(outside::proofs::Following::following))]
pub fn print_reply<K: Sink>(
    alloc: Global,
    output: &mut K,
    source: &Text,
    number: u64,
) -> Result<(), Stop>
    ensures does { (s : _) → Does (prints_reply source.now number ∷ []) (world_of s (K.state output.old)) (world_of s (K.state output.new)) result }
    ensures blames { SinkBlames (K.state output.old) (K.state output.new) result }
{
    let row = reply_row(alloc, source, number)?;
    say(alloc, output, &row)?;
    Ok(())
}

// The row of a reply.
fn reply_row(alloc: Global, source: &Text, number: u64) -> Result<Row, NoMemory>
    ensures { IfOk result (λ row. row ≡ codes "reply" ∷ source.now ∷ decimal number ∷ []) }
{
    let mut row = Vec::new(alloc);
    row.push(Text::of(alloc, b"reply")?)?;
    row.push(source.copy()?)?;
    row.push(number_text(alloc, number as usize)?)?;
    Ok(Row::of(row))
}

/// Prints the lines of a script, and how many they are.
#[tactic(auto, using(outside::proofs::Following::following))]
pub fn print_script<K: Sink>(alloc: Global, output: &mut K, script: &Script) -> Result<(), Stop>
    ensures does { (s : _) → Does (prints_script script.now ∷ []) (world_of s (K.state output.old)) (world_of s (K.state output.new)) result }
    ensures blames { SinkBlames (K.state output.old) (K.state output.new) result }
{
    let text = script_text(alloc, script)?;
    print(alloc, output, text.as_slice())?;
    Ok(())
}

// The lines of a script, and how many they are.
fn script_text(alloc: Global, script: &Script) -> Result<Vec<u8>, NoMemory>
    ensures { IfOk result (λ text. text.items ≡ lines_text (script_rows script.now)) }
{
    let rows = script_lines(alloc, script)?;
    let mut text = lines_text(alloc, &rows)?;
    let last = counted_row(alloc, b"done", script.lines().len())?;
    push_row(&mut text, &last)?;
    Ok(text)
}

// Rows as lines, each with its LF.
pub(crate) fn lines_text(alloc: Global, rows: &[Row]) -> Result<Vec<u8>, NoMemory>
    requires { All (λ row. row ≢ []) rows.now }
    ensures { IfOk result (λ text. text.items ≡ lines_text rows.now) }
{
    let mut text = Vec::new(alloc);
    for row in rows {
        push_row(&mut text, row)?;
    }
    Ok(text)
}

// A word and a number.
pub(crate) fn counted_row(alloc: Global, word: &[u8], count: usize) -> Result<Row, NoMemory>
    ensures { IfOk result (λ row. row ≡ word.now ∷ decimal count ∷ []) }
{
    let mut row = Vec::new(alloc);
    row.push(Text::of(alloc, word)?)?;
    row.push(number_text(alloc, count)?)?;
    Ok(Row::of(row))
}

/// Prints that a folder holds what is meant.
#[tactic(auto, using(outside::proofs::Following::following))]
pub fn print_same<K: Sink>(alloc: Global, output: &mut K, count: usize) -> Result<(), Stop>
    ensures does { (s : _) → Does (prints_same count ∷ []) (world_of s (K.state output.old)) (world_of s (K.state output.new)) result }
    ensures blames { SinkBlames (K.state output.old) (K.state output.new) result }
{
    let row = counted_row(alloc, b"same", count)?;
    say(alloc, output, &row)?;
    Ok(())
}

/// Prints that a file differs.
#[tactic(auto, using(outside::proofs::Following::following))]
pub fn print_difference<K: Sink>(
    alloc: Global,
    output: &mut K,
    file: &Text,
    held: Option<usize>,
    meant: Option<usize>,
) -> Result<(), Stop>
    ensures does { (s : _) → Does (prints_difference file.now held meant ∷ []) (world_of s (K.state output.old)) (world_of s (K.state output.new)) result }
    ensures blames { SinkBlames (K.state output.old) (K.state output.new) result }
{
    let row = difference_row(alloc, file, held, meant)?;
    say(alloc, output, &row)?;
    Ok(())
}

// The row of a difference.
fn difference_row(
    alloc: Global,
    file: &Text,
    held: Option<usize>,
    meant: Option<usize>,
) -> Result<Row, NoMemory>
    ensures { IfOk result (λ row. row ≡ codes "differs" ∷ file.now ∷ length_text held ∷ length_text meant ∷ []) }
{
    let mut row = Vec::new(alloc);
    row.push(Text::of(alloc, b"differs")?)?;
    row.push(file.copy()?)?;
    row.push(length_text(alloc, held)?)?;
    row.push(length_text(alloc, meant)?)?;
    Ok(Row::of(row))
}

// The length of a file, `-` where it is missing.
fn length_text(alloc: Global, length: Option<usize>) -> Result<Text, NoMemory>
    ensures { IfOk result (λ text. text ≡ length_text length) }
{
    match length {
        None => Text::of(alloc, b"-"),
        Some(length) => number_text(alloc, length),
    }
}
