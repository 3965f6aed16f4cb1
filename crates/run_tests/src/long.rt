//! A run of forty thousand changes.
ghost use Rattle.std.specs.Prelude.{◌<◌};

use crate::place::{folders, run_over, text, texts};
use itoa::Buffer;
use outside::{Folders, StoreFault, SureFolders, SureSink, SureSource};
use ss_text::{NoMemory, Text};
use ss_top::Status;
use std::alloc::Global;

// How many tens of changes there are.
const TENS: u32 = 4_000;

// Puts a number in decimal last.
fn push_number(bytes: &mut Vec<u8>, number: u32) -> Result<(), NoMemory> {
    let mut buffer = Buffer::new();
    bytes.extend_from_slice(buffer.format(number).as_bytes())?;
    Ok(())
}

// Puts the line of a change last, of the key and the column of a place, with a value.
fn push_line(bytes: &mut Vec<u8>, verb: &str, place: u32, value: u32) -> Result<(), NoMemory>
    requires { place < 1000000 }
{
    bytes.extend_from_slice(verb.as_bytes())?;
    bytes.extend_from_slice(b"\tg\tr\tk")?;
    push_number(bytes, place / 10)?;
    bytes.extend_from_slice(b"\td")?;
    push_number(bytes, (place + 1) % 8)?;
    bytes.extend_from_slice(b"\t")?;
    push_number(bytes, value)?;
    bytes.extend_from_slice(b"\n")?;
    Ok(())
}

// Puts ten lines last: eight insert a row each, the ninth deletes the first of these, and the last gives another value for
// the key and the column of the third.
fn push_ten(bytes: &mut Vec<u8>, ten: u32) -> Result<(), NoMemory>
    requires { ten < 4000 }
{
    let first = ten * 10;
    for last in 0..8u32 {
        push_line(bytes, "insert", first + last, first + last + 1)?;
    }
    push_line(bytes, "delete", first, first + 1)?;
    push_line(bytes, "insert", first + 2, first + 10)
}

// Ten lines.
fn ten_lines(alloc: Global, ten: u32) -> Result<Text, NoMemory>
    requires { ten < 4000 }
{
    let mut bytes = Vec::new(alloc);
    push_ten(&mut bytes, ten)?;
    Text::of_vec(bytes)
}

// All lines, ten for each read.
fn lines(alloc: Global) -> Result<Vec<Text>, NoMemory> {
    let mut pieces = Vec::new(alloc);
    for ten in 0..TENS {
        pieces.push(ten_lines(alloc, ten)?)?;
    }
    Ok(pieces)
}

// How many lines begin so.
fn count(printed: &[u8], front: &[u8]) -> usize {
    printed
        .split(|byte| *byte == b'\n')
        .filter(|line| line.starts_with(front))
        .count()
}

// How many bytes a file of the view has.
fn size(alloc: Global, store: &mut SureFolders) -> Result<usize, StoreFault> {
    let folder = text(alloc, "views/G")?;
    let file = text(alloc, "t.csv")?;
    match store.read(alloc, &folder, &file)? {
        Some(held) => Ok(held.as_slice().len()),
        None => Ok(0),
    }
}

// What the run left that is not wanted.
fn unwanted(
    alloc: Global,
    store: &mut SureFolders,
    status: Status,
    printed: &[u8],
) -> Result<&'static str, StoreFault> {
    if status != Status::SomeRefused {
        return Ok("the status");
    }
    if count(printed, b"done") != 36_000 || count(printed, b"refused") != 4_000 {
        return Ok("the answers");
    }
    if size(alloc, store)? == 187_139 {
        Ok("nothing")
    } else {
        Ok("the file")
    }
}

fn difference(alloc: Global) -> Result<&'static str, StoreFault> {
    let words = texts(alloc, ["maintain", "G"].as_slice())?;
    let view = "create view G::t(k, D) as select T.k, T.v from g::r T, T.d D";
    let mut store = folders(
        alloc,
        [("defs", "G.ssql", view), ("sources/g", "r.csv", "k,d,v\n")].as_slice(),
    )?;
    let mut input = SureSource::of(lines(alloc)?);
    let mut output = SureSink::of(alloc, 5);
    let status = run_over(alloc, &words, &mut store, &mut input, &mut output);
    unwanted(alloc, &mut store, status, output.bytes())
}

#[test]
fn forty_thousand_changes_are_answered(rt: HostRuntime) -> Result<(), StoreFault> {
    assert_eq!(rt; difference(rt.alloc())?, "nothing");
    Ok(())
}
