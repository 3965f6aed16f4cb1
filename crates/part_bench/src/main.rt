//! Work of parts of the program, to be timed: changes of the engine's parts over as many rows as its words say, and
//! readings of a journal or of a file of change lines. Without words it does nothing.
//!
//! `bench/engine.py` and `bench/journal.py` run it. It is no part of the program `schemasql`.
#![tactic(auto)]

mod file_source;
mod joins;
mod linked;
mod made;
mod reading;
mod sources;

use anyhow::bail;
use file_source::FileSource;
use host_disk::HostDisk;
use ss_text::NoMemory;
use std::alloc::Global;
use std::env::{self, Env};
use std::fs::File;

fn main(rt: HostRuntime) -> anyhow::Result<()> {
    let words = words(&rt)?;
    match words.as_slice() {
        [name, kept, changes] => make(&rt, name.as_str(), kept.parse()?, changes.parse()?),
        [name] => read(rt, name.as_str()),
        _ => Ok(()),
    }
}

// The words after the program's own name.
fn words<R: Env + AllocGlobal>(rt: &R) -> anyhow::Result<Vec<String>> {
    let mut words = Vec::new(rt.alloc());
    for word in env::args(rt)?.skip(1) {
        words.push(word)?;
    }
    Ok(words)
}

// Does the work that a word names, over so many kept rows and with so many changes, and answers what it comes to; another
// word names none.
fn work(alloc: Global, name: &str, kept: u32, changes: u32) -> Result<Option<usize>, NoMemory> {
    match name {
        "join" => Ok(Some(joins::come(alloc, kept, changes)?)),
        "links" => Ok(Some(linked::left(alloc, kept, changes)?)),
        "sources" => Ok(Some(sources::left(alloc, kept, changes)?)),
        _ => Ok(None),
    }
}

// Prints what the work that a word names comes to.
fn make<R: Print + AllocGlobal>(rt: &R, name: &str, kept: u32, changes: u32) -> anyhow::Result<()> {
    match work(rt.alloc(), name, kept, changes) {
        Ok(Some(count)) => {
            println!(rt; "{count}")?;
            Ok(())
        }
        Ok(None) => Ok(()),
        Err(NoMemory) => bail!("no memory"),
    }
}

// Prints how many changes are read of what a word names; another word names nothing.
fn read(rt: HostRuntime, name: &str) -> anyhow::Result<()> {
    let count = match name {
        "entries" => entries(rt)?,
        "lines" => lines(rt)?,
        _ => return Ok(()),
    };
    println!(rt; "{count}")?;
    Ok(())
}

// The changes of the journal in the current folder.
fn entries(rt: HostRuntime) -> anyhow::Result<usize> {
    let mut disk = HostDisk::of(rt);
    match reading::entries(rt.alloc(), &mut disk) {
        Ok(count) => Ok(count),
        Err(_) => bail!("the journal cannot be read"),
    }
}

// The changes that stand on the lines of the file `changes`.
fn lines(rt: HostRuntime) -> anyhow::Result<usize> {
    let mut source = FileSource::of(File::open(&rt, "changes")?);
    match reading::lines(rt.alloc(), &mut source) {
        Ok(count) => Ok(count),
        Err(_) => bail!("the lines cannot be read"),
    }
}
