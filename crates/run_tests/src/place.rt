//! Folders and a disk in memory, and a run over them.
ghost use Rattle.std.specs.Prelude.{◌≡◌, ◌<◌, All};

use disk::{Disk, MemDisk};
use outside::{Folders, MemFolders, Sink, Source, StoreFault, SureFolders};
use ss_text::{NoMemory, Steps, Text};
use ss_top::{Status, run, run_with_disk};
use std::alloc::Global;
use std::marker::Brand;
use std::sync::ledger::{Blank, Ledger};

/// A file: its folder, its name and what it holds.
pub type File = (&'static str, &'static str, &'static str);

/// The files of a folder, in order: their names and what they hold.
pub type Held = (&'static str, &'static [(&'static str, &'static str)]);

/// This text.
pub fn text(alloc: Global, part: &str) -> Result<Text, NoMemory> {
    Text::of(alloc, part.as_bytes())
}

/// These texts.
pub fn texts(alloc: Global, parts: &[&str]) -> Result<Vec<Text>, NoMemory> {
    let mut texts = Vec::new(alloc);
    for part in parts {
        texts.push(text(alloc, part)?)?;
    }
    Ok(texts)
}

/// Folders with these files.
pub fn folders(alloc: Global, files: &[File]) -> Result<SureFolders, NoMemory> {
    let mut store = SureFolders::of(alloc);
    for (folder, file, held) in files {
        let folder = text(alloc, folder)?;
        let file = text(alloc, file)?;
        store.put(alloc, &folder, &file, held.as_bytes())?;
    }
    Ok(store)
}

fn put(alloc: Global, store: &mut MemFolders, file: &File) -> Result<(), NoMemory> {
    let (folder, file, held) = file;
    let folder = text(alloc, folder)?;
    let file = text(alloc, file)?;
    store.put(alloc, &folder, &file, held.as_bytes())
}

/// Folders with these files, of which the calls with these numbers fail.
pub fn failing_folders(
    alloc: Global,
    files: &[File],
    reads: Vec<u64>,
    writes: Vec<u64>,
) -> Result<MemFolders, NoMemory>
    requires reads { All (λ k. k < 18446744073709551615) reads.items }
    requires writes { All (λ k. k < 18446744073709551615) writes.items }
{
    let mut store = MemFolders::of(alloc, reads, writes);
    for file in files {
        put(alloc, &mut store, file)?;
    }
    Ok(store)
}

/// A disk of these bytes, whose call with this number fails. Calls are counted from 1.
pub fn disk_of(alloc: Global, bytes: &[u8], failing: u8) -> Result<MemDisk, NoMemory> {
    let bytes = Text::of(alloc, bytes)?;
    let fails = vec![in alloc; u64::from(failing)]?;
    Ok(MemDisk::of(alloc, bytes, fails))
}

fn run_counting<L: Ledger, F: Folders, S: Source, K: Sink>(
    alloc: Global,
    words: &[Text],
    store: &mut F,
    input: &mut S,
    output: &mut K,
    blank: Blank,
) -> Status
    requires name { blank.name ≡ L.name }
    requires parts { blank.parts ≡ L.parts }
    requires some { 0 < L.parts }
{
    let mut steps = Steps::<L>::of(blank);
    run(alloc, words, store, input, output, &mut steps)
}

/// Runs, and lets the count of steps go.
pub fn run_over<F: Folders, S: Source, K: Sink>(
    alloc: Global,
    words: &[Text],
    store: &mut F,
    input: &mut S,
    output: &mut K,
) -> Status {
    run_counting::<Brand, F, S, K>(alloc, words, store, input, output, Blank::new(1))
}

fn run_counting_on<L: Ledger, F: Folders, S: Source, K: Sink, D: Disk>(
    alloc: Global,
    words: &[Text],
    store: &mut F,
    input: &mut S,
    output: &mut K,
    disk: &mut D,
    blank: Blank,
) -> Status
    requires name { blank.name ≡ L.name }
    requires parts { blank.parts ≡ L.parts }
    requires some { 0 < L.parts }
{
    let mut steps = Steps::<L>::of(blank);
    run_with_disk(alloc, words, store, input, output, disk, &mut steps)
}

/// Runs over a disk, and lets the count of steps go.
pub fn run_over_disk<F: Folders, S: Source, K: Sink, D: Disk>(
    alloc: Global,
    words: &[Text],
    store: &mut F,
    input: &mut S,
    output: &mut K,
    disk: &mut D,
) -> Status {
    run_counting_on::<Brand, F, S, K, D>(alloc, words, store, input, output, disk, Blank::new(1))
}

// The names of the files of a folder. Of two calls at most one is to fail.
fn names_in<F: Folders>(
    alloc: Global,
    store: &mut F,
    folder: &Text,
) -> Result<Vec<Text>, StoreFault> {
    match store.files(alloc, folder) {
        Err(StoreFault::Failed) => store.files(alloc, folder),
        answer => answer,
    }
}

// What a file holds. Of two calls at most one is to fail.
fn held_in<F: Folders>(
    alloc: Global,
    store: &mut F,
    folder: &Text,
    file: &Text,
) -> Result<Option<Text>, StoreFault> {
    match store.read(alloc, folder, file) {
        Err(StoreFault::Failed) => store.read(alloc, folder, file),
        answer => answer,
    }
}

// Whether a file holds this.
fn is_held<F: Folders>(
    alloc: Global,
    store: &mut F,
    folder: &Text,
    file: &Text,
    want: &str,
) -> Result<bool, StoreFault> {
    match held_in(alloc, store, folder, file)? {
        Some(held) => Ok(held.as_slice() == want.as_bytes()),
        None => Ok(false),
    }
}

/// Whether the files of a folder are exactly these, in order.
pub fn holds<F: Folders>(
    alloc: Global,
    store: &mut F,
    folder: &str,
    want: &[(&str, &str)],
) -> Result<bool, StoreFault> {
    let folder = text(alloc, folder)?;
    let names = names_in(alloc, store, &folder)?;
    if names.len() != want.len() {
        return Ok(false);
    }
    for (name, (file, held)) in names.iter().zip(want) {
        if name.as_slice() != file.as_bytes() || !is_held(alloc, store, &folder, name, held)? {
            return Ok(false);
        }
    }
    Ok(true)
}

/// Whether each folder holds exactly these files.
pub fn all_hold<F: Folders>(
    alloc: Global,
    store: &mut F,
    want: &[Held],
) -> Result<bool, StoreFault> {
    for (folder, files) in want {
        if !holds(alloc, store, folder, files)? {
            return Ok(false);
        }
    }
    Ok(true)
}
