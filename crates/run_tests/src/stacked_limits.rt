//! Stacks whose second level would read more attributes than there may be.
use crate::place::{File, folders, run_over, text, texts};
use itoa::Buffer;
use outside::{StoreFault, SureFolders, SureSink, SureSource};
use ss_text::NoMemory;
use std::alloc::Global;

// Each value of a column is a column of the first view.
const WIDE: File = (
    "defs",
    "wide.ssql",
    "create view L::t(k, C) as select T.k, T.v from d::r T, T.c C",
);

const OVER: File = (
    "defs",
    "over.ssql",
    "create view M::u(k) as select T.k from L::t T",
);

// A relation with this many values in a column.
fn relation(alloc: Global, values: u16) -> Result<Vec<u8>, NoMemory> {
    let mut bytes = Vec::from_slice(alloc, b"k,c,v\n")?;
    for value in 0..values {
        let mut buffer = Buffer::new();
        bytes.extend_from_slice(b"k,c")?;
        bytes.extend_from_slice(buffer.format(value).as_bytes())?;
        bytes.extend_from_slice(b",1\n")?;
    }
    Ok(bytes)
}

// Folders with that relation.
fn place(alloc: Global, values: u16) -> Result<SureFolders, NoMemory> {
    let mut store = folders(alloc, &[WIDE, OVER])?;
    let held = relation(alloc, values)?;
    store.put(
        alloc,
        &text(alloc, "sources/d")?,
        &text(alloc, "r.csv")?,
        &held,
    )?;
    Ok(store)
}

// Whether a run of both views over this many values, and over this line, ends with this status and prints this.
fn prints(
    alloc: Global,
    values: u16,
    line: &str,
    status: u8,
    printed: &str,
) -> Result<bool, StoreFault> {
    let words = texts(alloc, &["stack", "wide", "over"])?;
    let mut store = place(alloc, values)?;
    let mut input = SureSource::of(texts(alloc, &[line])?);
    let mut output = SureSink::of(alloc, 4096);
    let ended = run_over(alloc, &words, &mut store, &mut input, &mut output);
    Ok(ended.number() == status && output.bytes() == printed.as_bytes())
}

// With the constant column 3,999 values make 4,000 attributes, and one more is too many.
#[test]
fn limits_are_those_of_the_level_that_reads(rt: HostRuntime) -> Result<(), StoreFault> {
    let alloc = rt.alloc();
    let changed = prints(
        alloc,
        3_999,
        "insert\td\tr\tk\tmore\t1\n",
        1,
        "synced\t2\nlevel\t2\nrefused\tlimit\tattributes\nsynced\t0\n",
    )?;
    let opened = prints(
        alloc,
        4_000,
        "",
        5,
        "level\t2\nrefused\tlimit\tattributes\n",
    )?;
    assert_eq!(rt; (changed, opened), (true, true));
    Ok(())
}
