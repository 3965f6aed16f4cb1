//! A row: what a run has, and what it leaves.
use crate::place::{File, folders, holds, run_over, texts};
use outside::{Folders, Source, StoreFault, SureSink, SureSource};
use ss_top::Status;
use std::alloc::Global;

/// What a run is given.
#[derive(Clone, Copy)]
pub struct Row {
    pub words: &'static [&'static str],
    pub files: &'static [File],
    pub want: Want,
}

/// What a run leaves: its status, its output, and the files of one folder, in order.
#[derive(Clone, Copy)]
pub struct Want {
    pub status: u8,
    pub printed: &'static str,
    pub folder: &'static str,
    pub held: &'static [(&'static str, &'static str)],
}

/// What a run left that is not wanted.
pub fn unwanted<F: Folders>(
    alloc: Global,
    store: &mut F,
    status: Status,
    printed: &[u8],
    want: &Want,
) -> Result<&'static str, StoreFault> {
    if status == Status::NoMemory {
        return Ok("no memory");
    }
    if status.number() != want.status {
        return Ok("the status");
    }
    if printed != want.printed.as_bytes() {
        return Ok("the output");
    }
    if holds(alloc, store, want.folder, want.held)? {
        Ok("nothing")
    } else {
        Ok("the files")
    }
}

/// What a run over the row's folders and this input left that the row does not want.
pub fn difference_over<S: Source>(
    alloc: Global,
    row: &Row,
    input: &mut S,
) -> Result<&'static str, StoreFault> {
    let words = texts(alloc, row.words)?;
    let mut store = folders(alloc, row.files)?;
    let mut output = SureSink::of(alloc, 5);
    let status = run_over(alloc, &words, &mut store, input, &mut output);
    unwanted(alloc, &mut store, status, output.bytes(), &row.want)
}

/// What a run over the row's folders and no input left that the row does not want.
pub fn difference(alloc: Global, row: &Row) -> Result<&'static str, StoreFault> {
    let mut input = SureSource::of(Vec::new(alloc));
    difference_over(alloc, row, &mut input)
}
