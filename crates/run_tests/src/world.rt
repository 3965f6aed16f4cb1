//! Folders, an input and an output in memory, of which one call fails.
ghost use Rattle.std.specs.Prelude.{◌<◌, All, IfOk};

use crate::place::{File, failing_folders, run_over, run_over_disk, texts};
use disk::Disk;
use outside::{MemFolders, MemSink, MemSource};
use ss_text::NoMemory;
use ss_top::Status;
use std::alloc::Global;

/// Which call fails: one that reads the folders, one that changes them, one that reads the input, or one that prints.
#[derive(Clone, Copy, PartialEq, Eq)]
pub enum Calls {
    Reads,
    Writes,
    Input,
    Prints,
}

/// What a run reads and writes.
pub struct World {
    pub store: MemFolders,
    pub input: MemSource,
    pub output: MemSink,
}

impl Drop for World {
    fn drop(self) {
        let World {
            store,
            input,
            output,
        } = self;
        drop(store);
        drop(input);
        drop(output);
    }
}

// The numbers of the calls of one kind that fail, where it is the call of this number of another, or the same, kind.
fn fails(alloc: Global, kind: Calls, calls: Calls, call: u8) -> Result<Vec<u64>, NoMemory>
    ensures { IfOk result (λ fails. All (λ k. k < 18446744073709551615) fails.items) }
{
    if kind == calls {
        Ok(vec![in alloc; u64::from(call)]?)
    } else {
        Ok(Vec::new(alloc))
    }
}

impl World {
    /// Folders with these files, an input of these pieces, and an output that takes so many bytes at a time. The call of
    /// this kind with this number fails, counted from 1.
    pub fn failing(
        alloc: Global,
        files: &[File],
        pieces: &[&str],
        most: usize,
        calls: Calls,
        call: u8,
    ) -> Result<World, NoMemory>
        requires { 0 < most }
    {
        let pieces = texts(alloc, pieces)?;
        let reads = fails(alloc, Calls::Reads, calls, call)?;
        let writes = fails(alloc, Calls::Writes, calls, call)?;
        let input = fails(alloc, Calls::Input, calls, call)?;
        let prints = fails(alloc, Calls::Prints, calls, call)?;
        let store = failing_folders(alloc, files, reads, writes)?;
        Ok(World {
            store,
            input: MemSource::of(pieces, input),
            output: MemSink::of(alloc, most, prints),
        })
    }

    /// The status of a run with these words.
    pub fn run(&mut self, alloc: Global, words: &[&str]) -> Result<Status, NoMemory> {
        let words = texts(alloc, words)?;
        Ok(run_over(
            alloc,
            &words,
            &mut self.store,
            &mut self.input,
            &mut self.output,
        ))
    }

    /// The status of a run with these words over a disk.
    pub fn run_on<D: Disk>(
        &mut self,
        alloc: Global,
        words: &[&str],
        disk: &mut D,
    ) -> Result<Status, NoMemory> {
        let words = texts(alloc, words)?;
        Ok(run_over_disk(
            alloc,
            &words,
            &mut self.store,
            &mut self.input,
            &mut self.output,
            disk,
        ))
    }
}
