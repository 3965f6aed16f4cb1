//! A file as a source of bytes.
ghost use Rattle.std.specs.Prelude.{None};

use outside::{Failed, Source};
use std::fs::File;
use std::io::Read;

/// A file that is read from its beginning, which tells nothing of what it holds.
#[derive(Drop)]
pub(crate) struct FileSource {
    file: File,
    faults: u64,
}

impl FileSource {
    /// The source of a file, on which no call has failed.
    pub(crate) fn of(file: File) -> FileSource {
        FileSource { file, faults: 0 }
    }
}

impl Source for FileSource {
    ghost rest = { λ _. None };

    ghost last = { λ _. None };

    ghost faults = { λ s. s.faults };

    fn read(&mut self, into: &mut [u8]) -> Result<usize, Failed> {
        match self.file.read(into) {
            Ok(count) => Ok(count),
            Err(_) => {
                self.faults = self.faults.saturating_add(1);
                Err(Failed)
            }
        }
    }
}
